// Places in a text.

ghost use Rattle.std.specs.Prelude.{◌≡◌, ◌+◌, ◌^◌, ◌<◌, ◌≤◌, length};
ghost use Rattle.c_lexer.specs.Cut.{step, moved_of};

use c_syntax_written::Pos;

/// The place after these bytes.
pub fn moved(from: Pos, bytes: &[u8]) -> Pos
    requires line { from.line + length bytes.now < 2 ^ 32 }
    requires col { from.col + length bytes.now < 2 ^ 32 }
    ensures is { result ≡ moved_of from bytes.now }
    ensures line { result.line ≤ from.line + length bytes.now }
    ensures col { result.col ≤ from.col + length bytes.now }
{
    let mut at = from;
    for b in bytes {
        at = stepped(at, *b);
    }
    at
}

fn stepped(at: Pos, b: u8) -> Pos
    requires line { at.line + 1 < 2 ^ 32 }
    requires col { at.col + 1 < 2 ^ 32 }
    ensures is { result ≡ step at b }
    ensures line { result.line ≤ at.line + 1 }
    ensures col { result.col ≤ at.col + 1 }
{
    if b == b'\n' {
        Pos {
            file: at.file,
            line: at.line + 1,
            col: 1,
        }
    } else {
        Pos {
            file: at.file,
            line: at.line,
            col: at.col + 1,
        }
    }
}
