// Comments.

ghost use Rattle.std.specs.Prelude.{◌≡◌, ◌≢◌, ℕ, ◌+◌, ◌<◌, ◌≤◌, length, take, drop, slice_index, MatchOption};
ghost use Rattle.c_lexer.specs.Cut.{IsComment, IsLine, IsSplicedAt};

/// How long the comment from a slash and a star at the front is, where it ends.
pub fn comment_len(bytes: &[u8]) -> Option<usize>
    requires long { 2 ≤ length bytes.now }
    requires slash { slice_index bytes.now 0 ≡ 47 }
    requires star { slice_index bytes.now 1 ≡ 42 }
    ensures { MatchOption result ((k : ℕ) → 2 ≤ k → k + 1 < length bytes.now → slice_index bytes.now k ≡ 42 → slice_index bytes.now (k + 1) ≡ 47 → ⊥)
        (λ n. (n ≤ length bytes.now) × IsComment (take n bytes.now)) }
{
    let mut k = 2;
    while k < bytes.len() - 1 {
        if bytes[k] == b'*' && bytes[k + 1] == b'/' {
            return Some(k + 2);
        }
        k += 1;
    }
    None
}

/// How long the comment of one line at the front is.
pub fn line_len(bytes: &[u8]) -> usize
    requires long { 2 ≤ length bytes.now }
    requires slash { slice_index bytes.now 0 ≡ 47 }
    requires second { slice_index bytes.now 1 ≡ 47 }
    ensures long { 2 ≤ result }
    ensures within { result ≤ length bytes.now }
    ensures one_line { (k : ℕ) → k < result → slice_index bytes.now k ≢ 10 }
    ensures ends { result < length bytes.now → slice_index bytes.now result ≡ 10 }
{
    let mut n = 2;
    while n < bytes.len() && bytes[n] != b'\n' {
        n += 1;
    }
    n
}

/// Where the backslash stands in which a comment of one line ends, alone or before a carriage
/// return.
pub fn spliced_at(line: &[u8]) -> Option<usize>
    requires { 2 ≤ length line.now }
    ensures { MatchOption result ((n : ℕ) → IsSplicedAt line.now n → ⊥) (λ n. (n < length line.now) × IsSplicedAt line.now n) }
{
    let last = line.len() - 1;
    if line[last] == b'\\' {
        Some(last)
    } else if line[last] == b'\r' && line[last - 1] == b'\\' {
        Some(last - 1)
    } else {
        None
    }
}
