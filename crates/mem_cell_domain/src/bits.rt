// Initial bytes are bytes.
#![tactic(auto)]

ghost use Rattle.std.specs.Prelude.{All};
ghost use Rattle.c_objects.specs.Statics.{AreEightBits, HasEightBits};

use c_syntax::{InitByte, Initial};

/// Reads each initial number, of which it is known then that it has eight bits.
pub fn initials_have_eight_bits(initials: &[Initial])
    ensures { AreEightBits initials.now }
{
    for initial in initials {
        bytes_have_eight_bits(initial.bytes.as_slice());
    }
}

fn bytes_have_eight_bits(bytes: &[InitByte])
    ensures { All HasEightBits bytes.now }
{
    for byte in bytes {
        byte_has_eight_bits(byte);
    }
}

fn byte_has_eight_bits(byte: &InitByte)
    ensures { HasEightBits byte.now }
{
    match byte {
        InitByte::Num(number) => {
            let _number = *number;
        }
        InitByte::Piece { .. } => {}
    }
}
