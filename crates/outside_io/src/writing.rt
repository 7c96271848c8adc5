// A text written whole, or up to a fault.
ghost use Rattle.std.specs.Prelude.{◌≡◌, ◌⊎◌, ◌<◌, ◌≤◌, ◌++◌, List, ℕ, Option, Some, length, take, OnOk, OnErr};
ghost use Rattle.outside_io.specs.Io.{Rose, IsFront};

use crate::{Failed, Sink};

/// Writes all of a text, and takes no memory. At `Err` a front of it was written.
pub fn write_all<K: Sink>(sink: &mut K, text: &[u8]) -> Result<(), Failed>
    ensures later { K.faults sink.old ≤ K.faults sink.new }
    ensures whole { OnOk result ((w : List ℕ) → K.wrote sink.old ≡ Some w → K.wrote sink.new ≡ Some (w ++ text.now)) }
    ensures cut { OnErr result ((w : List ℕ) → K.wrote sink.old ≡ Some w
        → (front : List ℕ) × IsFront front text.now × (K.wrote sink.new ≡ Some (w ++ front))) }
    ensures failed { OnErr result (Rose (K.faults sink.old) (K.faults sink.new)) }
{
    let mut done = 0;
    while done < text.len() {
        let count = match sink.write(&text[done..]) {
            Ok(count) => count,
            Err(failed) => return Err(failed),
        };
        if count == 0 {
            return Err(Failed);
        }
        done += count;
    }
    Ok(())
}
