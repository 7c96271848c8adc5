// Random numbers.

ghost use Rattle.std.specs.Prelude.{◌<◌};

use rand_core::utils::NextWord;
use rand_pcg::Pcg32;

/// A number below the count, or 0 where that is 0.
pub fn below(random: &mut Pcg32, count: u32) -> u32
    ensures { 0 < count → result < count }
{
    let word: u32 = random.next_word();
    word.checked_rem(count).unwrap_or(0)
}
