// Ramps in words.
#![tactic(auto)]

ghost use Rattle.std.specs.Prelude.{◌≡◌, option_map};
ghost use Rattle.headline_words.specs.Command.{ramp_in, ramp_or as ramp_if_there};

use crate::words::RAMP;
use ramp_constants::RampKind;

/// The ramp of an option, or the usual one where it is not there.
pub fn ramp_or(text: Option<&str>) -> Option<RampKind>
    ensures { result ≡ ramp_if_there (option_map (λ s. s.now) text.entry) }
{
    match text {
        None => Some(RAMP),
        Some(text) => ramp(text),
    }
}

fn ramp(text: &str) -> Option<RampKind>
    ensures { result ≡ ramp_in text.now }
{
    if text == "powers" {
        Some(RampKind::Powers)
    } else if text == "constants" {
        Some(RampKind::Constants)
    } else {
        None
    }
}
