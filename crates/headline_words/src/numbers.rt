// Numbers in words.
#![tactic(auto)]

ghost use Rattle.std.specs.Prelude.{◌≡◌};
ghost use Rattle.std.specs.List.{list_all};
ghost use Rattle.headline_words.specs.Command.{is_digit, number_in};

/// The number that one to five digits write, where it is not above the most.
pub fn number(text: &str, most: u32) -> Option<u32>
    ensures { result ≡ number_in most text.now }
{
    let digits = text.as_bytes();
    if digits.is_empty() || digits.len() > 5 || !are_digits(digits) {
        return None;
    }
    let Ok(number) = text.parse::<u32>() else {
        return None;
    };
    if number > most { None } else { Some(number) }
}

fn are_digits(text: &[u8]) -> bool
    ensures { result ≡ list_all is_digit text.now }
{
    let mut rest = text;
    while let Some((first, more)) = rest.split_first() {
        if !first.is_ascii_digit() {
            return false;
        }
        rest = more;
    }
    true
}
