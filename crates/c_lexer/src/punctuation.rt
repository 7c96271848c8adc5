// Punctuators.

ghost use Rattle.std.specs.Prelude.{◌≡◌, ◌≢◌, ℕ, List, [], ◌∷◌, ◌++◌, length, MatchOption};
ghost use Rattle.c_syntax_written.specs.declared.token.Punctuator.{Punctuator};
ghost use Rattle.c_lexer.specs.Spelling.{punctuator_text};
ghost use Rattle.c_lexer.specs.Piece.{HasPunctuator, IsLongestPunctuator};

use c_syntax_written::Punctuator;

/// The longest punctuator at the front, with its length.
pub fn punctuator(bytes: &[u8]) -> Option<(Punctuator, usize)>
    ensures { MatchOption result ((p : Punctuator) (b : List ℕ) → bytes.now ≡ punctuator_text p ++ b → ⊥)
        (λ x. IsLongestPunctuator bytes.now x.0 × (x.1 ≡ length (punctuator_text x.0))) }
{
    if let Some(found) = three(bytes) {
        Some((found, 3))
    } else if let Some(found) = two(bytes) {
        Some((found, 2))
    } else if let Some(found) = one(bytes) {
        Some((found, 1))
    } else {
        None
    }
}

/// The punctuator of three bytes at the front.
#[tactic(auto, using(crate::proofs::PunctuatorLemmas::from_three, crate::proofs::PunctuatorLemmas::no_three, crate::proofs::PunctuatorLemmas::too_short))]
fn three(bytes: &[u8]) -> Option<Punctuator>
    ensures { MatchOption result ((p : Punctuator) → HasPunctuator bytes.now 3 p → ⊥) (λ p. HasPunctuator bytes.now 3 p) }
{
    match bytes {
        [first, second, third, ..] => of_three(*first, *second, *third),
        _ => None,
    }
}

/// The punctuator of two bytes at the front.
#[tactic(auto, using(crate::proofs::PunctuatorLemmas::from_two, crate::proofs::PunctuatorLemmas::no_two, crate::proofs::PunctuatorLemmas::too_short))]
fn two(bytes: &[u8]) -> Option<Punctuator>
    ensures { MatchOption result ((p : Punctuator) → HasPunctuator bytes.now 2 p → ⊥) (λ p. HasPunctuator bytes.now 2 p) }
{
    match bytes {
        [first, second, ..] => of_two(*first, *second),
        _ => None,
    }
}

/// The punctuator of one byte at the front.
#[tactic(auto, using(crate::proofs::PunctuatorLemmas::from_one, crate::proofs::PunctuatorLemmas::no_one, crate::proofs::PunctuatorLemmas::too_short))]
fn one(bytes: &[u8]) -> Option<Punctuator>
    ensures { MatchOption result ((p : Punctuator) → HasPunctuator bytes.now 1 p → ⊥) (λ p. HasPunctuator bytes.now 1 p) }
{
    match bytes {
        [first, ..] => of_one(*first),
        _ => None,
    }
}

fn of_three(first: u8, second: u8, third: u8) -> Option<Punctuator>
    ensures { MatchOption result ((p : Punctuator) → punctuator_text p ≢ first ∷ second ∷ third ∷ []) (λ p. punctuator_text p ≡ first ∷ second ∷ third ∷ []) }
{
    match (first, second, third) {
        (b'.', b'.', b'.') => Some(Punctuator::Ellipsis),
        (b'<', b'<', b'=') => Some(Punctuator::ShiftLeftAssign),
        (b'>', b'>', b'=') => Some(Punctuator::ShiftRightAssign),
        _ => None,
    }
}

fn of_two(first: u8, second: u8) -> Option<Punctuator>
    ensures { MatchOption result ((p : Punctuator) → punctuator_text p ≢ first ∷ second ∷ []) (λ p. punctuator_text p ≡ first ∷ second ∷ []) }
{
    match (first, second) {
        (b'-', b'>') => Some(Punctuator::Arrow),
        (b'+', b'+') => Some(Punctuator::Increment),
        (b'-', b'-') => Some(Punctuator::Decrement),
        (b'<', b'<') => Some(Punctuator::ShiftLeft),
        (b'>', b'>') => Some(Punctuator::ShiftRight),
        (b'<', b'=') => Some(Punctuator::LessEqual),
        (b'>', b'=') => Some(Punctuator::GreaterEqual),
        (b'=', b'=') => Some(Punctuator::Equal),
        (b'!', b'=') => Some(Punctuator::NotEqual),
        (b'&', b'&') => Some(Punctuator::And),
        (b'|', b'|') => Some(Punctuator::Or),
        (b'*', b'=') => Some(Punctuator::MultiplyAssign),
        (b'/', b'=') => Some(Punctuator::DivideAssign),
        (b'%', b'=') => Some(Punctuator::RemainderAssign),
        (b'+', b'=') => Some(Punctuator::AddAssign),
        (b'-', b'=') => Some(Punctuator::SubtractAssign),
        (b'&', b'=') => Some(Punctuator::AndAssign),
        (b'^', b'=') => Some(Punctuator::XorAssign),
        (b'|', b'=') => Some(Punctuator::OrAssign),
        _ => None,
    }
}

fn of_one(first: u8) -> Option<Punctuator>
    ensures { MatchOption result ((p : Punctuator) → punctuator_text p ≢ first ∷ []) (λ p. punctuator_text p ≡ first ∷ []) }
{
    match first {
        b'[' => Some(Punctuator::LeftBracket),
        b']' => Some(Punctuator::RightBracket),
        b'(' => Some(Punctuator::LeftParenthesis),
        b')' => Some(Punctuator::RightParenthesis),
        b'{' => Some(Punctuator::LeftBrace),
        b'}' => Some(Punctuator::RightBrace),
        b'.' => Some(Punctuator::Dot),
        b'&' => Some(Punctuator::Ampersand),
        b'*' => Some(Punctuator::Star),
        b'+' => Some(Punctuator::Plus),
        b'-' => Some(Punctuator::Minus),
        b'~' => Some(Punctuator::Tilde),
        b'!' => Some(Punctuator::Exclamation),
        b'/' => Some(Punctuator::Slash),
        b'%' => Some(Punctuator::Percent),
        b'<' => Some(Punctuator::Less),
        b'>' => Some(Punctuator::Greater),
        b'^' => Some(Punctuator::Caret),
        b'|' => Some(Punctuator::Bar),
        b'?' => Some(Punctuator::Question),
        b':' => Some(Punctuator::Colon),
        b';' => Some(Punctuator::Semicolon),
        b'=' => Some(Punctuator::Assign),
        b',' => Some(Punctuator::Comma),
        _ => None,
    }
}
