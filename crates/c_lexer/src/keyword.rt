// Keywords, by their length and then one by one: a single match over all of their spellings has a
// proof that takes several times as long.

ghost use Rattle.std.specs.Prelude.{◌≡◌, ◌≢◌, ◌<◌, ◌↔◌, length, IsTrue, MatchOption};
ghost use Rattle.c_syntax_written.specs.declared.token.Keyword.{Keyword};
ghost use Rattle.c_lexer.specs.Spelling.{keyword_text};

use c_syntax_written::Keyword;

/// The keyword that a word is, where it is one.
#[tactic(auto, using(crate::proofs::KeywordLemmas::of_length, crate::proofs::KeywordLemmas::of_more, crate::proofs::KeywordLemmas::too_short))]
pub fn keyword(spelling: &[u8]) -> Option<Keyword>
    ensures { MatchOption result ((k : Keyword) → spelling.now ≢ keyword_text k) (λ k. spelling.now ≡ keyword_text k) }
{
    match spelling.len() {
        0 | 1 => None,
        2 => of_two(spelling),
        3 => of_three(spelling),
        4 => of_four(spelling),
        5 => of_five(spelling),
        6 => of_six(spelling),
        7 => of_seven(spelling),
        8 => of_eight(spelling),
        _ => of_more(spelling),
    }
}

/// The keyword of two bytes that this is.
fn of_two(spelling: &[u8]) -> Option<Keyword>
    ensures { MatchOption result ((k : Keyword) → length (keyword_text k) ≡ 2 → spelling.now ≢ keyword_text k) (λ k. spelling.now ≡ keyword_text k) }
{
    if is_word(spelling, b"do".as_slice()) {
        Some(Keyword::Do)
    } else if is_word(spelling, b"if".as_slice()) {
        Some(Keyword::If)
    } else {
        None
    }
}

/// The keyword of three bytes that this is.
fn of_three(spelling: &[u8]) -> Option<Keyword>
    ensures { MatchOption result ((k : Keyword) → length (keyword_text k) ≡ 3 → spelling.now ≢ keyword_text k) (λ k. spelling.now ≡ keyword_text k) }
{
    if is_word(spelling, b"for".as_slice()) {
        Some(Keyword::For)
    } else if is_word(spelling, b"int".as_slice()) {
        Some(Keyword::Int)
    } else {
        None
    }
}

/// The keyword of four bytes that this is.
fn of_four(spelling: &[u8]) -> Option<Keyword>
    ensures { MatchOption result ((k : Keyword) → length (keyword_text k) ≡ 4 → spelling.now ≢ keyword_text k) (λ k. spelling.now ≡ keyword_text k) }
{
    if is_word(spelling, b"auto".as_slice()) {
        Some(Keyword::Auto)
    } else if is_word(spelling, b"case".as_slice()) {
        Some(Keyword::Case)
    } else if is_word(spelling, b"char".as_slice()) {
        Some(Keyword::Char)
    } else if is_word(spelling, b"else".as_slice()) {
        Some(Keyword::Else)
    } else if is_word(spelling, b"enum".as_slice()) {
        Some(Keyword::Enum)
    } else if is_word(spelling, b"goto".as_slice()) {
        Some(Keyword::Goto)
    } else if is_word(spelling, b"long".as_slice()) {
        Some(Keyword::Long)
    } else if is_word(spelling, b"void".as_slice()) {
        Some(Keyword::Void)
    } else {
        None
    }
}

/// The keyword of five bytes that this is.
fn of_five(spelling: &[u8]) -> Option<Keyword>
    ensures { MatchOption result ((k : Keyword) → length (keyword_text k) ≡ 5 → spelling.now ≢ keyword_text k) (λ k. spelling.now ≡ keyword_text k) }
{
    if is_word(spelling, b"break".as_slice()) {
        Some(Keyword::Break)
    } else if is_word(spelling, b"const".as_slice()) {
        Some(Keyword::Const)
    } else if is_word(spelling, b"float".as_slice()) {
        Some(Keyword::Float)
    } else if is_word(spelling, b"short".as_slice()) {
        Some(Keyword::Short)
    } else if is_word(spelling, b"union".as_slice()) {
        Some(Keyword::Union)
    } else if is_word(spelling, b"while".as_slice()) {
        Some(Keyword::While)
    } else if is_word(spelling, b"_Bool".as_slice()) {
        Some(Keyword::Bool)
    } else {
        None
    }
}

/// The keyword of six bytes that this is.
fn of_six(spelling: &[u8]) -> Option<Keyword>
    ensures { MatchOption result ((k : Keyword) → length (keyword_text k) ≡ 6 → spelling.now ≢ keyword_text k) (λ k. spelling.now ≡ keyword_text k) }
{
    if is_word(spelling, b"double".as_slice()) {
        Some(Keyword::Double)
    } else if is_word(spelling, b"extern".as_slice()) {
        Some(Keyword::Extern)
    } else if is_word(spelling, b"inline".as_slice()) {
        Some(Keyword::Inline)
    } else if is_word(spelling, b"return".as_slice()) {
        Some(Keyword::Return)
    } else if is_word(spelling, b"signed".as_slice()) {
        Some(Keyword::Signed)
    } else if is_word(spelling, b"sizeof".as_slice()) {
        Some(Keyword::Sizeof)
    } else if is_word(spelling, b"static".as_slice()) {
        Some(Keyword::Static)
    } else if is_word(spelling, b"struct".as_slice()) {
        Some(Keyword::Struct)
    } else if is_word(spelling, b"switch".as_slice()) {
        Some(Keyword::Switch)
    } else {
        None
    }
}

/// The keyword of seven bytes that this is.
fn of_seven(spelling: &[u8]) -> Option<Keyword>
    ensures { MatchOption result ((k : Keyword) → length (keyword_text k) ≡ 7 → spelling.now ≢ keyword_text k) (λ k. spelling.now ≡ keyword_text k) }
{
    if is_word(spelling, b"default".as_slice()) {
        Some(Keyword::Default)
    } else if is_word(spelling, b"typedef".as_slice()) {
        Some(Keyword::Typedef)
    } else if is_word(spelling, b"_Atomic".as_slice()) {
        Some(Keyword::Atomic)
    } else {
        None
    }
}

/// The keyword of eight bytes that this is.
fn of_eight(spelling: &[u8]) -> Option<Keyword>
    ensures { MatchOption result ((k : Keyword) → length (keyword_text k) ≡ 8 → spelling.now ≢ keyword_text k) (λ k. spelling.now ≡ keyword_text k) }
{
    if is_word(spelling, b"continue".as_slice()) {
        Some(Keyword::Continue)
    } else if is_word(spelling, b"register".as_slice()) {
        Some(Keyword::Register)
    } else if is_word(spelling, b"restrict".as_slice()) {
        Some(Keyword::Restrict)
    } else if is_word(spelling, b"unsigned".as_slice()) {
        Some(Keyword::Unsigned)
    } else if is_word(spelling, b"volatile".as_slice()) {
        Some(Keyword::Volatile)
    } else if is_word(spelling, b"_Alignas".as_slice()) {
        Some(Keyword::AlignAs)
    } else if is_word(spelling, b"_Alignof".as_slice()) {
        Some(Keyword::AlignOf)
    } else if is_word(spelling, b"_Complex".as_slice()) {
        Some(Keyword::Complex)
    } else if is_word(spelling, b"_Generic".as_slice()) {
        Some(Keyword::Generic)
    } else {
        None
    }
}

/// The keyword of more than eight bytes that this is.
fn of_more(spelling: &[u8]) -> Option<Keyword>
    ensures { MatchOption result ((k : Keyword) → 8 < length (keyword_text k) → spelling.now ≢ keyword_text k) (λ k. spelling.now ≡ keyword_text k) }
{
    if is_word(spelling, b"_Noreturn".as_slice()) {
        Some(Keyword::NoReturn)
    } else if is_word(spelling, b"_Imaginary".as_slice()) {
        Some(Keyword::Imaginary)
    } else if is_word(spelling, b"_Thread_local".as_slice()) {
        Some(Keyword::ThreadLocal)
    } else if is_word(spelling, b"_Static_assert".as_slice()) {
        Some(Keyword::StaticAssert)
    } else {
        None
    }
}

// Whether the word has this spelling. With comparisons in place, the calls above take three times as long to check.
fn is_word(spelling: &[u8], word: &[u8]) -> bool
    ensures { IsTrue result ↔ (spelling.now ≡ word.now) }
{
    spelling == word
}
