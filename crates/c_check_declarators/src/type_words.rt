// The types that lists of type words name.
#![tactic(auto)]

ghost use Rattle.std.specs.Prelude.{◌≡◌, count_by, find, nat_eq, option_map};
ghost use Rattle.std.specs.Cmp.Lexicographic.{pointwise};
ghost use Rattle.c_syntax.specs.Types.{ctype_tree};
ghost use Rattle.c_typing.specs.Specifiers as specifiers;
ghost use Rattle.c_check_declarators.specs.Counts.{counts_of, type_in};

use c_syntax::{CType, IntType, TypeWord};

/// A list of type words, by how often `void`, `char`, `short`, `int`, `long`, `signed` and `unsigned` stand in it, and
/// the integer type that it names; the one that names none is void.
#[derive(Clone, Copy)]
struct TypeList {
    counts: [usize; 7],
    ty: Option<IntType>,
}

const TYPE_LISTS: [TypeList; 27] = [
    TypeList {
        counts: [1, 0, 0, 0, 0, 0, 0],
        ty: None,
    },
    TypeList {
        counts: [0, 1, 0, 0, 0, 0, 0],
        ty: Some(IntType::Char),
    },
    TypeList {
        counts: [0, 1, 0, 0, 0, 1, 0],
        ty: Some(IntType::SChar),
    },
    TypeList {
        counts: [0, 1, 0, 0, 0, 0, 1],
        ty: Some(IntType::UChar),
    },
    TypeList {
        counts: [0, 0, 1, 0, 0, 0, 0],
        ty: Some(IntType::Short),
    },
    TypeList {
        counts: [0, 0, 1, 0, 0, 1, 0],
        ty: Some(IntType::Short),
    },
    TypeList {
        counts: [0, 0, 1, 1, 0, 0, 0],
        ty: Some(IntType::Short),
    },
    TypeList {
        counts: [0, 0, 1, 1, 0, 1, 0],
        ty: Some(IntType::Short),
    },
    TypeList {
        counts: [0, 0, 1, 0, 0, 0, 1],
        ty: Some(IntType::UShort),
    },
    TypeList {
        counts: [0, 0, 1, 1, 0, 0, 1],
        ty: Some(IntType::UShort),
    },
    TypeList {
        counts: [0, 0, 0, 1, 0, 0, 0],
        ty: Some(IntType::Int),
    },
    TypeList {
        counts: [0, 0, 0, 0, 0, 1, 0],
        ty: Some(IntType::Int),
    },
    TypeList {
        counts: [0, 0, 0, 1, 0, 1, 0],
        ty: Some(IntType::Int),
    },
    TypeList {
        counts: [0, 0, 0, 0, 0, 0, 1],
        ty: Some(IntType::UInt),
    },
    TypeList {
        counts: [0, 0, 0, 1, 0, 0, 1],
        ty: Some(IntType::UInt),
    },
    TypeList {
        counts: [0, 0, 0, 0, 1, 0, 0],
        ty: Some(IntType::Long),
    },
    TypeList {
        counts: [0, 0, 0, 0, 1, 1, 0],
        ty: Some(IntType::Long),
    },
    TypeList {
        counts: [0, 0, 0, 1, 1, 0, 0],
        ty: Some(IntType::Long),
    },
    TypeList {
        counts: [0, 0, 0, 1, 1, 1, 0],
        ty: Some(IntType::Long),
    },
    TypeList {
        counts: [0, 0, 0, 0, 1, 0, 1],
        ty: Some(IntType::ULong),
    },
    TypeList {
        counts: [0, 0, 0, 1, 1, 0, 1],
        ty: Some(IntType::ULong),
    },
    TypeList {
        counts: [0, 0, 0, 0, 2, 0, 0],
        ty: Some(IntType::LLong),
    },
    TypeList {
        counts: [0, 0, 0, 0, 2, 1, 0],
        ty: Some(IntType::LLong),
    },
    TypeList {
        counts: [0, 0, 0, 1, 2, 0, 0],
        ty: Some(IntType::LLong),
    },
    TypeList {
        counts: [0, 0, 0, 1, 2, 1, 0],
        ty: Some(IntType::LLong),
    },
    TypeList {
        counts: [0, 0, 0, 0, 2, 0, 1],
        ty: Some(IntType::ULLong),
    },
    TypeList {
        counts: [0, 0, 0, 1, 2, 0, 1],
        ty: Some(IntType::ULLong),
    },
];

/// The type that these words name in any order, if they are one of the lists of C11 6.7.2p2.
pub fn type_by_words(words: &[TypeWord]) -> Option<CType>
    ensures { option_map ctype_tree result ≡ specifiers.type_by_words words.now }
{
    let counts = counts_of(words);
    type_in(listed(&TYPE_LISTS, &counts))
}

// The type of a row, if there is one.
#[tactic(auto, using(c_syntax::proofs::Trees::the_trees))]
fn type_in(row: Option<Option<IntType>>) -> Option<CType>
    ensures { option_map ctype_tree result ≡ option_map type_in row }
{
    match row {
        None => None,
        Some(None) => Some(CType::Void),
        Some(Some(t)) => Some(CType::Int(t)),
    }
}

// What the first list names in which each word stands as often.
fn listed(lists: &[TypeList], counts: &[usize; 7]) -> Option<Option<IntType>>
    ensures { result ≡ option_map (λ list. list.ty) (find (λ list. pointwise nat_eq list.counts counts.now) lists.now) }
{
    'each: for list in lists {
        if are_same(&list.counts, counts) {
            return Some(list.ty);
        }
    }
    None
}

fn are_same(a: &[usize; 7], b: &[usize; 7]) -> bool
    ensures { result ≡ pointwise nat_eq a.now b.now }
{
    a == b
}

// How often each word stands among these.
fn counts_of(words: &[TypeWord]) -> [usize; 7]
    ensures { result ≡ counts_of words.now }
{
    [
        count_of(words, TypeWord::Void),
        count_of(words, TypeWord::Char),
        count_of(words, TypeWord::Short),
        count_of(words, TypeWord::Int),
        count_of(words, TypeWord::Long),
        count_of(words, TypeWord::Signed),
        count_of(words, TypeWord::Unsigned),
    ]
}

// How often this word stands among these.
fn count_of(words: &[TypeWord], word: TypeWord) -> usize
    ensures { result ≡ count_by (specifiers.is_word word) words.now }
{
    words.iter().filter(|other| is_word(word, **other)).count()
}

fn is_word(a: TypeWord, b: TypeWord) -> bool
    ensures { result ≡ specifiers.is_word a b }
{
    a == b
}
