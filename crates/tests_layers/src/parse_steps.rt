// What is said of one token.
#![tactic(auto, using(c_syntax_written::proofs::Trees::the_written_trees))]

use c_grammar::{Class, Setting};
use c_parser_steps::{Context, Fault, Lookahead, TypeNames, comes, refused, taken};
use c_syntax_written::{Placed, Pos, Punctuator, Token};

fn reason(fault: &Fault<'_>) -> &'static str {
    match fault {
        Fault::NoMemory => "no memory",
        Fault::Syntax(_) => "syntax",
        Fault::Unsupported(..) => "unsupported",
        Fault::TooDeep(_) => "too deep",
    }
}

// What becomes of the first token where this sign must come, and begins one form.
fn told(context: &Context<'_>, count: u32, wanted: Punctuator, tokens: &[Placed]) -> &'static str {
    match taken(context, count, 1, Class::Sign(wanted), tokens) {
        Ok(_) => "taken",
        Err(fault) => reason(&fault),
    }
}

// As many forms are unfinished; the sign that comes, and the one that must come.
static SIGNS: [(u32, Punctuator, Punctuator, &str); 7] = [
    (0, Punctuator::Semicolon, Punctuator::Semicolon, "taken"),
    (199, Punctuator::LeftBrace, Punctuator::LeftBrace, "taken"),
    (
        200,
        Punctuator::Semicolon,
        Punctuator::Semicolon,
        "too deep",
    ),
    (199, Punctuator::LeftBrace, Punctuator::Semicolon, "syntax"),
    (
        200,
        Punctuator::LeftBrace,
        Punctuator::Semicolon,
        "too deep",
    ),
    (200, Punctuator::RightBrace, Punctuator::Semicolon, "syntax"),
    (0, Punctuator::Ellipsis, Punctuator::Comma, "unsupported"),
];

fn one_sign(found: Punctuator) -> [Placed; 1] {
    [Placed {
        pos: Pos {
            file: 0,
            line: 1,
            col: 1,
        },
        token: Token::Punctuator(found),
    }]
}

#[test]
fn signs(rt: HostRuntime) {
    let types = TypeNames::new(rt.alloc());
    let context = Context {
        alloc: rt.alloc(),
        types: &types,
        setting: Setting::InBlock,
    };
    for (count, found, wanted, answer) in &SIGNS {
        let tokens = one_sign(*found);
        assert_eq!(rt; told(&context, *count, *wanted, &tokens), *answer);
        let is_brace = *found == Punctuator::LeftBrace;
        assert!(rt; comes(Lookahead::Brace, &tokens) == is_brace);
    }
    assert_eq!(rt; reason(&refused(&context, 0, &[])), "syntax");
}
