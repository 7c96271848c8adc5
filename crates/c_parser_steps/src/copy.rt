// What a token holds, for the tree.
#![tactic(auto, using(c_syntax_written::proofs::Trees::the_written_trees))]

ghost use Rattle.std.specs.Prelude.{◌≡◌, ◌++◌, IfOk};
ghost use Rattle.c_grammar.specs.Classes.{byte_of, bytes_of, constant_of, low_byte, name_of};

use c_syntax_written::{Constant, Name, Token, boxed};
use std::alloc::{AllocError, Global};

/// The name of a word.
pub fn name_of(alloc: Global, token: &Token) -> Result<Name, AllocError>
    ensures { IfOk result (λ n. n ≡ name_of token.now) }
{
    match token {
        Token::Word(name) => name.copy(),
        Token::Keyword(_)
        | Token::Number(_)
        | Token::Character(_)
        | Token::Text(_)
        | Token::Punctuator(_) => Ok(Name::new(alloc)),
    }
}

/// The name of a word, in a box.
pub fn boxed_name_of(alloc: Global, token: &Token) -> Result<Box<Name>, AllocError>
    ensures { IfOk result (λ n. n.value ≡ name_of token.now) }
{
    let name = name_of(alloc, token)?;
    boxed(alloc, name)
}

/// The constant of a number.
pub fn constant_of(token: &Token) -> Constant
    ensures { result ≡ constant_of token.now }
{
    match token {
        Token::Number(constant) => *constant,
        Token::Word(_)
        | Token::Keyword(_)
        | Token::Character(_)
        | Token::Text(_)
        | Token::Punctuator(_) => Constant {
            value: 0,
            decimal: false,
            unsigned: false,
            longs: 0,
        },
    }
}

/// The byte of a character constant.
pub fn byte_of(token: &Token) -> u8
    ensures { result ≡ byte_of token.now }
{
    match token {
        Token::Character(value) => low_byte(*value),
        Token::Word(_)
        | Token::Keyword(_)
        | Token::Number(_)
        | Token::Text(_)
        | Token::Punctuator(_) => 0,
    }
}

fn low_byte(value: i32) -> u8
    ensures { result ≡ low_byte value }
{
    if value >= 0 {
        (value % 256) as u8
    } else {
        255 - ((-(value + 1)) % 256) as u8
    }
}

/// More bytes behind those that are there: those of a string.
pub fn push_bytes(bytes: &mut Vec<u8>, token: &Token) -> Result<(), AllocError>
    ensures { IfOk result (λ _. bytes.new.items ≡ bytes.old.items ++ bytes_of token.now) }
{
    match token {
        Token::Text(more) => bytes.extend_from_slice(more.as_slice()),
        Token::Word(_)
        | Token::Keyword(_)
        | Token::Number(_)
        | Token::Character(_)
        | Token::Punctuator(_) => Ok(()),
    }
}

/// The bytes of a string.
pub fn bytes_of(alloc: Global, token: &Token) -> Result<Vec<u8>, AllocError>
    ensures { IfOk result (λ v. v.items ≡ bytes_of token.now) }
{
    let mut bytes = Vec::new(alloc);
    push_bytes(&mut bytes, token)?;
    Ok(bytes)
}
