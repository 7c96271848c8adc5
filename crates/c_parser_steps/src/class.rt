// Whether a token is of a class.

ghost use Rattle.std.specs.Prelude.{◌≡◌, ◌↔◌, IsTrue};
ghost use Rattle.c_grammar.specs.Classes.{Fits};
ghost use Rattle.c_parser_steps.specs.Views.{scene_of};

use crate::context::Context;
use c_grammar::Class;
use c_syntax_written::Token;

/// Whether the token is of the class.
pub fn fits(context: &Context<'_>, class: Class, token: &Token) -> bool
    ensures { IsTrue result ↔ Fits (scene_of context.now) class token.now }
{
    match class {
        Class::Keyword(wanted) => matches!(token, Token::Keyword(found) if *found == wanted),
        Class::Sign(wanted) => matches!(token, Token::Punctuator(found) if *found == wanted),
        Class::Word => matches!(token, Token::Word(name) if !context.names_type(name.as_slice())),
        Class::AnyWord => matches!(token, Token::Word(_)),
        Class::TypeName =>
            matches!(token, Token::Word(name) if context.names_type(name.as_slice())),
        Class::Number => matches!(token, Token::Number(_)),
        Class::Character => matches!(token, Token::Character(_)),
        Class::Text => matches!(token, Token::Text(_)),
    }
}
