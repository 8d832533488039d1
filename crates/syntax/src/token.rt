// A word, as the grammar sees it.
ghost use Rattle.std.specs.Prelude.{◌≡◌};
ghost use Rattle.words.specs.Words.{seen};
ghost use Rattle.syntax.specs.Tokens.{token_of};

use crate::operator::Command;
use crate::record::{Class, Constant, Kind};
use crate::reserved::reserved;
use words::Word;

#[derive(Clone, Copy, PartialEq, Eq, Debug)]
pub enum Sign {
    Colon,
    Semicolon,
    Assign,
}

#[derive(Clone, Copy)]
pub enum Token {
    // a name that is not reserved
    Name,
    Constant(Constant),
    Sign(Sign),
    // VAR_INPUT, VAR_OUTPUT or VAR
    Block(Class),
    // END_VAR
    EndBlock,
    // INT or BOOL
    Kind(Kind),
    // an operator
    Command(Command),
}

// What a word is to the grammar.
pub fn classify(word: Word) -> Token
    ensures { result ≡ token_of (seen word.entry) }
{
    match word {
        Word::Name(bytes) => reserved(bytes).unwrap_or(Token::Name),
        Word::Number(bytes) => Token::Constant(Constant::Int(numbers::value(bytes).unwrap_or(0))),
        Word::Colon => Token::Sign(Sign::Colon),
        Word::Semicolon => Token::Sign(Sign::Semicolon),
        Word::Assign => Token::Sign(Sign::Assign),
    }
}
