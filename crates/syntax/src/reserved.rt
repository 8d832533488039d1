// The reserved words.
ghost use Rattle.std.specs.Prelude.{◌≡◌};
ghost use Rattle.syntax.specs.Tokens.{among, logic_words, arithmetic_words, control_words, declaration_words, reserved_words};

use crate::operator::{Command, Jump, Operator, Store};
use crate::record::{Class, Constant, Kind};
use crate::token::Token;

// The operators that load or work on truths.
fn logic(bytes: &[u8]) -> Option<Token>
    ensures { result ≡ among logic_words bytes.now }
{
    match bytes {
        b"LD" => Some(Token::Command(Command::Apply(Operator::Ld))),
        b"LDN" => Some(Token::Command(Command::Apply(Operator::Ldn))),
        b"AND" => Some(Token::Command(Command::Apply(Operator::And))),
        b"ANDN" => Some(Token::Command(Command::Apply(Operator::Andn))),
        b"OR" => Some(Token::Command(Command::Apply(Operator::Or))),
        b"ORN" => Some(Token::Command(Command::Apply(Operator::Orn))),
        b"XOR" => Some(Token::Command(Command::Apply(Operator::Xor))),
        b"XORN" => Some(Token::Command(Command::Apply(Operator::Xorn))),
        b"NOT" => Some(Token::Command(Command::Not)),
        _ => None,
    }
}

// The operators that calculate or compare.
fn arithmetic(bytes: &[u8]) -> Option<Token>
    ensures { result ≡ among arithmetic_words bytes.now }
{
    match bytes {
        b"ADD" => Some(Token::Command(Command::Apply(Operator::Add))),
        b"SUB" => Some(Token::Command(Command::Apply(Operator::Sub))),
        b"MUL" => Some(Token::Command(Command::Apply(Operator::Mul))),
        b"DIV" => Some(Token::Command(Command::Apply(Operator::Div))),
        b"GT" => Some(Token::Command(Command::Apply(Operator::Gt))),
        b"GE" => Some(Token::Command(Command::Apply(Operator::Ge))),
        b"LT" => Some(Token::Command(Command::Apply(Operator::Lt))),
        b"LE" => Some(Token::Command(Command::Apply(Operator::Le))),
        b"EQ" => Some(Token::Command(Command::Apply(Operator::Eq))),
        b"NE" => Some(Token::Command(Command::Apply(Operator::Ne))),
        _ => None,
    }
}

// The operators that store, jump or return.
fn control(bytes: &[u8]) -> Option<Token>
    ensures { result ≡ among control_words bytes.now }
{
    match bytes {
        b"ST" => Some(Token::Command(Command::Store(Store::St))),
        b"STN" => Some(Token::Command(Command::Store(Store::Stn))),
        b"S" => Some(Token::Command(Command::Store(Store::Set))),
        b"R" => Some(Token::Command(Command::Store(Store::Reset))),
        b"JMP" => Some(Token::Command(Command::Jump(Jump::Jmp))),
        b"JMPC" => Some(Token::Command(Command::Jump(Jump::Jmpc))),
        b"JMPCN" => Some(Token::Command(Command::Jump(Jump::Jmpcn))),
        b"RET" => Some(Token::Command(Command::Ret)),
        _ => None,
    }
}

// The words of declarations.
fn declaration(bytes: &[u8]) -> Option<Token>
    ensures { result ≡ among declaration_words bytes.now }
{
    match bytes {
        b"VAR_INPUT" => Some(Token::Block(Class::Input)),
        b"VAR_OUTPUT" => Some(Token::Block(Class::Output)),
        b"VAR" => Some(Token::Block(Class::Local)),
        b"END_VAR" => Some(Token::EndBlock),
        b"INT" => Some(Token::Kind(Kind::Int)),
        b"BOOL" => Some(Token::Kind(Kind::Bool)),
        b"TRUE" => Some(Token::Constant(Constant::Bool(true))),
        b"FALSE" => Some(Token::Constant(Constant::Bool(false))),
        _ => None,
    }
}

// What a reserved word is to the grammar; none for any other name.
pub fn reserved(bytes: &[u8]) -> Option<Token>
    ensures { result ≡ among reserved_words bytes.now }
{
    logic(bytes)
        .or_else(|| arithmetic(bytes))
        .or_else(|| control(bytes))
        .or_else(|| declaration(bytes))
}
