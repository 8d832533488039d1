// The grammar: which words may come where, and what each does.
ghost use Rattle.std.specs.Prelude.{◌≡◌};
ghost use Rattle.syntax.specs.Records.{unwritten};
ghost use Rattle.syntax.specs.Grammar.{between_blocks, in_block, after_name, at_kind, after_kind, at_initial, after_initial, in_body, after_label, at_value, at_storage, at_target, followed, may_end};

use crate::operator::{Command, Jump, Operator, Store};
use crate::record::{Class, Constant, Declaration, Kind, Name};
use crate::token::{Sign, Token};

// How far a text has come.
#[derive(Clone, Copy)]
pub enum Stage {
    // between blocks, before the first statement
    Blocks,
    // in a block, before a declaration or END_VAR
    Block(Class),
    // after the name of a variable
    VariableColon(Class, Name),
    // before its kind
    Kind(Class, Name),
    // after its kind, where `:=` or `;` may come
    AfterKind(Declaration),
    // after `:=`, before the initial value
    Initial(Declaration),
    // after the initial value
    Semicolon(Declaration),
    // before a statement, once there is one
    Body,
    // after the name of a label
    LabelColon,
    // after an operator that takes a variable or a constant, and stands at a place
    Value(Operator, usize),
    // after an operator that takes a variable
    Storage(Store, usize),
    // after an operator that takes a label
    Destination(Jump, usize),
}

// What a word does where it fits.
#[derive(Clone, Copy)]
pub enum Step {
    // nothing is to be recorded yet
    Enter(Stage),
    // it names a new variable
    Declare(Class),
    // it ends a declaration
    Keep(Declaration),
    // it is an operator, which begins a statement
    Begin(Command),
    // it names a new label, which is a statement
    Label,
    // it is the constant that completes the statement that began at a place
    Complete(Operator, Constant, usize),
    // it names the variable that completes such a statement
    Use(Operator, usize),
    Change(Store, usize),
    // it names the label that completes such a statement
    Aim(Jump, usize),
}

fn between_blocks(token: Token) -> Option<Step>
    ensures { result ≡ between_blocks token }
{
    match token {
        Token::Block(class) => Some(Step::Enter(Stage::Block(class))),
        _ => in_body(token),
    }
}

fn in_block(class: Class, token: Token) -> Option<Step>
    ensures { result ≡ in_block class token }
{
    match token {
        Token::Name => Some(Step::Declare(class)),
        Token::EndBlock => Some(Step::Enter(Stage::Blocks)),
        _ => None,
    }
}

fn after_name(class: Class, name: Name, token: Token) -> Option<Step>
    ensures { result ≡ after_name class name token }
{
    match token {
        Token::Sign(Sign::Colon) => Some(Step::Enter(Stage::Kind(class, name))),
        _ => None,
    }
}

fn at_kind(class: Class, name: Name, token: Token) -> Option<Step>
    ensures { result ≡ at_kind class name token }
{
    match token {
        Token::Kind(kind) => {
            let initial = unwritten_value(kind);
            Some(Step::Enter(Stage::AfterKind(Declaration {
                name,
                class,
                initial,
            })))
        }
        _ => None,
    }
}

// The initial value of a variable whose declaration writes none.
fn unwritten_value(kind: Kind) -> Constant
    ensures { result ≡ unwritten kind }
{
    match kind {
        Kind::Bool => Constant::Bool(false),
        Kind::Int => Constant::Int(0),
    }
}

fn after_kind(declaration: Declaration, token: Token) -> Option<Step>
    ensures { result ≡ after_kind declaration token }
{
    match token {
        Token::Sign(Sign::Assign) => Some(Step::Enter(Stage::Initial(declaration))),
        _ => after_initial(declaration, token),
    }
}

fn at_initial(declaration: Declaration, token: Token) -> Option<Step>
    ensures { result ≡ at_initial declaration token }
{
    match (declaration.initial, token) {
        (Constant::Bool(_), Token::Constant(initial @ Constant::Bool(_)))
        | (Constant::Int(_), Token::Constant(initial @ Constant::Int(_))) => {
            Some(Step::Enter(Stage::Semicolon(Declaration {
                initial,
                ..declaration
            })))
        }
        _ => None,
    }
}

fn after_initial(declaration: Declaration, token: Token) -> Option<Step>
    ensures { result ≡ after_initial declaration token }
{
    match token {
        Token::Sign(Sign::Semicolon) => Some(Step::Keep(declaration)),
        _ => None,
    }
}

fn in_body(token: Token) -> Option<Step>
    ensures { result ≡ in_body token }
{
    match token {
        Token::Command(command) => Some(Step::Begin(command)),
        Token::Name => Some(Step::Label),
        _ => None,
    }
}

fn after_label(token: Token) -> Option<Step>
    ensures { result ≡ after_label token }
{
    match token {
        Token::Sign(Sign::Colon) => Some(Step::Enter(Stage::Body)),
        _ => None,
    }
}

fn at_value(operator: Operator, place: usize, token: Token) -> Option<Step>
    ensures { result ≡ at_value operator place token }
{
    match token {
        Token::Constant(constant) => Some(Step::Complete(operator, constant, place)),
        Token::Name => Some(Step::Use(operator, place)),
        _ => None,
    }
}

fn at_storage(store: Store, place: usize, token: Token) -> Option<Step>
    ensures { result ≡ at_storage store place token }
{
    match token {
        Token::Name => Some(Step::Change(store, place)),
        _ => None,
    }
}

fn at_target(jump: Jump, place: usize, token: Token) -> Option<Step>
    ensures { result ≡ at_target jump place token }
{
    match token {
        Token::Name => Some(Step::Aim(jump, place)),
        _ => None,
    }
}

impl Stage {
    // What a word does here; none where it does not fit.
    pub fn follow(self, token: Token) -> Option<Step>
        ensures { result ≡ followed self token }
    {
        match self {
            Stage::Blocks => between_blocks(token),
            Stage::Block(class) => in_block(class, token),
            Stage::VariableColon(class, name) => after_name(class, name, token),
            Stage::Kind(class, name) => at_kind(class, name, token),
            Stage::AfterKind(declaration) => after_kind(declaration, token),
            Stage::Initial(declaration) => at_initial(declaration, token),
            Stage::Semicolon(declaration) => after_initial(declaration, token),
            Stage::Body => in_body(token),
            Stage::LabelColon => after_label(token),
            Stage::Value(operator, place) => at_value(operator, place, token),
            Stage::Storage(store, place) => at_storage(store, place, token),
            Stage::Destination(jump, place) => at_target(jump, place, token),
        }
    }

    // Whether the text may end here.
    pub fn may_end(self) -> bool
        ensures { result ≡ may_end self }
    {
        matches!(self, Stage::Blocks | Stage::Body)
    }
}
