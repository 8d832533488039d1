// What a program is made of: plain records that lie in the caller's memory.
ghost use Rattle.std.specs.Prelude.{◌≡◌, Some};
ghost use Rattle.syntax.specs.Records.{declared_as, ranged, kind_of};
ghost use Rattle.syntax.specs.Texts.{class_text, kind_text, constant_text, range_text};

use crate::operator::{Jump, Operator, Store};
use numbers::Int;
use std::fmt;

// A name, kept by its place and its length in the text: the records outlive the text.
#[derive(Clone, Copy)]
pub struct Name {
    pub place: usize,
    pub length: usize,
}

// Where a variable's value comes from or goes to.
#[derive(Clone, Copy, PartialEq, Eq, Debug)]
pub enum Class {
    Local,
    Input,
    Output,
}

#[derive(Clone, Copy, PartialEq, Eq, Debug)]
pub enum Kind {
    Bool,
    Int,
}

// A value that a text writes out: TRUE, FALSE or a number.
#[derive(Clone, Copy, PartialEq, Eq, Debug)]
pub enum Constant {
    Bool(bool),
    Int(Int),
}

// The numbers from low to high.
#[derive(Clone, Copy)]
pub struct Range {
    pub low: Int,
    pub high: Int,
}

// What a declaration says of a variable; its initial value is of its kind.
#[derive(Clone, Copy)]
pub struct Declaration {
    pub name: Name,
    pub class: Class,
    pub initial: Constant,
}

// A declared variable, and the range of its values where it is an INT input.
#[derive(Clone, Copy)]
pub struct Variable {
    declaration: Declaration,
    range: Range,
}

#[derive(Clone, Copy)]
pub enum Operand {
    Constant(Constant),
    Variable(usize),
}

// The label that a jump names, and the statement that it is.
#[derive(Clone, Copy)]
pub struct Target {
    pub name: Name,
    pub statement: usize,
}

#[derive(Clone, Copy)]
pub enum Operation {
    Return,
    Not,
    Label(Name),
    Apply(Operator, Operand),
    Store(Store, usize),
    Jump(Jump, Target),
}

// A statement, and where its first word stands.
#[derive(Clone, Copy)]
pub struct Statement {
    operation: Operation,
    place: usize,
}

impl Variable {
    pub const BLANK: Variable = Variable {
        declaration: Declaration {
            name: Name {
                place: 0,
                length: 0,
            },
            class: Class::Local,
            initial: Constant::Bool(false),
        },
        range: Range { low: 0, high: 0 },
    };

    // A variable as it is declared, with all of INT as its range.
    pub fn declared(declaration: Declaration) -> Variable
        ensures { result ≡ declared_as declaration }
    {
        Variable {
            declaration,
            range: Range {
                low: Int::MIN,
                high: Int::MAX,
            },
        }
    }

    pub fn declaration(&self) -> Declaration
        ensures { result ≡ self.now.declaration }
    {
        self.declaration
    }

    pub fn range(&self) -> Range
        ensures { result ≡ self.now.range }
    {
        self.range
    }

    // Gives the variable another range.
    pub fn set_range(&mut self, range: Range)
        ensures { self.new ≡ ranged self.old range }
    {
        self.range = range;
    }
}

impl Statement {
    pub const BLANK: Statement = Statement {
        operation: Operation::Return,
        place: 0,
    };

    pub fn new(operation: Operation, place: usize) -> Statement
        ensures { result ≡ record { operation = operation; place = place } }
    {
        Statement { operation, place }
    }

    pub fn operation(&self) -> Operation
        ensures { result ≡ self.now.operation }
    {
        self.operation
    }

    pub fn place(&self) -> usize
        ensures { result ≡ self.now.place }
    {
        self.place
    }
}

impl From<Constant> for Kind {
    ghost from_gives = { λ constant kind. kind ≡ kind_of constant };

    fn from(constant: Constant) -> Kind {
        match constant {
            Constant::Bool(_) => Kind::Bool,
            Constant::Int(_) => Kind::Int,
        }
    }
}

impl fmt::Display for Class {
    ghost output = { λ class. Some (class_text class) };

    fn fmt<W: fmt::Write>(&self, f: &mut fmt::Formatter<W>) -> fmt::Result {
        match self {
            Class::Local => f.write_str("local"),
            Class::Input => f.write_str("input"),
            Class::Output => f.write_str("output"),
        }
    }
}

impl fmt::Display for Kind {
    ghost output = { λ kind. Some (kind_text kind) };

    fn fmt<W: fmt::Write>(&self, f: &mut fmt::Formatter<W>) -> fmt::Result {
        match self {
            Kind::Bool => f.write_str("BOOL"),
            Kind::Int => f.write_str("INT"),
        }
    }
}

impl fmt::Display for Constant {
    ghost output = { λ constant. Some (constant_text constant) };

    fn fmt<W: fmt::Write>(&self, f: &mut fmt::Formatter<W>) -> fmt::Result {
        match self {
            Constant::Bool(true) => f.write_str("TRUE"),
            Constant::Bool(false) => f.write_str("FALSE"),
            Constant::Int(n) => write!(f, "{n}"),
        }
    }
}

impl fmt::Display for Range {
    ghost output = { λ range. Some (range_text range) };

    fn fmt<W: fmt::Write>(&self, f: &mut fmt::Formatter<W>) -> fmt::Result {
        let Range { low, high } = *self;
        write!(f, "{low}..{high}")
    }
}
