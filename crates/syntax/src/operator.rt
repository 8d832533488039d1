// The operators of Instruction List, by what they take.

// Those that take a variable or a constant.
#[derive(Clone, Copy, PartialEq, Eq, Debug)]
pub enum Operator {
    Ld,
    Ldn,
    And,
    Andn,
    Or,
    Orn,
    Xor,
    Xorn,
    Add,
    Sub,
    Mul,
    Div,
    Gt,
    Ge,
    Lt,
    Le,
    Eq,
    Ne,
}

// Those that take a variable and may change it.
#[derive(Clone, Copy, PartialEq, Eq, Debug)]
pub enum Store {
    St,
    Stn,
    Set,
    Reset,
}

// Those that take a label.
#[derive(Clone, Copy, PartialEq, Eq, Debug)]
pub enum Jump {
    Jmp,
    Jmpc,
    Jmpcn,
}

// Any of them, as a statement begins with it; RET and NOT take nothing.
#[derive(Clone, Copy, PartialEq, Eq, Debug)]
pub enum Command {
    Ret,
    Not,
    Apply(Operator),
    Store(Store),
    Jump(Jump),
}
