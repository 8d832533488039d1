// How operators are spelled: as text and not by Display, since `word_of` promises that it reads back.
ghost use Rattle.std.specs.Prelude.{◌≡◌, Some};
ghost use Rattle.syntax.specs.declared.operator.Command.TheVariants.{Apply, Store as Storing, Jump as Jumping};
ghost use Rattle.syntax.specs.declared.token.Token.TheVariants.{Command as CommandToken};
ghost use Rattle.syntax.specs.Tokens.{among, reserved_words};
ghost use Rattle.commands.specs.Spelling.{operator_spelling, store_spelling, jump_spelling, spelling};

use syntax::operator::{Command, Jump, Operator, Store};

fn operator_word(operator: Operator) -> &'static str
    ensures { result.now ≡ operator_spelling operator }
{
    match operator {
        Operator::Ld => "LD",
        Operator::Ldn => "LDN",
        Operator::And => "AND",
        Operator::Andn => "ANDN",
        Operator::Or => "OR",
        Operator::Orn => "ORN",
        Operator::Xor => "XOR",
        Operator::Xorn => "XORN",
        Operator::Add => "ADD",
        Operator::Sub => "SUB",
        Operator::Mul => "MUL",
        Operator::Div => "DIV",
        Operator::Gt => "GT",
        Operator::Ge => "GE",
        Operator::Lt => "LT",
        Operator::Le => "LE",
        Operator::Eq => "EQ",
        Operator::Ne => "NE",
    }
}

fn store_word(store: Store) -> &'static str
    ensures { result.now ≡ store_spelling store }
{
    match store {
        Store::St => "ST",
        Store::Stn => "STN",
        Store::Set => "S",
        Store::Reset => "R",
    }
}

fn jump_word(jump: Jump) -> &'static str
    ensures { result.now ≡ jump_spelling jump }
{
    match jump {
        Jump::Jmp => "JMP",
        Jump::Jmpc => "JMPC",
        Jump::Jmpcn => "JMPCN",
    }
}

// The reserved word of an operator: read again, it is that operator.
pub fn word_of(command: Command) -> &'static str
    ensures is { result.now ≡ spelling command }
    ensures reads_back { among reserved_words result.now ≡ Some (CommandToken command) }
{
    match command {
        Command::Ret => "RET",
        Command::Not => "NOT",
        Command::Apply(operator) => operator_word(operator),
        Command::Store(store) => store_word(store),
        Command::Jump(jump) => jump_word(jump),
    }
}
