// What each word that fits does to a program in the making.
ghost use Rattle.std.specs.Prelude.{◌≡◌, ◌<◌, length, IfOk, Ok};
ghost use Rattle.syntax.specs.Records.{declared_as};
ghost use Rattle.reading.specs.Drafts.{declared_in, statements_in, is_known, if_variable_fits, if_statement_fits, if_new, with_variable, with_statement, begun_with, completed, entered, variable_at, applied};
ghost use Rattle.reading.specs.Lent.{draft, Becomes};

use super::{Draft, Progress};
use crate::fault::{ProgramFault, StatementFault};
use crate::names::find;
use syntax::grammar::{Stage, Step};
use syntax::operator::Command;
use syntax::record::{Class, Declaration, Name, Operand, Operation, Statement, Target, Variable};

const MOST_VARIABLES: usize = 64;

const MOST_STATEMENTS: usize = 1024;

impl<'t, 'r> Draft<'t, 'r> {
    fn declared(&self) -> &[Variable]
        ensures { result.now ≡ declared_in (draft self.now) }
    {
        &self.variables[..self.progress.variables]
    }

    fn written(&self) -> &[Statement]
        ensures { result.now ≡ statements_in (draft self.now) }
    {
        &self.statements[..self.progress.statements]
    }

    // The variable that an operand names.
    fn variable(&self, name: Name) -> Result<usize, StatementFault>
        ensures { result ≡ variable_at self.now.text.now (declared_in (draft self.now)) name }
    {
        find(self.text, self.declared(), name).ok_or(StatementFault::NoVariable(name.place))
    }

    // Whether a variable or a label has the name.
    fn is_known(&self, name: Name) -> bool
        ensures { result ≡ is_known self.now.text.now (draft self.now) name }
    {
        find(self.text, self.declared(), name).is_some()
            || find(self.text, self.written(), name).is_some()
    }

    // A declared name is known to nothing else.
    fn want_new(&self, name: Name) -> Result<(), ProgramFault>
        ensures { result ≡ if_new self.now.text.now (draft self.now) name (Ok tt) }
    {
        if self.is_known(name) {
            Err(ProgramFault::Redeclared(name.place))
        } else {
            Ok(())
        }
    }

    // There is a place for one variable more.
    fn want_variable_place(&self, place: usize) -> Result<(), ProgramFault>
        ensures is { result ≡ if_variable_fits (draft self.now) place tt }
        ensures within { IfOk result (λ _. self.now.progress.variables < length self.now.variables.now) }
    {
        if self.progress.variables < self.variables.len().min(MOST_VARIABLES) {
            Ok(())
        } else {
            Err(ProgramFault::VariablesFull(place))
        }
    }

    // There is a place for one statement more; apart from the one above, since slice, count, most and fault all differ.
    fn want_statement_place(&self, place: usize) -> Result<(), ProgramFault>
        ensures is { result ≡ if_statement_fits (draft self.now) place tt }
        ensures within { IfOk result (λ _. self.now.progress.statements < length self.now.statements.now) }
    {
        if self.progress.statements < self.statements.len().min(MOST_STATEMENTS) {
            Ok(())
        } else {
            Err(ProgramFault::StatementsFull(place))
        }
    }

    fn enter(&mut self, stage: Stage)
        ensures { Becomes (Ok (entered (draft self.old) stage)) (Ok tt) self.old self.new }
    {
        self.progress = Progress {
            stage,
            ..self.progress
        };
    }

    // Records one variable more, if there is a place for it.
    fn keep_variable(&mut self, declaration: Declaration) -> Result<(), ProgramFault>
        ensures { Becomes (if_variable_fits (draft self.old) declaration.name.place (with_variable (draft self.old) (declared_as declaration) (Stage.Block declaration.class))) result self.old self.new }
    {
        self.want_variable_place(declaration.name.place)?;
        let next = self.progress.variables;
        self.variables[next] = Variable::declared(declaration);
        self.progress = Progress {
            stage: Stage::Block(declaration.class),
            variables: next + 1,
            ..self.progress
        };
        Ok(())
    }

    // Records one statement more, if there is a place for it.
    fn keep_statement(
        &mut self,
        operation: Operation,
        place: usize,
        stage: Stage,
    ) -> Result<(), ProgramFault>
        ensures { Becomes (if_statement_fits (draft self.old) place (with_statement (draft self.old) (record { operation = operation; place = place }) stage)) result self.old self.new }
    {
        self.want_statement_place(place)?;
        let next = self.progress.statements;
        self.statements[next] = Statement::new(operation, place);
        self.progress = Progress {
            stage,
            statements: next + 1,
            ..self.progress
        };
        Ok(())
    }

    // Goes on with a statement that is to come, if there is a place for it.
    fn open_statement(&mut self, place: usize, stage: Stage) -> Result<(), ProgramFault>
        ensures { Becomes (if_statement_fits (draft self.old) place (entered (draft self.old) stage)) result self.old self.new }
    {
        self.want_statement_place(place)?;
        self.enter(stage);
        Ok(())
    }

    // An operator begins a statement; RET and NOT are whole already.
    fn begin(&mut self, place: usize, command: Command) -> Result<(), ProgramFault>
        ensures { Becomes (if_statement_fits (draft self.old) place (begun_with (draft self.old) place command)) result self.old self.new }
    {
        match command {
            Command::Ret => self.keep_statement(Operation::Return, place, Stage::Body),
            Command::Not => self.keep_statement(Operation::Not, place, Stage::Body),
            Command::Apply(operator) => self.open_statement(place, Stage::Value(operator, place)),
            Command::Store(store) => self.open_statement(place, Stage::Storage(store, place)),
            Command::Jump(jump) => self.open_statement(place, Stage::Destination(jump, place)),
        }
    }

    // A statement that began at a place is whole.
    fn complete(&mut self, operation: Operation, place: usize) -> Result<(), ProgramFault>
        ensures { Becomes (completed (draft self.old) operation place) result self.old self.new }
    {
        self.keep_statement(operation, place, Stage::Body)
    }

    // A new variable's name.
    fn declare(&mut self, class: Class, name: Name) -> Result<(), ProgramFault>
        ensures { Becomes (applied self.old.text.now (draft self.old) name (Step.Declare class)) result self.old self.new }
    {
        self.want_new(name)?;
        self.want_variable_place(name.place)?;
        self.enter(Stage::VariableColon(class, name));
        Ok(())
    }

    // A new label's name, which is a statement.
    fn label(&mut self, name: Name) -> Result<(), ProgramFault>
        ensures { Becomes (applied self.old.text.now (draft self.old) name Step.Label) result self.old self.new }
    {
        self.want_new(name)?;
        self.keep_statement(Operation::Label(name), name.place, Stage::LabelColon)
    }

    // What a word that fits does; a refusal records nothing.
    pub(crate) fn apply(&mut self, name: Name, step: Step) -> Result<(), ProgramFault>
        ensures { Becomes (applied self.old.text.now (draft self.old) name step) result self.old self.new }
    {
        match step {
            Step::Enter(stage) => {
                self.enter(stage);
                Ok(())
            }
            Step::Declare(class) => self.declare(class, name),
            Step::Keep(declaration) => self.keep_variable(declaration),
            Step::Begin(command) => self.begin(name.place, command),
            Step::Label => self.label(name),
            Step::Complete(operator, constant, place) => {
                self.complete(
                    Operation::Apply(operator, Operand::Constant(constant)),
                    place,
                )
            }
            Step::Use(operator, place) => {
                let index = self.variable(name)?;
                self.complete(Operation::Apply(operator, Operand::Variable(index)), place)
            }
            Step::Change(store, place) => {
                let index = self.variable(name)?;
                self.complete(Operation::Store(store, index), place)
            }
            Step::Aim(jump, place) => {
                let target = Target { name, statement: 0 };
                self.complete(Operation::Jump(jump, target), place)
            }
        }
    }
}
