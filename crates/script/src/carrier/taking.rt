// The words of a script, carried out as they are read.
ghost use Rattle.std.specs.Prelude.{◌≡◌, length};
ghost use Rattle.controller.specs.Machine.{code_of};
ghost use Rattle.words.specs.Words.{seen};
ghost use Rattle.script.specs.declared.pending.Pending.TheVariants.{Ranges};
ghost use Rattle.script.specs.Words.{act_on};
ghost use Rattle.script.specs.Script.{flow_of, script_refusal};
ghost use Rattle.script.specs.Course.{acted, course_from, course_of, Stays};
ghost use Rattle.script.specs.Endings.{Took, Ended};

use super::Carrier;
use crate::fault::{Ending, ScriptFault};
use crate::pending::{Act, Pending, act_on, pending_after};
use domain::Domain;
use words::{Reader, Word};

impl<D: Domain> Carrier<'_, D> {
    // One word more, and what the numbers behind it belong to.
    fn take_word(&mut self, pending: Pending, place: usize, word: Word) -> Result<Pending, Ending>
        ensures took { Took result (flow_of pending place (seen word.entry)) (course_of self.new) (acted D.ops (code_of self.old.controller) self.old.cells.now pending (act_on pending (seen word.entry)) (course_of self.old)) }
        ensures stays { Stays self.old self.new }
    {
        match act_on(pending, word).ok_or(ScriptFault::Misfit(place))? {
            Act::Pass => Ok(pending),
            Act::Number(number) => {
                self.numbers.push(number as i32)?;
                Ok(pending)
            }
            Act::Call(order) => {
                self.finish(pending)?;
                self.carry_out(order)?;
                Ok(pending_after(order))
            }
            Act::Unknown => {
                self.finish(pending)?;
                Err(Ending::Refused(ScriptFault::Misfit(place)))
            }
        }
    }

    // The words of a script in their order; each has a byte at least.
    pub(crate) fn take_words(&mut self, text: &[u8]) -> Result<(), Ending>
        ensures { Ended result (script_refusal text.now) (course_of self.new) (course_from D.ops (code_of self.old.controller) self.old.cells.now (length text.now) text.now 0 Ranges (course_of self.old)) }
    {
        let mut pending = Pending::Ranges;
        let mut reader = Reader::new(text);
        for _word in 0..text.len() {
            let Some((place, word)) = reader.next_word()? else {
                break;
            };
            pending = self.take_word(pending, place, word)?;
        }
        self.finish(pending)?;
        Ok(())
    }
}
