// Where the directives of a task come from, and where its answers go.
ghost use Rattle.std.specs.Prelude.{◌≡◌, IfOk};
ghost use Rattle.std.specs.Result.{result_ok};

use crate::draw_lines::states_lines;
use crate::drawable::Drawable;
use crate::input::Lines;
use crate::print::{move_lines, refused_line};
use crate::progress::Progress;
use crate::trace::Trace;
use crate::trouble::Trouble;
use batch::ends::Ends;
use batch::setting::Setting;
use refusal::Cause;
use sources::source::Source;
use std::io::{Read, Write};

#[derive(Drop)]
pub(crate) struct Console<'r, 'l, 'o, R: Drop, W> {
    pub rt: &'r HostRuntime,
    pub lines: &'l mut Lines<R>,
    pub out: &'o mut W,
    pub progress: Progress,
}

impl<R: Read + Drop, W: Write> Console<'_, '_, '_, R, W> {
    pub fn say(&mut self, text: String) -> Result<(), Trouble> {
        Ok(self.out.write_all(text.as_bytes())?)
    }

    // What was asked for, or none where it was refused, and that has been said. Want of memory, which has no line, ends
    // the task.
    pub fn granted<T, C: Cause + Drop>(&mut self, asked: Result<T, C>) -> Result<Option<T>, Trouble>
        ensures { IfOk result (λ o. o ≡ result_ok asked) }
    {
        match asked {
            Ok(value) => Ok(Some(value)),
            Err(cause) => {
                let line = refused_line(self.rt.alloc(), &cause)?.ok_or(Trouble::Memory)?;
                self.say(line)?;
                Ok(None)
            }
        }
    }

    // Prints every move of a trace, and the state after it.
    pub fn say_moves<K: Drawable, S: Source>(
        &mut self,
        setting: &Setting<K, S>,
        back: u64,
    ) -> Result<(), Trouble> {
        let heap = self.rt.alloc();
        let begun = Trace::new(heap, setting, back);
        let Some(mut trace) = self.granted(begun)? else {
            return Ok(());
        };
        while let Some(Some(step)) = self.granted(trace.next_move(setting))? {
            let lines = move_lines(heap, setting.rule, step, trace.state());
            let Some(lines) = self.granted(lines)? else {
                return Ok(());
            };
            self.say(lines)?;
        }
        Ok(())
    }

    pub fn say_states<K: Drawable>(&mut self, rule: &K, ends: &Ends<K>) -> Result<(), Trouble> {
        match self.granted(states_lines(self.rt.alloc(), rule, ends))? {
            Some(lines) => self.say(lines),
            None => Ok(()),
        }
    }
}
