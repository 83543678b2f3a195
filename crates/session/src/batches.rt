// Carries out a task from its stretch on. A draw may not be let go, so each step takes the stage and gives it back, also
// where something went wrong; and at the end its draw is closed or given up.
ghost use Rattle.std.specs.Prelude.{◌≡◌, Ok, IsErrAnd, MatchResult};

use crate::answered::{Answered, carry_out};
use crate::console::Console;
use crate::draw_lines::{batch_line, end_lines, tally_line};
use crate::drawable::Drawable;
use crate::requests::{Draws, requested};
use crate::stage::Stage as TaskStage;
use crate::trouble::Trouble;
use batch::draws::{Batch, Tally};
use batch::ends::Ends;
use batch::setting::Setting;
use batch::stage::{Reply, Request, Stage};
use lattice::fault::StateFault;
use lattice::kind::Kind;
use sources::source::Source;
use std::io::{Read, Write};
use task::line::Directive;

// What a task works on once it has a source.
#[derive(Drop)]
pub(crate) struct Work<'a, K: Kind, S: Source> {
    pub setting: Setting<'a, K, S>,
    pub ends: Ends<K>,
}

// What went wrong, and the stage in which it did.
struct Halted {
    stage: Stage,
    trouble: Trouble,
}

// Halts in the stage if the step went wrong.
fn halting<T>(stage: Stage, step: Result<T, Trouble>) -> Result<(Stage, T), Halted>
    ensures { MatchResult step (λ x. result ≡ Ok (stage, x)) (λ e. IsErrAnd result (λ h. (h.stage ≡ stage) × (h.trouble ≡ e))) }
{
    match step {
        Ok(made) => Ok((stage, made)),
        Err(trouble) => Err(Halted { stage, trouble }),
    }
}

impl<R: Read + Drop, W: Write> Console<'_, '_, '_, R, W> {
    // From the stretch on, until the end of the task.
    pub(crate) fn after_stretch<K: Drawable, S: Source>(
        &mut self,
        work: &mut Work<K, S>,
        stretch: u64,
    ) -> Result<(), Trouble> {
        let Some(batch) = self.granted(Batch::new(stretch))? else {
            return Ok(());
        };
        match self.from_batch(work, batch) {
            Ok(stage) => self.say_end(stage),
            Err(halted) => {
                let Halted { stage, trouble } = halted;
                let _ = self.say_end(stage);
                Err(trouble)
            }
        }
    }

    fn say_batch(&mut self, batch: &Batch) -> Result<(), Trouble> {
        self.say(batch_line(self.rt.alloc(), batch)?)
    }

    fn say_tally(&mut self, tally: Tally) -> Result<(), Trouble> {
        self.say(tally_line(self.rt.alloc(), tally)?)
    }

    fn say_end(&mut self, stage: Stage) -> Result<(), Trouble> {
        self.say(end_lines(self.rt.alloc(), stage)?)
    }

    // Carries out directives until the text ends, or one cannot be carried out.
    fn from_batch<K: Drawable, S: Source>(
        &mut self,
        work: &mut Work<K, S>,
        batch: Batch,
    ) -> Result<Stage, Halted> {
        let said = self.say_batch(&batch);
        let (mut stage, ()) = halting(Stage::Idle(batch), said)?;
        for _ in 0..u64::MAX {
            let next = self.lines.next_allowed(TaskStage::from(&stage));
            let (held, next) = halting(stage, next)?;
            let Some(directive) = next else {
                return Ok(held);
            };
            stage = self.directed(work, held, directive)?;
        }
        Ok(stage)
    }

    fn directed<K: Drawable, S: Source>(
        &mut self,
        work: &mut Work<K, S>,
        stage: Stage,
        directive: Directive,
    ) -> Result<Stage, Halted> {
        let said = match directive {
            Directive::Draws(count) => {
                let drawn = self.make_draws(work, stage, count);
                self.progress.end(self.rt);
                return drawn;
            }
            Directive::Trace(back) => self.say_moves(&work.setting, back),
            Directive::States => self.say_states(work.setting.rule, &work.ends),
            Directive::Tally => self.say_tally(stage.tally()),
            _ => match requested(&directive) {
                Some(request) => {
                    let (stage, _) = self.ask(work, stage, request)?;
                    return Ok(stage);
                }
                None => Err(Trouble::Misplaced),
            },
        };
        let (stage, ()) = halting(stage, said)?;
        Ok(stage)
    }

    // Carries out the requests of a directive `draws`.
    fn make_draws<K: Drawable, S: Source>(
        &mut self,
        work: &mut Work<K, S>,
        mut stage: Stage,
        count: u64,
    ) -> Result<Stage, Halted> {
        let mut draws = Draws::new(count);
        while let Some(request) = draws.request() {
            let (next, reply) = self.ask(work, stage, request)?;
            stage = next;
            draws = draws.answered(&reply);
            self.progress.say(self.rt, draws);
        }
        Ok(stage)
    }

    // Carries out a request, and prints the answer.
    fn ask<K: Drawable, S: Source>(
        &mut self,
        work: &mut Work<K, S>,
        stage: Stage,
        request: Request,
    ) -> Result<(Stage, Reply<S::Fault>), Halted> {
        let Answered {
            stage,
            reply,
            lines,
        } = carry_out(
            self.rt.alloc(),
            &work.setting,
            &mut work.ends,
            stage,
            request,
        );
        let said = self.say_answer(lines);
        let (stage, ()) = halting(stage, said)?;
        Ok((stage, reply))
    }

    // A request that does not fit has no lines.
    fn say_answer(&mut self, lines: Result<Option<String>, StateFault>) -> Result<(), Trouble> {
        match self.granted(lines)? {
            Some(lines) => self.say(lines.ok_or(Trouble::Misplaced)?),
            None => Ok(()),
        }
    }
}
