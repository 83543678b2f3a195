// What draws are run with, and a draw from its opening to its end, with a printed line for each call.
ghost use Rattle.std.specs.Prelude.{◌≡◌};
ghost use Rattle.batch.specs.Ends.{two};
ghost use Rattle.batch.specs.Meanings.{open_machine, open_one, outcome_report};
ghost use Rattle.batch.specs.Runs.{RunReports};
ghost use Rattle.batch.specs.Settings.{setting_of};
ghost use Rattle.batch.specs.Tries.{try_report, with_two};
ghost use Rattle.batch_runs.specs.declared.bench.Call.TheVariants.{Try, Run};

use crate::ends::end;
use anyhow::Context;
use batch::draws::{Batch, OpenDraw};
use batch::ends::EndsMut;
use batch::outcome::Outcome;
use batch::setting::Setting;
use batch::stage::Drawn;
use lattice::kind::Kind;
use partitions::rule::Partitions;
use partitions::state::PlanePartition;
use refusal::Cause;
use sources::fault::NoWord;
use sources::recording::Recording;
use sources::source::Source;
use std::alloc::{AllocError, Global};
use std::fmt;
use task::answers::numbers_line;

// The rule of one height, recorded words, and the states of the two ends.
#[derive(Drop)]
pub struct Bench<'a> {
    pub rule: Partitions,
    words: Recording<'a>,
    pub low: PlanePartition,
    pub high: PlanePartition,
}

#[derive(Clone, Copy)]
pub enum Call {
    Try(u64),
    Run,
}

impl fmt::Display for Call {
    fn fmt<W: fmt::Write>(&self, f: &mut fmt::Formatter<W>) -> fmt::Result {
        match self {
            Call::Try(window) => write!(f, "window {window}"),
            Call::Run => write!(f, "run"),
        }
    }
}

impl<'a> Bench<'a> {
    pub fn new(heap: Global, cap: u64, bytes: &'a [u8]) -> anyhow::Result<Bench<'a>> {
        let rule = accepted(Partitions::new(1, 1, cap))?;
        let words = accepted(Recording::new(bytes))?;
        let low = accepted(rule.new_state(heap))?;
        let high = accepted(rule.new_state(heap))?;
        Ok(Bench {
            rule,
            words,
            low,
            high,
        })
    }

    // Opens the next draw, makes the calls on it in turn, and ends it.
    pub fn draw(
        &mut self,
        rt: &HostRuntime,
        batch: Batch,
        calls: &[Call],
    ) -> anyhow::Result<Batch> {
        let (draw, token) = accepted(batch.open())?;
        let mut outcome = Outcome::Apart(draw);
        // The draw has to be ended also where a line cannot be printed.
        let mut printed = Ok(());
        for call in calls {
            outcome = self.call(outcome, *call);
            printed = printed.and(self.say(rt, *call, &outcome));
        }
        let batch = end(outcome, token);
        printed?;
        Ok(batch)
    }

    // Makes the call unless the draw has met.
    fn call(&mut self, outcome: Outcome<NoWord>, call: Call) -> Outcome<NoWord> {
        let draw = match outcome {
            Outcome::Met(draw) => return Outcome::Met(draw),
            Outcome::Apart(draw) | Outcome::Refused(draw, _) => draw,
        };
        let setting = Setting {
            rule: &self.rule,
            source: &self.words,
        };
        lending(draw, call, &setting, &mut self.low, &mut self.high)
    }

    fn say(&self, rt: &HostRuntime, call: Call, outcome: &Outcome<NoWord>) -> anyhow::Result<()> {
        let heap = rt.alloc();
        let (answer, Drawn { number, window }) = match outcome {
            Outcome::Met(draw) => (String::from_str(heap, "met")?, draw.drawn()),
            Outcome::Apart(draw) => (String::from_str(heap, "apart")?, draw.drawn()),
            Outcome::Refused(draw, fault) => (refusal_text(heap, fault)?, draw.drawn()),
        };
        let low = height_text(heap, &self.rule, &self.low)?;
        let high = height_text(heap, &self.rule, &self.high)?;
        println!(rt; "{call}: {answer}, draw {number} window {window}, heights {low} {high}")?;
        Ok(())
    }
}

// Makes the call, and lends it two states that lie anywhere.
fn lending<K: Kind, S: Source>(
    draw: OpenDraw,
    call: Call,
    setting: &Setting<K, S>,
    low: &mut K::State,
    high: &mut K::State,
) -> Outcome<S::Fault>
    ensures reports { elim call [ Try window ↦ outcome_report S.Fault.refusal result (K.cells low.new) (K.cells high.new) ≡ try_report (setting_of K.Kind S.Source setting.now) (open_machine draw) (with_two (open_one draw) (two (K.carried low.old) (K.carried high.old) (K.cells low.old) (K.cells high.old))) window | Run ↦ RunReports (setting_of K.Kind S.Source setting.now) (open_machine draw) (with_two (open_one draw) (two (K.carried low.old) (K.carried high.old) (K.cells low.old) (K.cells high.old))) (outcome_report S.Fault.refusal result (K.cells low.new) (K.cells high.new)) ] }
    ensures keeps { (K.carried low.new ≡ K.carried low.old) × (K.carried high.new ≡ K.carried high.old) }
{
    let mut ends = EndsMut { low, high };
    match call {
        Call::Try(window) => draw.try_window(setting, window, &mut ends),
        Call::Run => draw.run(setting, &mut ends),
    }
}

fn height_text(
    heap: Global,
    rule: &Partitions,
    state: &PlanePartition,
) -> Result<String, AllocError> {
    match rule.cell(state, 0) {
        Ok(height) => format!(in heap; "{height}"),
        Err(_) => String::from_str(heap, "foreign"),
    }
}

pub fn refusal_text<C: Cause>(heap: Global, cause: &C) -> Result<String, AllocError> {
    numbers_line(heap, "refused", cause.numbers(heap)?.as_slice())
}

// What a call gives that is not to be refused.
pub fn accepted<T, E: Drop>(answer: Result<T, E>) -> anyhow::Result<T> {
    answer.ok().context("a call was refused")
}
