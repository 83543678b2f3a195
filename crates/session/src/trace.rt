// A trace: the bottom of a rule, moved by the words of the places T, T - 1, .., 1 of a source.
ghost use Rattle.std.specs.Prelude.{◌≡◌, IfOk};
ghost use Rattle.coupling.specs.Lead.{lead};
ghost use Rattle.coupling.specs.Windows.{window_words};
ghost use Rattle.refusal.specs.Refusals.{answer};
ghost use Rattle.session.specs.Traces.{Starts, after, end_of, next_answer, trace_refusal};
ghost use Rattle.session.specs.declared.trace.TraceFault.TheVariants.{State};

use crate::moves::{Move, move_by};
use batch::setting::Setting;
use lattice::fault::StateFault;
use lattice::kind::Kind;
use refusal::Cause;
use sources::source::Source;
use std::alloc::{AllocError, Global};

// Why a trace goes no further.
#[derive(Drop)]
pub enum TraceFault<F> {
    Word(F),
    State(StateFault),
}

impl<F> From<StateFault> for TraceFault<F> {
    ghost from_gives = { λ e r. r ≡ State e };

    fn from(cause: StateFault) -> TraceFault<F> {
        TraceFault::State(cause)
    }
}

impl<F: Cause> Cause for TraceFault<F> {
    ghost refusal = { trace_refusal F.refusal };

    fn tell(&self, numbers: &mut Vec<u64>) -> Result<(), AllocError> {
        match self {
            TraceFault::Word(fault) => fault.tell(numbers),
            TraceFault::State(fault) => fault.tell(numbers),
        }
    }
}

// A move of a trace: its place, the word there, and what the word chose.
#[derive(Clone, Copy)]
pub struct Step {
    pub place: u64,
    pub word: u64,
    pub chosen: Move,
}

#[derive(Drop)]
pub struct Trace<K: Kind> {
    state: K::State,
    // How many places are left.
    left: u64,
}

impl<K: Kind> Trace<K> {
    // The bottom, before the move at the place `back`.
    pub fn new<S: Source>(
        heap: Global,
        setting: &Setting<K, S>,
        back: u64,
    ) -> Result<Trace<K>, TraceFault<S::Fault>>
        ensures starts { Starts (K.meaning setting.now.rule.now) (S.reading setting.now.source.now) back (answer (λ t. (t.left, K.cells t.state)) (trace_refusal S.Fault.refusal) result) }
        ensures ends { IfOk result (λ t. end_of (K.meaning setting.now.rule.now) (S.reading setting.now.source.now) (t.left, K.cells t.state) ≡ lead (K.meaning setting.now.rule.now) (window_words (S.reading setting.now.source.now) 0 0 back) (K.meaning setting.now.rule.now).bottom) }
        ensures owned { IfOk result (λ t. K.carried t.state ≡ K.extent setting.now.rule.now) }
    {
        let _ = setting.source.word(back).map_err(TraceFault::Word)?;
        Ok(Trace {
            state: setting.rule.new_state(heap)?,
            left: back,
        })
    }

    // The state after the moves so far.
    pub fn state(&self) -> &K::State
        ensures { result.now ≡ self.now.state }
    {
        &self.state
    }

    // Makes the next move, and answers it, or none where no place is left.
    pub fn next_move<S: Source>(
        &mut self,
        setting: &Setting<K, S>,
    ) -> Result<Option<Step>, TraceFault<S::Fault>>
        ensures answers { answer (λ m. m) (trace_refusal S.Fault.refusal) result ≡ next_answer (K.extent setting.now.rule.now) (K.carried self.old.state) (S.reading setting.now.source.now) self.old.left }
        ensures leaves { (self.new.left, K.cells self.new.state) ≡ after (answer (λ m. m) (trace_refusal S.Fault.refusal) result) (K.meaning setting.now.rule.now) self.old.left (K.cells self.old.state) }
        ensures keeps { K.carried self.new.state ≡ K.carried self.old.state }
        ensures ends { end_of (K.meaning setting.now.rule.now) (S.reading setting.now.source.now) (self.new.left, K.cells self.new.state) ≡ end_of (K.meaning setting.now.rule.now) (S.reading setting.now.source.now) (self.old.left, K.cells self.old.state) }
    {
        let place = self.left;
        if place == 0 {
            return Ok(None);
        }
        let word = setting.source.word(place).map_err(TraceFault::Word)?;
        let chosen = move_by(setting.rule, &mut self.state, word)?;
        self.left = place - 1;
        Ok(Some(Step {
            place,
            word,
            chosen,
        }))
    }
}
