// Carrying out requests.
ghost use Rattle.std.specs.Prelude.{◌≡◌, ℕ, List, ◌∷◌};
ghost use Rattle.batch.specs.Ends.{SameExtents};
ghost use Rattle.batch.specs.Lent.{SameEnds, ends_of};
ghost use Rattle.batch.specs.Histories.{Event, History, event};
ghost use Rattle.batch.specs.Machine.{counts, drawn};
ghost use Rattle.batch.specs.Meanings.{drawn_says, outcome_report, tally_says};
ghost use Rattle.batch.specs.Promises.{HoldsInEveryHistory};
ghost use Rattle.batch.specs.Requests.{Carries, reported, response};
ghost use Rattle.batch.specs.Settings.{setting_of};
ghost use Rattle.batch.specs.Stages.{said_by, stage_machine};
ghost use Rattle.coupling.specs.Shares.{EqualShares};
ghost use Rattle.refusal.specs.Refusals.{Refusal};
ghost use Rattle.std.specs.Option.{option_map};

use crate::draws::{Tally, Token};
use crate::ends::EndsMut;
use crate::fault::{Fault, Full};
use crate::outcome::Outcome;
use crate::setting::Setting;
use crate::stage::{Drawn, Reply, Request, Stage};
use coupling::shares_are_equal;
use lattice::even::Even;
use lattice::kind::Kind;
use sources::source::Source;

impl Stage {
    // The draws so far, one that is out among those opened.
    pub fn tally(&self) -> Tally
        ensures { tally_says result ≡ counts (stage_machine self.now) }
    {
        match self {
            Stage::Idle(batch) => batch.tally(),
            Stage::Open(draw, _) => draw.tally(),
            Stage::Met(draw, _) => draw.tally(),
        }
    }

    pub fn draw(&self) -> Option<Drawn>
        ensures { option_map drawn_says result ≡ drawn (stage_machine self.now).out }
    {
        match self {
            Stage::Idle(_) => None,
            Stage::Open(draw, _) => Some(draw.drawn()),
            Stage::Met(draw, _) => Some(draw.drawn()),
        }
    }

    // Carries out the next request. Whatever came before, the history goes on; and what holds in every history of this
    // rule and this source is promised with it.
    pub fn carry_out<K: Kind, S: Source>(
        self,
        request: Request,
        setting: &Setting<K, S>,
        ends: &mut EndsMut<K>,
    ) -> (Stage, Reply<S::Fault>)
        ensures carries { Carries (setting_of K.Kind S.Source setting.now) (ends_of K.Kind ends.old) (stage_machine self) request (response (said_by S.Fault.refusal result.1) (stage_machine result.0) (K.cells ends.new.low.now) (K.cells ends.new.high.now)) }
        ensures goes_on { (es : List Event) → History (setting_of K.Kind S.Source setting.now) es (stage_machine self) → History (setting_of K.Kind S.Source setting.now) (event request (ends_of K.Kind ends.old) (response (said_by S.Fault.refusal result.1) (stage_machine result.0) (K.cells ends.new.low.now) (K.cells ends.new.high.now)) ∷ es) (stage_machine result.0) }
        ensures holds { HoldsInEveryHistory (setting_of K.Kind S.Source setting.now) }
        ensures keeps { SameExtents (ends_of K.Kind ends.old) (ends_of K.Kind ends.new) }
        ensures same_ends { SameEnds ends.old ends.new }
    {
        setting.source.sound();
        self.step(request, setting, ends)
    }

    // The same for an even kind: each lawful state has its share of all lists of words.
    pub fn carry_out_even<E: Even, S: Source>(
        self,
        request: Request,
        setting: &Setting<E, S>,
        ends: &mut EndsMut<E>,
    ) -> (Stage, Reply<S::Fault>)
        ensures carries { Carries (setting_of E.Kind S.Source setting.now) (ends_of E.Kind ends.old) (stage_machine self) request (response (said_by S.Fault.refusal result.1) (stage_machine result.0) (E.cells ends.new.low.now) (E.cells ends.new.high.now)) }
        ensures goes_on { (es : List Event) → History (setting_of E.Kind S.Source setting.now) es (stage_machine self) → History (setting_of E.Kind S.Source setting.now) (event request (ends_of E.Kind ends.old) (response (said_by S.Fault.refusal result.1) (stage_machine result.0) (E.cells ends.new.low.now) (E.cells ends.new.high.now)) ∷ es) (stage_machine result.0) }
        ensures holds { HoldsInEveryHistory (setting_of E.Kind S.Source setting.now) }
        ensures shares { EqualShares (E.meaning setting.now.rule.now) }
        ensures keeps { SameExtents (ends_of E.Kind ends.old) (ends_of E.Kind ends.new) }
        ensures same_ends { SameEnds ends.old ends.new }
    {
        shares_are_equal(setting.rule);
        self.carry_out(request, setting, ends)
    }

    // Does what the request asks, if it fits the stage.
    fn step<K: Kind, S: Source>(
        self,
        request: Request,
        setting: &Setting<K, S>,
        ends: &mut EndsMut<K>,
    ) -> (Stage, Reply<S::Fault>)
        ensures carries { Carries (setting_of K.Kind S.Source setting.now) (ends_of K.Kind ends.old) (stage_machine self) request (response (said_by S.Fault.refusal result.1) (stage_machine result.0) (K.cells ends.new.low.now) (K.cells ends.new.high.now)) }
        ensures keeps { SameExtents (ends_of K.Kind ends.old) (ends_of K.Kind ends.new) }
        ensures same_ends { SameEnds ends.old ends.new }
    {
        match (self, request) {
            (Stage::Idle(batch), Request::Open) => match batch.open() {
                Ok((draw, token)) => (Stage::Open(draw, token), Reply::Opened),
                Err(Full { batch }) => (Stage::Idle(batch), Reply::Refused(Fault::Full)),
            },
            (Stage::Open(draw, token), Request::Try(window)) => {
                settled(draw.try_window(setting, window, ends), token)
            }
            (Stage::Open(draw, token), Request::Run) => settled(draw.run(setting, ends), token),
            (Stage::Open(draw, token), Request::GiveUp) => {
                (Stage::Idle(draw.give_up(token)), Reply::GivenUp)
            }
            (Stage::Met(draw, token), Request::Close) => {
                (Stage::Idle(draw.close(token)), Reply::Closed)
            }
            (stage, _) => (stage, Reply::Misplaced),
        }
    }
}

// The stage and the reply after a try or a run.
fn settled<F: Drop>(outcome: Outcome<F>, token: Token) -> (Stage, Reply<F>)
    ensures { (why : F → Refusal) → (x y : List ℕ) → response (said_by why result.1) (stage_machine result.0) x y ≡ reported (outcome_report why outcome x y) }
{
    match outcome {
        Outcome::Met(draw) => (Stage::Met(draw, token), Reply::Met),
        Outcome::Apart(draw) => (Stage::Open(draw, token), Reply::Apart),
        Outcome::Refused(draw, fault) => (Stage::Open(draw, token), Reply::Refused(fault)),
    }
}
