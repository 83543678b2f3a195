// Trying windows of an open draw.
ghost use Rattle.std.specs.Prelude.{◌≡◌, ℕ, ◌≤◌, true, List, Ok};
ghost use Rattle.batch.specs.Ends.{SameExtents};
ghost use Rattle.batch.specs.Lent.{SameEnds, ends_of};
ghost use Rattle.batch.specs.Faults.{fault_refusal};
ghost use Rattle.batch.specs.Meanings.{open_machine, open_one, outcome_report, result_report};
ghost use Rattle.batch.specs.Reads.{words_in};
ghost use Rattle.batch.specs.Settings.{setting_of};
ghost use Rattle.batch.specs.Tries.{try_report, with_two, words_of_try};
ghost use Rattle.refusal.specs.Refusals.{Refusal, answer};

use crate::draws::windows::Window;
use crate::draws::{MetDraw, OpenDraw};
use crate::ends::EndsMut;
use crate::fault::Fault;
use crate::outcome::Outcome;
use crate::setting::Setting;
use lattice::fault::StateFault;
use lattice::kind::Kind;
use sources::source::Source;

impl OpenDraw {
    // Tries a window: leads the bottom, in the first state, and the top, in the second, to time zero.
    pub fn try_window<K: Kind, S: Source>(
        mut self,
        setting: &Setting<K, S>,
        window: u64,
        ends: &mut EndsMut<K>,
    ) -> Outcome<S::Fault>
        ensures reports { outcome_report S.Fault.refusal result (K.cells ends.new.low.now) (K.cells ends.new.high.now) ≡ try_report (setting_of K.Kind S.Source setting.now) (open_machine self) (with_two (open_one self) (ends_of K.Kind ends.old)) window }
        ensures keeps { SameExtents (ends_of K.Kind ends.old) (ends_of K.Kind ends.new) }
        ensures same_ends { SameEnds ends.old ends.new }
    {
        let result = self.attempt(setting, window, ends);
        self.into_outcome(result)
    }

    // The draw with the result of its last try.
    pub(super) fn into_outcome<F: Drop>(self, res: Result<bool, Fault<F>>) -> Outcome<F>
        requires { res ≡ Ok true → 1 ≤ self.tried }
        ensures { (why : F → Refusal) → (x y : List ℕ) → outcome_report why result x y ≡ result_report why res self x y }
    {
        match res {
            Ok(true) => Outcome::Met(MetDraw { draw: self }),
            Ok(false) => Outcome::Apart(self),
            Err(fault) => Outcome::Refused(self, fault),
        }
    }

    // Tries a window, and answers whether it met.
    pub(super) fn attempt<K: Kind, S: Source>(
        &mut self,
        setting: &Setting<K, S>,
        window: u64,
        ends: &mut EndsMut<K>,
    ) -> Result<bool, Fault<S::Fault>>
        ensures reports { result_report S.Fault.refusal result self.new (K.cells ends.new.low.now) (K.cells ends.new.high.now) ≡ try_report (setting_of K.Kind S.Source setting.now) (open_machine self.old) (with_two (open_one self.old) (ends_of K.Kind ends.old)) window }
        ensures some { result ≡ Ok true → 1 ≤ self.new.tried }
        ensures same { self.new.batch ≡ self.old.batch }
        ensures keeps { SameExtents (ends_of K.Kind ends.old) (ends_of K.Kind ends.new) }
        ensures same_ends { SameEnds ends.old ends.new }
    {
        let words = self.admit(setting, window, ends)?;
        let met = words.lead_both(setting.rule, ends)?;
        self.tried = window as u32;
        Ok(met)
    }

    // The words of a window, unless it cannot be tried.
    fn admit<'a, K: Kind, S: Source>(
        &self,
        setting: &Setting<'a, K, S>,
        window: u64,
        ends: &EndsMut<K>,
    ) -> Result<Window<'a, S>, Fault<S::Fault>>
        ensures { answer (words_in S.Source) (fault_refusal S.Fault.refusal) result ≡ words_of_try (setting_of K.Kind S.Source setting.now) (open_machine self.now) (with_two (open_one self.now) (ends_of K.Kind ends.now)) window }
    {
        let rule = setting.rule;
        if !rule.owns(ends.low) || !rule.owns(ends.high) {
            return Err(Fault::State(StateFault::Foreign));
        }
        if window < 1 || window > u64::from(self.batch.stretch) {
            return Err(Fault::Window);
        }
        if window <= u64::from(self.tried) {
            return Err(Fault::Tried);
        }
        Ok(Window::of(self, setting.source, window)?)
    }
}
