// Running an open draw: windows are tried in turn until one meets.
ghost use Rattle.std.specs.Prelude.{◌≡◌, ◌^◌, ◌<◌, ◌≤◌, true, Ok};
ghost use Rattle.batch.specs.Ends.{SameExtents};
ghost use Rattle.batch.specs.Lent.{SameEnds, ends_of};
ghost use Rattle.batch.specs.Meanings.{open_machine, open_one, outcome_report, result_report};
ghost use Rattle.batch.specs.Runs.{RunReports, doubled_report};
ghost use Rattle.batch.specs.Settings.{setting_of};
ghost use Rattle.batch.specs.Tries.{with_two};

use crate::draws::OpenDraw;
use crate::ends::EndsMut;
use crate::fault::Fault;
use crate::outcome::Outcome;
use crate::setting::Setting;
use lattice::kind::Kind;
use sources::source::Source;

impl OpenDraw {
    // Tries larger and larger windows until one meets: powers of two as long as they are below the stretch, and at last
    // the stretch. Windows that are not larger than one tried before are passed over.
    pub fn run<K: Kind, S: Source>(
        mut self,
        setting: &Setting<K, S>,
        ends: &mut EndsMut<K>,
    ) -> Outcome<S::Fault>
        ensures reports { RunReports (setting_of K.Kind S.Source setting.now) (open_machine self) (with_two (open_one self) (ends_of K.Kind ends.old)) (outcome_report S.Fault.refusal result (K.cells ends.new.low.now) (K.cells ends.new.high.now)) }
        ensures keeps { SameExtents (ends_of K.Kind ends.old) (ends_of K.Kind ends.new) }
        ensures same_ends { SameEnds ends.old ends.new }
    {
        let result = self.try_windows(setting, ends);
        self.into_outcome(result)
    }

    // Tries the windows of a run, and answers whether one met.
    fn try_windows<K: Kind, S: Source>(
        &mut self,
        setting: &Setting<K, S>,
        ends: &mut EndsMut<K>,
    ) -> Result<bool, Fault<S::Fault>>
        ensures reports { RunReports (setting_of K.Kind S.Source setting.now) (open_machine self.old) (with_two (open_one self.old) (ends_of K.Kind ends.old)) (result_report S.Fault.refusal result self.new (K.cells ends.new.low.now) (K.cells ends.new.high.now)) }
        ensures some { result ≡ Ok true → 1 ≤ self.new.tried }
        ensures keeps { SameExtents (ends_of K.Kind ends.old) (ends_of K.Kind ends.new) }
        ensures same_ends { SameEnds ends.old ends.new }
    {
        let stretch = u64::from(self.batch.stretch);
        for exponent in 0u32..20 {
            if self.try_doubled(setting, 1 << exponent, ends)? {
                return Ok(true);
            }
        }
        self.attempt(setting, stretch, ends)
    }

    // Tries a window if it is below the stretch and larger than the largest tried, and else passes it over.
    fn try_doubled<K: Kind, S: Source>(
        &mut self,
        setting: &Setting<K, S>,
        window: u64,
        ends: &mut EndsMut<K>,
    ) -> Result<bool, Fault<S::Fault>>
        ensures reports { result_report S.Fault.refusal result self.new (K.cells ends.new.low.now) (K.cells ends.new.high.now) ≡ doubled_report (setting_of K.Kind S.Source setting.now) (open_machine self.old) (with_two (open_one self.old) (ends_of K.Kind ends.old)) window }
        ensures some { result ≡ Ok true → 1 ≤ self.new.tried }
        ensures same { self.new.batch ≡ self.old.batch }
        ensures keeps { SameExtents (ends_of K.Kind ends.old) (ends_of K.Kind ends.new) }
        ensures same_ends { SameEnds ends.old ends.new }
    {
        if window <= u64::from(self.tried) || window >= u64::from(self.batch.stretch) {
            return Ok(false);
        }
        self.attempt(setting, window, ends)
    }
}
