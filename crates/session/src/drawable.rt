// Kinds of which a task can draw samples. An even kind takes the call that also promises equal shares. One impl for all
// even kinds would overlap that for spins, since nothing says that spins are not even.
ghost use Rattle.batch.specs.Ends.{SameExtents};
ghost use Rattle.batch.specs.Lent.{SameEnds, ends_of};
ghost use Rattle.batch.specs.Requests.{Carries, response};
ghost use Rattle.batch.specs.Settings.{setting_of};
ghost use Rattle.batch.specs.Stages.{said_by, stage_machine};

use batch::ends::EndsMut;
use batch::setting::Setting;
use batch::stage::{Reply, Request, Stage};
use independent_sets::rule::IndependentSets;
use lattice::kind::Kind;
use partitions::rule::Partitions;
use sources::source::Source;
use spins::rule::Spins;

pub trait Drawable: Kind {
    // Carries out a request on a batch.
    fn carry_out<S: Source>(
        stage: Stage,
        request: Request,
        setting: &Setting<Self, S>,
        ends: &mut EndsMut<Self>,
    ) -> (Stage, Reply<S::Fault>)
        ensures carries { Carries (setting_of Self.Kind S.Source setting.now) (ends_of Self.Kind ends.old) (stage_machine stage) request (response (said_by S.Fault.refusal result.1) (stage_machine result.0) (Self.cells ends.new.low.now) (Self.cells ends.new.high.now)) }
        ensures keeps { SameExtents (ends_of Self.Kind ends.old) (ends_of Self.Kind ends.new) }
        ensures same_ends { SameEnds ends.old ends.new };
}

impl Drawable for Spins {
    fn carry_out<S: Source>(
        stage: Stage,
        request: Request,
        setting: &Setting<Spins, S>,
        ends: &mut EndsMut<Spins>,
    ) -> (Stage, Reply<S::Fault>) {
        stage.carry_out(request, setting, ends)
    }
}

impl Drawable for Partitions {
    fn carry_out<S: Source>(
        stage: Stage,
        request: Request,
        setting: &Setting<Partitions, S>,
        ends: &mut EndsMut<Partitions>,
    ) -> (Stage, Reply<S::Fault>) {
        stage.carry_out_even(request, setting, ends)
    }
}

impl Drawable for IndependentSets {
    fn carry_out<S: Source>(
        stage: Stage,
        request: Request,
        setting: &Setting<IndependentSets, S>,
        ends: &mut EndsMut<IndependentSets>,
    ) -> (Stage, Reply<S::Fault>) {
        stage.carry_out_even(request, setting, ends)
    }
}
