// What a request on a batch leaves and answers, with the lines that tell the answer.
ghost use Rattle.std.specs.Prelude.{string_bytes};
ghost use Rattle.batch.specs.Ends.{SameExtents};
ghost use Rattle.batch.specs.Machine.{drawn};
ghost use Rattle.batch.specs.Requests.{Carries, response};
ghost use Rattle.batch.specs.Settings.{setting_of};
ghost use Rattle.batch.specs.Stages.{said_by, stage_machine};
ghost use Rattle.lattice.specs.Faults.{state_refusal};
ghost use Rattle.refusal.specs.Refusals.{answer};
ghost use Rattle.session.specs.Draws.{answer_lines, concerned};
ghost use Rattle.session.specs.Printed.{Tells, owns_both};
ghost use Rattle.std.specs.Option.{option_map};

use crate::draw_lines::{answer_lines, draw_concerned};
use crate::drawable::Drawable;
use batch::ends::{Ends, EndsMut};
use batch::setting::Setting;
use batch::stage::{Reply, Request, Stage};
use lattice::fault::StateFault;
use sources::source::Source;
use std::alloc::Global;

// The lines are none if the request did not fit.
pub(crate) struct Answered<F: Drop> {
    pub stage: Stage,
    pub reply: Reply<F>,
    pub lines: Result<Option<String>, StateFault>,
}

// Carries out a request on a batch.
pub(crate) fn carry_out<K: Drawable, S: Source>(
    heap: Global,
    setting: &Setting<K, S>,
    ends: &mut Ends<K>,
    stage: Stage,
    request: Request,
) -> Answered<S::Fault>
    ensures carries { Carries (setting_of K.Kind S.Source setting.now) ends.old (stage_machine stage) request (response (said_by S.Fault.refusal result.reply) (stage_machine result.stage) ends.new.low ends.new.high) }
    ensures tells { Tells (owns_both (K.extent setting.now.rule.now) ends.new) (answer_lines (said_by S.Fault.refusal result.reply) (concerned (drawn (stage_machine stage).out) (drawn (stage_machine result.stage).out)) ends.new.low ends.new.high) (answer (option_map string_bytes) state_refusal result.lines) }
    ensures keeps { SameExtents ends.old ends.new }
{
    let before = stage.draw();
    let mut lent = EndsMut {
        low: &mut ends.low,
        high: &mut ends.high,
    };
    let (stage, reply) = K::carry_out(stage, request, setting, &mut lent);
    let draw = draw_concerned(before, stage.draw());
    let lines = answer_lines(heap, setting.rule, &reply, draw, ends);
    Answered {
        stage,
        reply,
        lines,
    }
}
