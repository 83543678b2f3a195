// The stages of a task, and which directives each allows.
ghost use Rattle.std.specs.Prelude.{◌≡◌};
ghost use Rattle.batch.specs.Stages.{stage_machine};
ghost use Rattle.session.specs.Stages.{allowed, stage_with};
ghost use Rattle.task.specs.Lines.{request_of};

use batch::stage::Stage as BatchStage;
use task::line::Directive;

#[derive(Clone, Copy)]
pub enum Stage {
    // Nothing is given yet.
    Start,
    // The rule is given.
    Ruled,
    // The rule and the source are given.
    Sourced,
    // There is a batch, and no draw is out.
    Idle,
    // A draw is out that has not met.
    DrawOpen,
    // A draw is out that has met.
    DrawMet,
}

// The stage of a task that has a batch.
impl From<&BatchStage> for Stage {
    ghost from_gives = { λ b s. s ≡ stage_with (stage_machine b.now).out };

    fn from(batch: &BatchStage) -> Stage {
        match batch {
            BatchStage::Idle(_) => Stage::Idle,
            BatchStage::Open(_, _) => Stage::DrawOpen,
            BatchStage::Met(_, _) => Stage::DrawMet,
        }
    }
}

impl Stage {
    pub fn allows(self, directive: &Directive) -> bool
        ensures { result ≡ allowed (request_of directive.now) self }
    {
        match directive {
            Directive::Spins { .. } | Directive::Partitions { .. } | Directive::Sets { .. } => {
                matches!(self, Stage::Start)
            }
            Directive::Seed(_) | Directive::Recording(_) | Directive::RecordingFile(_) => {
                matches!(self, Stage::Ruled)
            }
            Directive::Stretch(_) => matches!(self, Stage::Sourced),
            Directive::Open | Directive::Draws(_) => matches!(self, Stage::Idle),
            Directive::Try(_) | Directive::Run | Directive::GiveUp => {
                matches!(self, Stage::DrawOpen)
            }
            Directive::Close => matches!(self, Stage::DrawMet),
            Directive::States => !matches!(self, Stage::Start),
            Directive::Trace(_) => !matches!(self, Stage::Start | Stage::Ruled),
            Directive::Tally => { matches!(self, Stage::Idle | Stage::DrawOpen | Stage::DrawMet) }
        }
    }
}
