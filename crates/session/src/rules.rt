// The rule and the source that a directive gives.
ghost use Rattle.std.specs.Prelude.{◌≡◌};
ghost use Rattle.refusal.specs.Refusals.{answer};
ghost use Rattle.session.specs.declared.rules.RuleFault.TheVariants as fault;
ghost use Rattle.session.specs.Rules.{GivesRule, SpinsAnswers, partitions_answer, rule_of, rule_refusal, sets_answer, source_given, source_of};
ghost use Rattle.std.specs.Option.{option_map};
ghost use Rattle.task.specs.Lines.{request_of};

use independent_sets::rule::IndependentSets;
use lattice::fault::ShapeFault;
use partitions::rule::Partitions;
use refusal::Cause;
use sources::counter::Counter;
use spins::fault::SpinsFault;
use spins::rule::Spins;
use std::alloc::AllocError;
use task::line::Directive;

#[derive(Drop)]
pub enum AnyRule {
    Spins(Spins),
    Partitions(Partitions),
    Sets(IndependentSets),
}

// Why a directive's numbers make no rule.
#[derive(Drop)]
pub enum RuleFault {
    Spins(SpinsFault),
    Shape(ShapeFault),
}

impl From<SpinsFault> for RuleFault {
    ghost from_gives = { λ e r. r ≡ fault.Spins e };

    fn from(cause: SpinsFault) -> RuleFault {
        RuleFault::Spins(cause)
    }
}

impl From<ShapeFault> for RuleFault {
    ghost from_gives = { λ e r. r ≡ fault.Shape e };

    fn from(cause: ShapeFault) -> RuleFault {
        RuleFault::Shape(cause)
    }
}

impl Cause for RuleFault {
    ghost refusal = { rule_refusal };

    fn tell(&self, numbers: &mut Vec<u64>) -> Result<(), AllocError> {
        match self {
            RuleFault::Spins(fault) => fault.tell(numbers),
            RuleFault::Shape(fault) => fault.tell(numbers),
        }
    }
}

// The rule that the directive gives, if it gives one.
pub fn given_rule(directive: &Directive) -> Option<Result<AnyRule, RuleFault>>
    ensures { GivesRule (request_of directive.now) (option_map (answer rule_of rule_refusal) result) }
{
    match directive {
        Directive::Spins {
            rows,
            columns,
            thresholds,
        } => Some(spins_rule(*rows, *columns, *thresholds)),
        Directive::Partitions { rows, columns, cap } => Some(partitions_rule(
            *rows, *columns, *cap,
        )),
        Directive::Sets { rows, columns } => Some(sets_rule(*rows, *columns)),
        _ => None,
    }
}

fn spins_rule(rows: u64, columns: u64, thresholds: [u64; 9]) -> Result<AnyRule, RuleFault>
    ensures { SpinsAnswers rows columns thresholds (answer rule_of rule_refusal result) }
{
    Ok(AnyRule::Spins(Spins::from_numbers(rows, columns, 1, thresholds)?))
}

fn partitions_rule(rows: u64, columns: u64, cap: u64) -> Result<AnyRule, RuleFault>
    ensures { answer rule_of rule_refusal result ≡ partitions_answer rows columns «cap» }
{
    Ok(AnyRule::Partitions(Partitions::new(rows, columns, cap)?))
}

fn sets_rule(rows: u64, columns: u64) -> Result<AnyRule, RuleFault>
    ensures { answer rule_of rule_refusal result ≡ sets_answer rows columns }
{
    Ok(AnyRule::Sets(IndependentSets::new(rows, columns, 1)?))
}

// Where the words of a task come from. Bytes have yet to make a recording.
#[derive(Drop)]
pub enum SourceGiven {
    Counter(Counter),
    Bytes(Vec<u8>),
    File(Vec<u8>),
}

// The source that the directive gives, if it gives one.
pub fn given_source(directive: Directive) -> Option<SourceGiven>
    ensures { option_map source_of result ≡ source_given (request_of directive) }
{
    match directive {
        Directive::Seed(seed) => Some(SourceGiven::Counter(Counter::new(seed))),
        Directive::Recording(bytes) => Some(SourceGiven::Bytes(bytes)),
        Directive::RecordingFile(path) => Some(SourceGiven::File(path)),
        _ => None,
    }
}
