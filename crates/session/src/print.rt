// Makes the lines that need no batch: of a rule, a source, a refusal, the cells of a state, and a move. Each ends with a
// newline.
ghost use Rattle.std.specs.Prelude.{◌≡◌, IfOk, vec_items, string_bytes};
ghost use Rattle.lattice.specs.Faults.{state_refusal};
ghost use Rattle.refusal.specs.Refusals.{answer};
ghost use Rattle.session.specs.Printed.{TellsOwn, move_line, move_lines, printed, refused_line, rule_line, source_line};
ghost use Rattle.std.specs.Option.{option_map};

use crate::moves::Move;
use crate::trace::Step;
use lattice::fault::StateFault;
use lattice::kind::Kind;
use refusal::Cause;
use sources::source::Source;
use std::alloc::{AllocError, Global};
use task::answers::numbers_line;

// A text and then numbers.
pub(crate) fn whole_line(heap: Global, head: &str, numbers: &[u64]) -> Result<String, AllocError>
    ensures { IfOk result (λ t. string_bytes t ≡ printed head.now numbers.now) }
{
    let mut line = numbers_line(heap, head, numbers)?;
    line.push('\n')?;
    Ok(line)
}

// The numbers of a refusal, or none for want of memory, which has no numbers.
pub(crate) fn refused_line<C: Cause>(heap: Global, cause: &C) -> Result<Option<String>, AllocError>
    ensures { IfOk result (λ o. option_map string_bytes o ≡ refused_line (C.refusal cause.now)) }
{
    let numbers = cause.numbers(heap)?;
    if numbers.is_empty() {
        return Ok(None);
    }
    let line = whole_line(heap, "refused", numbers.as_slice())?;
    Ok(Some(line))
}

pub(crate) fn rule_line<K: Kind>(heap: Global, rule: &K) -> Result<String, AllocError>
    ensures { IfOk result (λ t. string_bytes t ≡ rule_line K.CODE (K.extent rule.now)) }
{
    let (rows, columns) = rule.sides();
    let numbers = [
        u64::from(rule.kind_code()),
        rows as u64,
        columns as u64,
        u64::from(rule.cap()),
    ];
    whole_line(heap, "rule", &numbers)
}

pub(crate) fn source_line<S: Source>(heap: Global, source: &S) -> Result<String, AllocError>
    ensures { IfOk result (λ t. string_bytes t ≡ source_line (S.reading source.now).depth) }
{
    whole_line(heap, "source", &[source.depth()])
}

// The cells of a state behind a text.
pub(crate) fn cells_line<K: Kind>(
    heap: Global,
    rule: &K,
    head: &str,
    state: &K::State,
) -> Result<String, StateFault>
    ensures { TellsOwn (K.extent rule.now) (K.carried state.now) (printed head.now (K.cells state.now)) (answer string_bytes state_refusal result) }
{
    let values = cell_values(heap, rule, state)?;
    Ok(whole_line(heap, head, values.as_slice())?)
}

fn cell_values<K: Kind>(heap: Global, rule: &K, state: &K::State) -> Result<Vec<u64>, StateFault>
    ensures { TellsOwn (K.extent rule.now) (K.carried state.now) (K.cells state.now) (answer vec_items state_refusal result) }
{
    if !rule.owns(state) {
        return Err(StateFault::Foreign);
    }
    let mut values = Vec::new(heap);
    for cell in 0..u64::from(rule.cell_count()) {
        let value = rule.cell(state, cell)?;
        values.push(u64::from(value))?;
    }
    Ok(values)
}

// A move, and the state that it left.
pub(crate) fn move_lines<K: Kind>(
    heap: Global,
    rule: &K,
    step: Step,
    state: &K::State,
) -> Result<String, StateFault>
    ensures { TellsOwn (K.extent rule.now) (K.carried state.now) (move_lines step (K.cells state.now)) (answer string_bytes state_refusal result) }
{
    let after = cells_line(heap, rule, "state", state)?;
    let moved = move_line(heap, step)?;
    Ok(format!(in heap; "{moved}{after}")?)
}

// A move, without the state that it leaves.
fn move_line(heap: Global, step: Step) -> Result<String, AllocError>
    ensures { IfOk result (λ t. string_bytes t ≡ move_line step) }
{
    let Step {
        place,
        word,
        chosen: Move { site, level },
    } = step;
    format!(in heap; "place {place} word {word:016x} site {site} level {level}\n")
}
