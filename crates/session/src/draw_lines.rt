// Makes the lines of a batch: its stretch, its tally, both states, the answer to a request, and how the last draw ends.
ghost use Rattle.std.specs.Prelude.{◌≡◌, [], ◌∷◌, ◌++◌, IfOk, string_bytes, MatchResult};
ghost use Rattle.batch.specs.Meanings.{batch_machine, drawn_says, tally_says};
ghost use Rattle.batch.specs.Stages.{said_by, stage_machine};
ghost use Rattle.lattice.specs.Faults.{state_refusal};
ghost use Rattle.refusal.specs.Refusals.{answer};
ghost use Rattle.session.specs.Draws.{answer_lines, batch_line, concerned, end_lines, first_line, state_part, tally_line};
ghost use Rattle.session.specs.Printed.{Tells, owns_both, printed, state_lines};
ghost use Rattle.std.specs.Option.{option_map};

use crate::print::{cells_line, refused_line, whole_line};
use batch::draws::{Batch, Tally};
use batch::ends::Ends;
use batch::stage::{Drawn, Reply, Stage};
use lattice::fault::StateFault;
use lattice::kind::Kind;
use refusal::Cause;
use std::alloc::{AllocError, Global};

pub(crate) fn batch_line(heap: Global, batch: &Batch) -> Result<String, AllocError>
    ensures { IfOk result (λ t. string_bytes t ≡ batch_line (batch_machine batch.now)) }
{
    whole_line(heap, "batch", &[u64::from(batch.stretch())])
}

pub(crate) fn tally_line(heap: Global, tally: Tally) -> Result<String, AllocError>
    ensures { IfOk result (λ t. string_bytes t ≡ tally_line (tally_says tally)) }
{
    let numbers = [
        u64::from(tally.opened),
        u64::from(tally.met),
        u64::from(tally.given_up),
    ];
    whole_line(heap, "tally", &numbers)
}

// Both states of a task.
pub(crate) fn states_lines<K: Kind>(
    heap: Global,
    rule: &K,
    ends: &Ends<K>,
) -> Result<String, StateFault>
    ensures { Tells (owns_both (K.extent rule.now) ends.now) (state_lines ends.now.low ends.now.high) (answer string_bytes state_refusal result) }
{
    let first = cells_line(heap, rule, "low", &ends.low)?;
    let second = cells_line(heap, rule, "high", &ends.high)?;
    Ok(format!(in heap; "{first}{second}")?)
}

// The draw that a request was about: the one that is out after it, or else the one that was out before.
pub(crate) fn draw_concerned(before: Option<Drawn>, after: Option<Drawn>) -> Option<Drawn>
    ensures { option_map drawn_says result ≡ concerned (option_map drawn_says before) (option_map drawn_says after) }
{
    after.or(before)
}

// The answer to a request, about a draw; none if the request did not fit.
pub(crate) fn answer_lines<K: Kind, F: Cause + Drop>(
    heap: Global,
    rule: &K,
    reply: &Reply<F>,
    draw: Option<Drawn>,
    ends: &Ends<K>,
) -> Result<Option<String>, StateFault>
    ensures { Tells (owns_both (K.extent rule.now) ends.now) (answer_lines (said_by F.refusal reply.now) (option_map drawn_says draw) ends.now.low ends.now.high) (answer (option_map string_bytes) state_refusal result) }
{
    let Some(head) = first_line(heap, reply, draw)? else {
        return Ok(None);
    };
    let states = state_part(heap, rule, reply, ends)?;
    Ok(Some(format!(in heap; "{head}{states}")?))
}

// The first line of an answer.
fn first_line<F: Cause + Drop>(
    heap: Global,
    reply: &Reply<F>,
    draw: Option<Drawn>,
) -> Result<Option<String>, StateFault>
    ensures { MatchResult result (λ o. option_map string_bytes o ≡ first_line (said_by F.refusal reply.now) (option_map drawn_says draw)) (λ e. e ≡ StateFault.Memory) }
{
    let line = match (reply, draw) {
        (Reply::Opened, Some(draw)) => whole_line(heap, "opened", &[u64::from(draw.number)])?,
        (Reply::Met, Some(draw)) => whole_line(heap, "met", &tried(draw))?,
        (Reply::Apart, Some(draw)) => whole_line(heap, "apart", &tried(draw))?,
        (Reply::Closed, Some(draw)) => whole_line(heap, "closed", &[u64::from(draw.number)])?,
        (Reply::GivenUp, Some(draw)) => whole_line(heap, "given up", &[u64::from(draw.number)])?,
        (Reply::Refused(fault), _) => refused_line(heap, fault)?.ok_or(StateFault::Memory)?,
        _ => return Ok(None),
    };
    Ok(Some(line))
}

// A draw's number, and the window tried last.
fn tried(draw: Drawn) -> [u64; 2]
    ensures { result ≡ draw.number ∷ draw.window ∷ [] }
{
    [u64::from(draw.number), u64::from(draw.window)]
}

// What an answer says of the states.
fn state_part<K: Kind, F: Cause + Drop>(
    heap: Global,
    rule: &K,
    reply: &Reply<F>,
    ends: &Ends<K>,
) -> Result<String, StateFault>
    ensures { Tells (owns_both (K.extent rule.now) ends.now) (state_part (said_by F.refusal reply.now) ends.now.low ends.now.high) (answer string_bytes state_refusal result) }
{
    match reply {
        Reply::Met => cells_line(heap, rule, "state", &ends.low),
        Reply::Apart => states_lines(heap, rule, ends),
        _ => Ok(String::new(heap)),
    }
}

// Ends a draw that is out, as met if it has met and else as given up; and the lines of that, with the tally last.
pub(crate) fn end_lines(heap: Global, stage: Stage) -> Result<String, AllocError>
    ensures { IfOk result (λ t. string_bytes t ≡ end_lines (stage_machine stage)) }
{
    match stage {
        Stage::Idle(batch) => tally_line(heap, batch.tally()),
        Stage::Open(draw, token) => {
            let number = draw.drawn().number;
            let batch = draw.give_up(token);
            ended_lines(heap, "given up", number, batch.tally())
        }
        Stage::Met(draw, token) => {
            let number = draw.drawn().number;
            let batch = draw.close(token);
            ended_lines(heap, "closed", number, batch.tally())
        }
    }
}

// How a draw ended, and the tally after it.
fn ended_lines(heap: Global, head: &str, number: u32, tally: Tally) -> Result<String, AllocError>
    ensures { IfOk result (λ t. string_bytes t ≡ printed head.now (number ∷ []) ++ tally_line (tally_says tally)) }
{
    let ended = whole_line(heap, head, &[u64::from(number)])?;
    let tally = tally_line(heap, tally)?;
    format!(in heap; "{ended}{tally}")
}
