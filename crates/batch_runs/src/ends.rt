// How draws and batches end. A draw ends once, with its token, and as what it is; only an idle batch may be let go.
// tools/refused_moves has two of these lines made wrong, and shows that the check refuses them.
ghost use Rattle.std.specs.Prelude.{◌≡◌, if◌then◌else◌, nat_lt};
ghost use Rattle.batch.specs.Machine.{limit, one_closed, one_given_up, one_opened};
ghost use Rattle.batch.specs.Meanings.{batch_machine, met_machine, open_machine};
ghost use Rattle.batch.specs.declared.outcome.Outcome.TheVariants.{Met, Apart, Refused};

use batch::draws::{Batch, MetDraw, OpenDraw, Token};
use batch::outcome::Outcome;
use sources::fault::NoWord;

// Closes a draw that has met, and gives up any other.
pub fn end(outcome: Outcome<NoWord>, token: Token) -> Batch
    ensures { elim outcome [ Met d ↦ batch_machine result ≡ one_closed (met_machine d) | Apart d ↦ batch_machine result ≡ one_given_up (open_machine d) | Refused d f ↦ batch_machine result ≡ one_given_up (open_machine d) ] }
{
    match outcome {
        Outcome::Met(draw) => MetDraw::close(draw, token),
        Outcome::Apart(draw) | Outcome::Refused(draw, _) => end_apart(draw, token),
    }
}

// A draw that has not met can be given up, and not closed: it is an open draw, and closing takes one that has met.
pub fn end_apart(draw: OpenDraw, token: Token) -> Batch
    ensures { batch_machine result ≡ one_given_up (open_machine draw) }
{
    OpenDraw::give_up(draw, token)
}

// Opens a draw and gives it up, or leaves the batch as it is once there are no more.
pub fn give_up_next(batch: Batch) -> Batch
    ensures { batch_machine result ≡ (if nat_lt (batch_machine batch).opened limit then one_given_up (one_opened (batch_machine batch)) else batch_machine batch) }
{
    match batch.open() {
        Ok((draw, token)) => end_apart(draw, token),
        Err(full) => full.batch,
    }
}

// An idle batch may be let go. Once it is opened, the draw and the token have to be brought to an end.
pub fn let_go(batch: Batch) {
    let _idle = batch;
}
