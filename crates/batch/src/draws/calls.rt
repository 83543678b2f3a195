// Opening, closing and giving up draws.
ghost use Rattle.std.specs.Prelude.{◌≡◌, ◌+◌, ◌≤◌};
ghost use Rattle.batch.specs.Faults.{stretch_refusal};
ghost use Rattle.batch.specs.Machine.{left_after, limit, new_answer, one_closed, one_given_up, open_answer};
ghost use Rattle.batch.specs.Meanings.{batch_machine, left_by_open, met_machine, open_machine, opened_as};
ghost use Rattle.refusal.specs.Refusals.{answer};

use crate::draws::{Batch, MetDraw, OpenDraw, Tally, Token};
use crate::fault::{Full, StretchFault};

// The largest stretch, and the largest number of draws of a batch.
const LIMIT: u32 = 1 << 20;

impl Batch {
    // A batch with this stretch, and no draw yet.
    pub fn new(stretch: u64) -> Result<Batch, StretchFault>
        ensures { answer batch_machine (λ _. stretch_refusal) result ≡ new_answer stretch }
    {
        match u32::try_from(stretch) {
            Ok(stretch @ 1..=LIMIT) => Ok(Batch {
                stretch,
                tally: Tally {
                    opened: 0,
                    met: 0,
                    given_up: 0,
                },
            }),
            _ => Err(StretchFault),
        }
    }

    // The next draw, with the token that ends it; or the batch back, once all its draws have been opened.
    pub fn open(self) -> Result<(OpenDraw, Token), Full>
        ensures answers { opened_as result ≡ open_answer (batch_machine self) }
        ensures leaves { left_by_open result ≡ left_after (open_answer (batch_machine self)) (batch_machine self) }
    {
        if self.tally.opened >= LIMIT {
            return Err(Full { batch: self });
        }
        let draw = OpenDraw {
            batch: self,
            tried: 0,
        };
        Ok((draw, Token { _private: () }))
    }
}

impl MetDraw {
    // Ends the draw as met.
    pub fn close(self, token: Token) -> Batch
        ensures { batch_machine result ≡ one_closed (met_machine self) }
    {
        let MetDraw { draw } = self;
        let tally = draw.batch.tally.with_draw();
        let closed = Tally {
            met: tally.met + 1,
            ..tally
        };
        draw.ended(token, closed)
    }
}

impl OpenDraw {
    // Ends the draw as given up.
    pub fn give_up(self, token: Token) -> Batch
        ensures { batch_machine result ≡ one_given_up (open_machine self) }
    {
        let tally = self.batch.tally.with_draw();
        let given_up = Tally {
            given_up: tally.given_up + 1,
            ..tally
        };
        self.ended(token, given_up)
    }

    // The batch back, with the tally after the draw.
    fn ended(self, token: Token, tally: Tally) -> Batch
        requires few { tally.opened ≤ limit }
        requires fair { tally.opened ≡ tally.met + tally.given_up }
        ensures stretch { result.stretch ≡ self.batch.stretch }
        ensures tally { result.tally ≡ tally }
    {
        let Token { _private } = token;
        let OpenDraw { batch, tried: _ } = self;
        Batch {
            stretch: batch.stretch,
            tally,
        }
    }
}
