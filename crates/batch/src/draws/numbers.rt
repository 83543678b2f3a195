// What batches and draws answer about themselves: the stretch, the tally, and the draw that is out.
ghost use Rattle.std.specs.Prelude.{◌≡◌, ◌+◌, ◌<◌};
ghost use Rattle.batch.specs.Machine.{counts, limit};
ghost use Rattle.batch.specs.Meanings.{batch_machine, drawn_says, met_machine, met_one, open_machine, open_one, tally_says};

use crate::draws::{Batch, MetDraw, OpenDraw, Tally};
use crate::stage::Drawn;

impl Batch {
    // How many places each draw has.
    pub fn stretch(&self) -> u32
        ensures { result ≡ (batch_machine self.now).stretch }
    {
        self.stretch
    }

    pub fn tally(&self) -> Tally
        ensures { tally_says result ≡ counts (batch_machine self.now) }
    {
        self.tally
    }
}

impl Tally {
    // The tally while a draw is out, which has been opened too.
    pub(super) fn with_draw(self) -> Tally
        requires { self.opened < limit }
        ensures { result ≡ record self { opened = self.opened + 1 } }
    {
        Tally {
            opened: self.opened + 1,
            ..self
        }
    }
}

impl OpenDraw {
    // The draw's number, and the largest window tried on it, or 0.
    pub fn drawn(&self) -> Drawn
        ensures { drawn_says result ≡ open_one self.now }
    {
        Drawn {
            number: self.batch.tally.opened,
            window: self.tried,
        }
    }

    pub(crate) fn tally(&self) -> Tally
        ensures { tally_says result ≡ counts (open_machine self.now) }
    {
        self.batch.tally.with_draw()
    }
}

impl MetDraw {
    // The draw's number, and the window that met.
    pub fn drawn(&self) -> Drawn
        ensures { drawn_says result ≡ met_one self.now }
    {
        self.draw.drawn()
    }

    pub(crate) fn tally(&self) -> Tally
        ensures { tally_says result ≡ counts (met_machine self.now) }
    {
        self.draw.tally()
    }
}
