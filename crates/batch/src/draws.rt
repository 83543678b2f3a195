// The batch, its draws and the token. They are moved from call to call, and only the calls of this crate make them.
ghost use Rattle.std.specs.Prelude.{◌≡◌, ◌+◌, ◌<◌, ◌≤◌};
ghost use Rattle.batch.specs.Machine.{limit};

mod calls;
mod numbers;
mod runs;
mod tries;
mod windows;

// An idle batch: no draw is out. It may be let go.
#[derive(Drop)]
pub struct Batch {
    // How many places each draw has.
    stretch: u32,
    tally: Tally,
    ghost some: { 1 ≤ stretch },
    ghost fits: { stretch ≤ limit },
    ghost few: { tally.opened ≤ limit },
    ghost fair: { tally.opened ≡ tally.met + tally.given_up },
}

// A draw that has not met. It may not be let go.
pub struct OpenDraw {
    // The batch as it was before the draw, whose number is the count of draws opened then.
    batch: Batch,
    // The largest window tried, 0 at first.
    tried: u32,
    ghost few: { batch.tally.opened < limit },
    ghost fits: { tried ≤ batch.stretch },
}

// A draw that has met, in the window that was tried last. It may not be let go.
pub struct MetDraw {
    draw: OpenDraw,
    ghost some: { 1 ≤ draw.tried },
}

// Goes with a draw, and is given back where the draw ends.
pub struct Token {
    _private: (),
}

// How many draws of a batch were opened, how many of them closed as met, and how many given up.
#[derive(Clone, Copy)]
pub struct Tally {
    pub opened: u32,
    pub met: u32,
    pub given_up: u32,
}
