// A batch in whatever stage it is, and the requests that move it from one to the next.
use crate::draws::{Batch, MetDraw, OpenDraw, Token};
use crate::fault::Fault;

mod requests;

pub enum Stage {
    Idle(Batch),
    Open(OpenDraw, Token),
    Met(MetDraw, Token),
}

#[derive(Clone, Copy)]
pub enum Request {
    Open,
    Try(u64),
    Run,
    Close,
    GiveUp,
}

#[derive(Drop)]
pub enum Reply<F: Drop> {
    Opened,
    // Of a try or a run.
    Met,
    Apart,
    Closed,
    GivenUp,
    Refused(Fault<F>),
    // The request does not fit the stage, and nothing was done.
    Misplaced,
}

// The draw that is out: its number, and the largest window tried on it, or 0.
#[derive(Clone, Copy)]
pub struct Drawn {
    pub number: u32,
    pub window: u32,
}
