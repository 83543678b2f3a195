// What a try or a run comes to, each case with its draw.
use crate::draws::{MetDraw, OpenDraw};
use crate::fault::Fault;

pub enum Outcome<F: Drop> {
    // Both ends are equal: both states hold the sample.
    Met(MetDraw),
    // The states hold the two ends.
    Apart(OpenDraw),
    // Why the call was refused.
    Refused(OpenDraw, Fault<F>),
}
