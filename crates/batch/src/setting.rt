// What draws are made with: a rule, and the source of the words that move its states.
use lattice::kind::Kind;
use sources::source::Source;

#[derive(Drop)]
pub struct Setting<'a, K: Kind, S: Source> {
    pub rule: &'a K,
    pub source: &'a S,
}
