// Even kinds: those whose words lead from any lawful state to another as often as back, so that shares are equal.
ghost use Rattle.lattice.specs.Counts.{Exchanges};

use crate::kind::Kind;

pub trait Even: Kind {
    // Does nothing. Its promise, the exchange law, that as many words lead from a lawful state to another as back, is for
    // the proofs of what calls it. It is owed for rules that exist, and may rest on what the types of their fields hold.
    fn exchanges(&self)
        ensures { Exchanges (Self.Kind.meaning self.now) };
}
