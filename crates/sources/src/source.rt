// The interface of every source of words. Places are counted from 1, and no call changes the source.
ghost use Rattle.std.specs.Prelude.{◌≡◌, ◌^◌, ◌<◌};
ghost use Rattle.refusal.specs.Refusals.{answer};
ghost use Rattle.sources.specs.Sources.{Reading, Sound, word_answer};

use refusal::Cause;

pub trait Source {
    // Why the source gives no word.
    type Fault: Cause + Drop;

    // How many words it has, and which.
    ghost reading: { Self → Reading };

    // How many words it has.
    fn depth(&self) -> u64
        ensures value { result ≡ (reading self.now).depth }
        ensures fits { result < 2 ^ 64 };

    fn word(&self, place: u64) -> Result<u64, Self::Fault>
        ensures { answer (λ w. w) Self.Fault.Cause.refusal result ≡ word_answer (reading self.now) place };

    // Does nothing. Its promise, that every word fits 64 bits, is for the proofs of what calls it. It is owed for sources
    // that exist, and may rest on what the types of their fields hold.
    fn sound(&self)
        ensures { Sound (reading self.now) };
}
