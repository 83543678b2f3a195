// The two states of a draw: the one led from the bottom and the one led from the top.
use lattice::fault::StateFault;
use lattice::kind::Kind;
use std::alloc::Global;
use std::marker::Model;

#[derive(Drop)]
pub struct Ends<K: Kind> {
    pub low: K::State,
    pub high: K::State,
}

// The two states of a draw, lent for its calls.
#[derive(Drop)]
pub struct EndsMut<'a, K: Kind> {
    pub low: &'a mut K::State,
    pub high: &'a mut K::State,
}

impl<K: Kind> Model for Ends<K> {
    ghost use Rattle.batch.specs.Ends.{Two, two};

    ghost Value = { Two };

    ghost view = { λ e. two (K.carried e.low) (K.carried e.high) (K.cells e.low) (K.cells e.high) };
}

impl<K: Kind> Ends<K> {
    ghost use Rattle.std.specs.Prelude.{◌≡◌, MatchResult};
    ghost use Rattle.batch.specs.Ends.{two};

    // Both are the bottom.
    pub fn new(heap: Global, rule: &K) -> Result<Ends<K>, StateFault>
        ensures { MatchResult result (λ e. e ≡ two (K.extent rule.now) (K.extent rule.now) (K.meaning rule.now).bottom (K.meaning rule.now).bottom) (λ f. f ≡ StateFault.Memory) }
    {
        Ok(Ends {
            low: rule.new_state(heap)?,
            high: rule.new_state(heap)?,
        })
    }
}
