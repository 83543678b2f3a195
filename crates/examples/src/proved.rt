// Examples whose answers are proved, each as one statement about the calls that it makes.
ghost use Rattle.std.specs.Prelude.{◌≡◌, [], ◌∷◌, MatchResult};
ghost use Rattle.examples.specs.Frozen.{AlwaysApart};
ghost use Rattle.examples.specs.Windows.{MeetsAtTheThird};
ghost use Rattle.spins.specs.Spin.{spins_meaning};
ghost use Rattle.spins.specs.Spins.{spins_extent, spins_table};

use lattice::words::split;
use spins::fault::SpinsFault;
use spins::rule::Spins;

// The first, a middle and the last word, for six cells.
pub fn six_cells() -> [(u32, u32); 3]
    ensures { result ≡ (0, 0) ∷ (3, 0) ∷ (5, 4294967295) ∷ [] }
{
    [
        split(0, 6),
        split(0x8000_0000_0000_0000, 6),
        split(0xffff_ffff_ffff_ffff, 6),
    ]
}

// Two spins that follow one another: with the other down a spin goes down, with the other up it goes up. No window meets.
#[tactic(auto, using(crate::proofs::Frozen::always_apart, crate::proofs::Frozen::faultless))]
pub fn frozen_spins() -> Result<Spins, SpinsFault>
    ensures { MatchResult result (λ k. AlwaysApart (spins_meaning (spins_extent k) (spins_table k))) (λ _. ⊥) }
{
    let half = 1 << 31;
    let all = 1 << 32;
    Spins::from_numbers(1, 2, 1, [0, 0, 0, 0, half, all, all, all, all])
}

// One height that moves up, up and down: the runs from 0 and 2 are together after the second move, and the sample is
// where they are at time zero. Does nothing; its promise is the example.
#[tactic(auto, unfolding(coupling::specs::Windows::window_words))]
pub fn meets_at_the_third_window()
    ensures { MeetsAtTheThird }
{}
