// One move of a state by a word, with what the word chose.
ghost use Rattle.std.specs.Prelude.{◌≡◌};
ghost use Rattle.lattice.specs.Faults.{state_refusal};
ghost use Rattle.refusal.specs.Refusals.{answer, left_by};
ghost use Rattle.session.specs.Moves.{move_answer, chosen};

use lattice::fault::StateFault;
use lattice::kind::Kind;
use lattice::words::split;

#[derive(Clone, Copy)]
pub struct Move {
    pub site: u32,
    pub level: u32,
}

// Applies the word, and answers the site and the level that it chose.
pub fn move_by<K: Kind>(rule: &K, state: &mut K::State, word: u64) -> Result<Move, StateFault>
    ensures answers { answer chosen state_refusal result ≡ move_answer (K.extent rule.now) (K.carried state.old) word }
    ensures leaves { K.cells state.new ≡ left_by (answer chosen state_refusal result) ((K.meaning rule.now).step word (K.cells state.old)) (K.cells state.old) }
    ensures keeps { K.carried state.new ≡ K.carried state.old }
{
    rule.apply(state, word)?;
    let (site, level) = split(word, rule.cell_count());
    Ok(Move { site, level })
}
