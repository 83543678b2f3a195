// A table of nine thresholds that never falls, one for each sum of neighbours from -4 to 4.
ghost use Rattle.spins.specs.Table.{Rises};

mod methods;

// A threshold for each index.
pub type NineThresholds = [u64; 9];

#[derive(Clone, Copy)]
pub struct Thresholds {
    values: NineThresholds,
    ghost rises: { Rises values 9 },
}
