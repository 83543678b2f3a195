// Counting lawful states by loading every list of cells there is.
use crate::say::{Failed, accepted, made};
use independent_sets::rule::IndependentSets;
use lattice::kind::Kind;
use partitions::rule::Partitions;

// Rows, columns and cap of boxes for plane partitions. MacMahon's formula has their numbers.
const BOXES: [(u64, u64, u64); 8] = [
    (1, 1, 7),
    (2, 2, 1),
    (2, 2, 2),
    (2, 2, 3),
    (2, 3, 1),
    (3, 2, 2),
    (3, 3, 1),
    (3, 3, 2),
];

pub fn show(rt: &HostRuntime) -> Result<(), Failed> {
    for (rows, columns, cap) in BOXES {
        let count = lawful_lists(rt, &accepted(Partitions::new(rows, columns, cap))?)?;
        println!(rt; "partitions {rows} by {columns}, cap {cap}: {count}")?;
    }
    for side in 1..5 {
        let count = lawful_lists(rt, &accepted(IndependentSets::new(side, side, 1))?)?;
        println!(rt; "sets {side} by {side}: {count}")?;
    }
    Ok(())
}

// How many lists of cells from 0 to the cap the rule takes for a state.
fn lawful_lists<K: Kind>(rt: &HostRuntime, rule: &K) -> Result<usize, Failed> {
    let mut state = made(rt, rule)?;
    let mut cells = vec![in rt.alloc(); 0u8; rule.cell_count() as usize]?;
    let cap = rule.cap();
    let lists = (u32::from(cap) + 1)
        .checked_pow(rule.cell_count())
        .ok_or(Failed::Example)?;
    let lawful = (0..lists).filter(|_| {
        let loads = rule.load(&mut state, cells.as_slice()).is_ok();
        count_up(cells.as_mut_slice(), cap);
        loads
    });
    Ok(lawful.count())
}

// The next list of cells from 0 to the cap, the first cell fastest; after the last list the first again.
fn count_up(cells: &mut [u8], cap: u8) {
    for cell in cells.iter_mut() {
        if *cell < cap {
            *cell += 1;
            return;
        }
        *cell = 0;
    }
}
