// States: which belong to a rule, and loading cells.
use crate::rules::FLAT;
use crate::say::{Failed, accepted, made, say};
use lattice::kind::Kind;
use spins::rule::Spins;
use task::answers::numbers_line;

pub fn show(rt: &HostRuntime) -> Result<(), Failed> {
    let square = accepted(Spins::from_numbers(2, 2, 1, FLAT))?;
    let row = accepted(Spins::from_numbers(1, 4, 1, FLAT))?;
    foreign(rt, &square, &row)?;
    loads(rt, &accepted(Spins::from_numbers(2, 3, 1, FLAT))?)
}

// A state of the rule `other`, handed to `rule`.
fn foreign<K: Kind>(rt: &HostRuntime, rule: &K, other: &K) -> Result<(), Failed> {
    let mut own = made(rt, rule)?;
    let mut state = made(rt, other)?;
    say(rt, "bottom of a foreign state", rule.set_bottom(&mut state))?;
    say(rt, "top of a foreign state", rule.set_top(&mut state))?;
    say(rt, "word to a foreign state", rule.apply(&mut state, 0))?;
    say(rt, "cell 9 of a foreign state", rule.cell(&state, 9))?;
    say(rt, "cells into a foreign state", rule.load(&mut state, b""))?;
    say(rt, "own state and a foreign one", rule.equal(&own, &state))?;
    say(rt, "a foreign state and an own", rule.equal(&state, &own))?;
    say(rt, "word to its own state", rule.apply(&mut own, 0))?;
    say(rt, "cell 3 of four", rule.cell(&own, 3))?;
    say(rt, "cell 4 of four", rule.cell(&own, 4))
}

// Six cells, of which one after the other is no spin.
fn loads<K: Kind>(rt: &HostRuntime, rule: &K) -> Result<(), Failed> {
    let mut state = made(rt, rule)?;
    say(rt, "six cells", rule.load(&mut state, &[1, 0, 1, 1, 0, 1]))?;
    say(
        rt,
        "seven bytes",
        rule.load(&mut state, &[1, 1, 1, 1, 0, 1, 7]),
    )?;
    say(rt, "five bytes", rule.load(&mut state, &[1, 0, 1, 1, 0]))?;
    for bad in 0..6 {
        let mut bytes = [1, 0, 1, 0, 1, 0];
        bytes[bad] = 2;
        say(rt, "a cell that is 2", rule.load(&mut state, &bytes))?;
    }
    say_cells(rt, rule, &state)
}

fn say_cells<K: Kind>(rt: &HostRuntime, rule: &K, state: &K::State) -> Result<(), Failed> {
    let cells: Vec<u64> = (0..6)
        .map(|cell| accepted(rule.cell(state, cell)).map(u64::from))
        .try_collect(rt.alloc())?;
    let line = numbers_line(rt.alloc(), "state", cells.as_slice())?;
    println!(rt; "{line}")?;
    Ok(())
}
