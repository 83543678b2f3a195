// Batches as a program calls them: draws that meet, stay apart or are refused, the limits of stretches, windows and draws,
// and foreign states. The file stdout has the answers that are expected.
#![tactic(auto)]

mod bench;
mod ends;

use anyhow::anyhow;
use batch::draws::{Batch, Tally};
use batch::fault::Fault;
use bench::{Bench, Call, accepted, refusal_text};
use ends::{end_apart, give_up_next, let_go};
use lattice::kind::Kind;
use partitions::rule::Partitions;
use partitions::state::PlanePartition;
use sources::fault::NoWord;

fn main(rt: HostRuntime) -> anyhow::Result<()> {
    four_words(&rt)?;
    stretches(&rt)?;
    windows(&rt)?;
    all_draws(&rt)?;
    three_words(&rt)?;
    foreign_states(&rt)
}

// Draw 0 goes up twice and meets. Draw 1 goes down, then up: from 0 to 0 and 1, from 2 to 1 and 2. Draw 2 has no words.
fn four_words(rt: &HostRuntime) -> anyhow::Result<()> {
    println!(rt; "height up to 2, stretch 2, words up, up, up, down")?;
    let mut bytes = [0; 32];
    bytes[28] = 0x80;
    let mut bench = Bench::new(rt.alloc(), 2, &bytes)?;
    let mut batch = accepted(Batch::new(2))?;
    for _ in 0..3 {
        batch = bench.draw(rt, batch, &[Call::Run])?;
    }
    finish(rt, batch)
}

fn stretches(rt: &HostRuntime) -> anyhow::Result<()> {
    for stretch in [0, 1, 1 << 20, (1 << 20) + 1] {
        match Batch::new(stretch) {
            Ok(_) => println!(rt; "stretch {stretch}: accepted")?,
            Err(fault) => {
                let refused = refusal_text(rt.alloc(), &fault)?;
                println!(rt; "stretch {stretch}: {refused}")?;
            }
        }
    }
    Ok(())
}

fn windows(rt: &HostRuntime) -> anyhow::Result<()> {
    println!(rt; "height up to 9, stretch 4, four words up")?;
    let calls = [
        Call::Try(0),
        Call::Try(5),
        Call::Try(4),
        Call::Try(4),
        Call::Try(5),
        Call::Run,
    ];
    one_draw(rt, &[0; 32], &calls)
}

// The run's third window, 4, lacks its oldest word; window 3 has all of its words.
fn three_words(rt: &HostRuntime) -> anyhow::Result<()> {
    println!(rt; "height up to 9, stretch 4, three words up")?;
    one_draw(rt, &[0; 24], &[Call::Run, Call::Try(3), Call::Run])
}

// A draw of stretch 4 with heights up to 9.
fn one_draw(rt: &HostRuntime, bytes: &[u8], calls: &[Call]) -> anyhow::Result<()> {
    let mut bench = Bench::new(rt.alloc(), 9, bytes)?;
    let batch = accepted(Batch::new(4))?;
    let batch = bench.draw(rt, batch, calls)?;
    finish(rt, batch)
}

// Gives up all draws of a batch, and opens one more.
fn all_draws(rt: &HostRuntime) -> anyhow::Result<()> {
    let mut batch = accepted(Batch::new(1))?;
    for _ in 0..1u32 << 20 {
        batch = give_up_next(batch);
    }
    match batch.open() {
        Ok((draw, token)) => {
            let_go(end_apart(draw, token));
            Err(anyhow!("one draw too many"))
        }
        Err(full) => {
            let refused = refusal_text(rt.alloc(), &Fault::<NoWord>::Full)?;
            println!(rt; "open after 1048576 draws: {refused}")?;
            finish(rt, full.batch)
        }
    }
}

// Tries and runs refuse a state of another shape, and change nothing.
fn foreign_states(rt: &HostRuntime) -> anyhow::Result<()> {
    println!(rt; "a foreign high state, then a foreign low state")?;
    let wide = accepted(Partitions::new(1, 2, 9))?;
    let mut bench = Bench::new(rt.alloc(), 9, &[0; 8])?;
    let batch = accepted(Batch::new(1))?;
    bench.low = loaded(rt, &bench.rule, &[7])?;
    bench.high = loaded(rt, &wide, &[6, 5])?;
    let batch = bench.draw(rt, batch, &[Call::Try(1), Call::Run])?;
    say_foreign(rt, &wide, &bench.high)?;
    bench.low = loaded(rt, &wide, &[6, 5])?;
    bench.high = loaded(rt, &bench.rule, &[7])?;
    let batch = bench.draw(rt, batch, &[Call::Try(1), Call::Run])?;
    say_foreign(rt, &wide, &bench.low)?;
    finish(rt, batch)
}

fn loaded(rt: &HostRuntime, rule: &Partitions, heights: &[u8]) -> anyhow::Result<PlanePartition> {
    let mut state = accepted(rule.new_state(rt.alloc()))?;
    accepted(rule.load(&mut state, heights))?;
    Ok(state)
}

fn say_foreign(rt: &HostRuntime, rule: &Partitions, state: &PlanePartition) -> anyhow::Result<()> {
    let first = accepted(rule.cell(state, 0))?;
    let second = accepted(rule.cell(state, 1))?;
    println!(rt; "foreign heights {first} {second}")?;
    Ok(())
}

// Prints the tally of a batch, and lets the batch go.
fn finish(rt: &HostRuntime, batch: Batch) -> anyhow::Result<()> {
    let Tally {
        opened,
        met,
        given_up,
    } = batch.tally();
    let_go(batch);
    println!(rt; "tally {opened} {met} {given_up}")?;
    Ok(())
}
