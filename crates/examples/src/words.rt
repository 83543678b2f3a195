// Words: the split, recordings and the counter generator.
use crate::proved::six_cells;
use crate::say::{Failed, accepted, say, say_refused};
use sources::counter::Counter;
use sources::recording::Recording;
use sources::source::Source;

pub fn show(rt: &HostRuntime) -> Result<(), Failed> {
    for (site, level) in six_cells() {
        println!(rt; "site {site} level {level}")?;
    }
    recordings(rt)?;
    generator(rt)
}

fn recordings(rt: &HostRuntime) -> Result<(), Failed> {
    say(rt, "recording of 8 bytes", Recording::new(b"12345678"))?;
    say(rt, "recording of 7 bytes", Recording::new(b"1234567"))?;
    say(rt, "recording of 0 bytes", Recording::new(b""))?;
    let zeros = vec![in rt.alloc(); 0u8; 8_388_616]?;
    recording(rt, "recording of 8388608 bytes", &zeros[0..8_388_608])?;
    recording(rt, "recording of 8388616 bytes", &zeros[0..8_388_616])?;
    // Its two words, and the places before the first and after the last.
    let bytes = b"\x00\x00\x00\x00\x00\x00\x01\x02\xff\x00\x00\x00\x00\x00\x00\x00";
    say_words(rt, "a recording", &accepted(Recording::new(bytes))?)
}

fn recording(rt: &HostRuntime, what: &str, bytes: &[u8]) -> Result<(), Failed> {
    say(rt, what, Recording::new(bytes))
}

fn generator(rt: &HostRuntime) -> Result<(), Failed> {
    let counter = Counter::new(0);
    say_words(rt, "the generator", &counter)?;
    say(
        rt,
        "place 1099511627776 of the generator",
        counter.word(1 << 40),
    )?;
    say(
        rt,
        "place 1099511627777 of the generator",
        counter.word((1 << 40) + 1),
    )
}

// The words at places 0 to 3, in hex.
fn say_words<S: Source>(rt: &HostRuntime, name: &str, source: &S) -> Result<(), Failed> {
    for place in 0..4 {
        let what = format!(in rt.alloc(); "place {place} of {name}")?;
        match source.word(place) {
            Ok(word) => println!(rt; "{what}: {word:016x}")?,
            Err(fault) => say_refused(rt, what.as_str(), &fault)?,
        }
    }
    Ok(())
}
