// Compares the counter generator with the words that Java's SplittableRandom printed. Each line of the file has a seed,
// a place and the word there; tools/splitmix/Words.java makes such a file.
#![tactic(auto)]

use sources::counter::Counter;
use sources::source::Source;
use std::alloc::{AllocError, Global};
use std::{fs, io};
use task::numerals::{hex_bytes, number};
use task::words::Words;

// Why the program ends with status 1. Standard error names the case.
#[derive(Debug, Drop)]
enum Failed {
    Memory,
    Io(io::Error),
    // A line is no seed, place and word.
    Unreadable,
    // A word is another than the generator's.
    Differs,
}

impl From<AllocError> for Failed {
    fn from(_error: AllocError) -> Failed {
        Failed::Memory
    }
}

impl From<io::Error> for Failed {
    fn from(error: io::Error) -> Failed {
        Failed::Io(error)
    }
}

fn main(rt: HostRuntime) -> Result<(), Failed> {
    let text = fs::read_to_string(&rt, "words.txt")?;
    for line in text.lines() {
        if !agrees(rt.alloc(), line)? {
            return Err(Failed::Differs);
        }
    }
    println!(rt; "{} words agree", text.lines().count())?;
    Ok(())
}

// Whether the generator has the word of this line.
fn agrees(heap: Global, line: &str) -> Result<bool, Failed> {
    let mut words = Words::new(line.as_bytes());
    let seed = next_number(&mut words)?;
    let place = next_number(&mut words)?;
    let digits = words.next_word().ok_or(Failed::Unreadable)?;
    let word = hex_bytes(heap, digits)?.ok_or(Failed::Unreadable)?;
    let own = Counter::new(seed)
        .word(place)
        .map_err(|_| Failed::Unreadable)?;
    Ok(own.to_be_bytes().as_slice() == word.as_slice())
}

fn next_number(words: &mut Words) -> Result<u64, Failed> {
    words.next_word().and_then(number).ok_or(Failed::Unreadable)
}
