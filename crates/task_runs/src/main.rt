// Carries out each task of data/ that the file `list` names, NAME.task, and compares what it answers with NAME.out.
// A task that stops early has the message as its last line.
#![tactic(auto)]

use session::input::Lines;
use session::stages::carry_out;
use std::io::{BufReader, Write};
use std::{fs, io};

fn main(rt: HostRuntime) -> io::Result<()> {
    let list = fs::read_to_string(&rt, "list")?;
    for name in list.lines() {
        let task = fs::read(&rt, format!(in rt.alloc(); "{name}.task")?)?;
        let expected = fs::read(&rt, format!(in rt.alloc(); "{name}.out")?)?;
        let told = answers(&rt, task.as_slice())?;
        if told == expected {
            println!(rt; "{name}: as expected")?;
        } else {
            println!(rt; "{name}: differs")?;
            rt.stdout().write_all(told.as_slice())?;
        }
    }
    Ok(())
}

fn answers(rt: &HostRuntime, task: &[u8]) -> io::Result<Vec<u8>> {
    let mut out = Vec::new(rt.alloc());
    let mut lines = Lines::new(rt.alloc(), BufReader::new(rt.alloc(), task)?);
    if let Err(stopped) = carry_out(rt, &mut lines, &mut out) {
        writeln!(out, "{stopped}")?;
    }
    Ok(out)
}
