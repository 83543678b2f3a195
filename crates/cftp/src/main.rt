// The program: finds the task, has it carried out, and says how that ended.
#![tactic(auto)]

use session::input::Lines;
use session::progress::Progress;
use session::stages::carry_out_showing;
use session::trouble::Stopped;
use std::fs::File;
use std::io::{BufReader, Read};
use std::process::ExitCode;
use std::{env, fmt, fs, io};

const HELP: &str = "cftp: exact random states of lattice models

usage: cftp [--progress] [FILE]
                        carry out the task in FILE, or on standard input;
                        with --progress, count draws on standard error
       cftp --help      print this text

A task has one directive a line:
  spins ROWS COLUMNS T0 T1 T2 T3 T4 T5 T6 T7 T8
                        the rule: a spin grid with its nine thresholds
  partitions ROWS COLUMNS CAP
                        the rule: plane partitions with heights up to CAP
  sets ROWS COLUMNS     the rule: independent sets
  seed N                the source: the counter generator with this seed
  recording HEX         the source: these bytes, eight a word
  recording-file PATH   the source: the bytes of a file
  trace T               move the bottom by the words of places T .. 1
  stretch S             a batch of draws, with S places of the source each
  open                  begin the next draw
  try T                 move bottom and top by the words of its places T .. 1
  run                   try 1, 2, 4, 8 .. and at last S, until the two meet
  close                 end a draw that has met
  give-up               end a draw that has not met
  draws N               N times: open, run, and close or give-up
  states                print the two states
  tally                 print how many draws were opened, met and given up
Empty lines and lines that begin with # are skipped. docs/TASKS.md has the whole of it.";

// Why the program ends with status 1.
#[derive(Drop)]
enum Failure {
    Usage,
    // The file at the path cannot be opened.
    Unopened { path: String, error: io::Error },
    // The task stopped before its end.
    Stopped(Stopped),
    // The arguments, the output or memory failed.
    Io(io::Error),
}

impl From<io::Error> for Failure {
    fn from(error: io::Error) -> Failure {
        Failure::Io(error)
    }
}

impl fmt::Display for Failure {
    fn fmt<W: fmt::Write>(&self, f: &mut fmt::Formatter<W>) -> fmt::Result {
        match self {
            Failure::Usage => write!(f, "usage: cftp [--progress] [FILE]"),
            Failure::Unopened { path, error } => write!(f, "{path}: {error}"),
            Failure::Stopped(stopped) => write!(f, "{stopped}"),
            Failure::Io(error) => write!(f, "{error}"),
        }
    }
}

fn main(rt: HostRuntime) -> ExitCode {
    match begin(&rt) {
        Ok(()) => ExitCode::SUCCESS,
        // Only the status tells of these, as it does where a message cannot be printed.
        Err(Failure::Io(_)) => ExitCode::FAILURE,
        Err(failure) => {
            let _ = eprintln!(rt; "{failure}");
            ExitCode::FAILURE
        }
    }
}

fn begin(rt: &HostRuntime) -> Result<(), Failure> {
    let mut args = env::args(rt)?.skip(1).peekable();
    let progress = match args.next_if(|word| word.as_str() == "--progress") {
        Some(_) => Progress::Shown,
        None => Progress::Hidden,
    };
    let path = args.next();
    if args.next().is_some() {
        return Err(Failure::Usage);
    }
    match path {
        None => perform(rt, progress, BufReader::new(rt.alloc(), rt.stdin())?),
        Some(path) if path.as_str() == "--help" => Ok(println!(rt; "{HELP}")?),
        Some(path) => perform(rt, progress, BufReader::new(rt.alloc(), opened(rt, path)?)?),
    }
}

fn opened(rt: &HostRuntime, path: String) -> Result<File, Failure> {
    fs::open(rt, path.as_str()).map_err(|error| Failure::Unopened { path, error })
}

fn perform<R: Read + Drop>(
    rt: &HostRuntime,
    progress: Progress,
    reader: BufReader<R>,
) -> Result<(), Failure> {
    let mut lines = Lines::new(rt.alloc(), reader);
    carry_out_showing(rt, &mut lines, &mut rt.stdout(), progress).map_err(Failure::Stopped)
}
