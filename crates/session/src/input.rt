// The directives of a task, one after another, with the number of the line that is being read.
ghost use Rattle.std.specs.Prelude.{◌≡◌, true, ◌⊎◌, Ok, Some, IfSome, IfOk, Err, vec_items};
ghost use Rattle.session.specs.Stages.{allowed, counted, line_answer, line_read};
ghost use Rattle.std.specs.Option as Options;
ghost use Rattle.std.specs.Result as Results;
ghost use Rattle.task.specs.Lines.{line_meaning, request_of};

use crate::stage::Stage;
use crate::trouble::Trouble;
use std::alloc::Global;
use std::io::{BufRead, BufReader, Read};
use task::line::{Directive, read_line};

#[derive(Drop)]
pub struct Lines<R: Drop> {
    heap: Global,
    reader: BufReader<R>,
    // How many lines were read.
    count: u64,
}

impl<R: Read + Drop> Lines<R> {
    pub fn new(heap: Global, reader: BufReader<R>) -> Lines<R>
        ensures { result.count ≡ 0 }
    {
        Lines {
            heap,
            reader,
            count: 0,
        }
    }

    // The number of the line that was read last, counted from 1.
    pub fn line_number(&self) -> u64
        ensures { result ≡ self.now.count }
    {
        self.count
    }

    // The next directive, or none at the end of the text.
    pub fn next_directive(&mut self) -> Result<Option<Directive>, Trouble> {
        let heap = self.heap;
        self.next_read(|line| Ok(read_line(heap, line)?))
    }

    // The next directive, if the stage allows it, or none at the end of the text.
    pub fn next_allowed(&mut self, stage: Stage) -> Result<Option<Directive>, Trouble>
        ensures { IfOk result (λ o. IfSome o (λ d. allowed (request_of d) stage ≡ true)) }
    {
        let heap = self.heap;
        self.next_read(|line| directive_on(heap, stage, line))
    }

    // What is read of the next line that says something, or none at the end of the text.
    fn next_read<F: Fn(&[u8]) -> Result<Option<Directive>, Trouble>>(
        &mut self,
        read: F,
    ) -> Result<Option<Directive>, Trouble>
        requires { F.IsAlwaysCallable read }
        ensures { IfOk result (λ o. IfSome o (λ d. (line : _) × F.post read line (Ok (Some d)))) }
    {
        for _ in 0..u64::MAX {
            let Some(line) = self.next_line()? else {
                return Ok(None);
            };
            if let Some(directive) = read(line.as_slice())? {
                return Ok(Some(directive));
            }
        }
        Ok(None)
    }

    // The next line, or none at the end of the text.
    fn next_line(&mut self) -> Result<Option<Vec<u8>>, Trouble>
        ensures { IfOk result (λ o. self.new.count ≡ counted o self.old.count) }
    {
        let mut bytes = Vec::new(self.heap);
        let _ = self.reader.read_until(b'\n', &mut bytes)?;
        let line = line_of(bytes);
        if line.is_some() {
            self.count = self.count.saturating_add(1);
        }
        Ok(line)
    }
}

// The line without its newline; none where no byte was read, which is at the end of the text.
fn line_of(mut bytes: Vec<u8>) -> Option<Vec<u8>>
    ensures { Options.option_map vec_items result ≡ line_read bytes.items }
{
    match bytes.last().copied() {
        None => return None,
        Some(b'\n') => {
            let _ = bytes.pop();
        }
        Some(_) => {}
    }
    Some(bytes)
}

// The directive on a line, if there is one.
fn directive_on(heap: Global, stage: Stage, line: &[u8]) -> Result<Option<Directive>, Trouble>
    ensures { (Results.result_map_both (Options.option_map request_of) (λ e. e) result ≡ line_answer stage (line_meaning line.now)) ⊎ (result ≡ Err Trouble.Memory) }
{
    let directive = read_line(heap, line)?;
    if let Some(directive) = &directive
        && !stage.allows(directive)
    {
        return Err(Trouble::Misplaced);
    }
    Ok(directive)
}
