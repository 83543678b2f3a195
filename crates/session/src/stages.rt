// Carries out a task from its first line to its stretch: the rule, the source, and what is asked before there is a batch.
// A task that stops before its end is answered with the line at which it did.
ghost use Rattle.std.specs.Prelude.{◌≡◌, IsUtf8, MatchResult};

use crate::batches::Work;
use crate::console::Console;
use crate::drawable::Drawable;
use crate::input::Lines;
use crate::print::{rule_line, source_line};
use crate::progress::Progress;
use crate::rules::{AnyRule, SourceGiven, given_rule, given_source};
use crate::stage::Stage;
use crate::trouble::{Stopped, Trouble};
use batch::ends::Ends;
use batch::setting::Setting;
use sources::recording::Recording;
use sources::source::Source;
use std::fs;
use std::io::{Read, Write};
use task::line::Directive;

// Carries out a task from its first line on.
pub fn carry_out<R: Read + Drop, W: Write>(
    rt: &HostRuntime,
    lines: &mut Lines<R>,
    out: &mut W,
) -> Result<(), Stopped> {
    carry_out_showing(rt, lines, out, Progress::Hidden)
}

// The same, with draws counted on standard error where that is wanted.
pub fn carry_out_showing<R: Read + Drop, W: Write>(
    rt: &HostRuntime,
    lines: &mut Lines<R>,
    out: &mut W,
    progress: Progress,
) -> Result<(), Stopped> {
    let mut console = Console {
        rt,
        lines: &mut *lines,
        out,
        progress,
    };
    console.from_start().map_err(|trouble| Stopped {
        line: lines.line_number(),
        trouble,
    })
}

// A path as text.
fn text_of(path: &[u8]) -> Result<&str, Trouble>
    ensures { MatchResult result (λ text. text.now ≡ path.now) (λ e. (IsUtf8 path.now → ⊥) × (e ≡ Trouble.NoText)) }
{
    std::str::from_utf8(path).map_err(|_| Trouble::NoText)
}

impl<R: Read + Drop, W: Write> Console<'_, '_, '_, R, W> {
    fn from_start(&mut self) -> Result<(), Trouble> {
        let Some(directive) = self.lines.next_allowed(Stage::Start)? else {
            return Ok(());
        };
        let given = given_rule(&directive).ok_or(Trouble::Misplaced)?;
        match self.granted(given)? {
            Some(AnyRule::Spins(rule)) => self.after_rule(&rule),
            Some(AnyRule::Partitions(rule)) => self.after_rule(&rule),
            Some(AnyRule::Sets(rule)) => self.after_rule(&rule),
            None => Ok(()),
        }
    }

    // From the rule on, until the source is given.
    fn after_rule<K: Drawable>(&mut self, rule: &K) -> Result<(), Trouble> {
        let Some(ends) = self.granted(Ends::new(self.rt.alloc(), rule))? else {
            return Ok(());
        };
        self.say(rule_line(self.rt.alloc(), rule)?)?;
        for _ in 0..u64::MAX {
            match self.lines.next_allowed(Stage::Ruled)? {
                Some(Directive::States) => self.say_states(rule, &ends)?,
                Some(directive) => return self.with_source(rule, ends, directive),
                None => return Ok(()),
            }
        }
        Ok(())
    }

    fn with_source<K: Drawable>(
        &mut self,
        rule: &K,
        ends: Ends<K>,
        directive: Directive,
    ) -> Result<(), Trouble> {
        match given_source(directive).ok_or(Trouble::Misplaced)? {
            SourceGiven::Counter(counter) => self.with_words(rule, ends, &counter),
            SourceGiven::Bytes(bytes) => self.with_bytes(rule, ends, bytes.as_slice()),
            SourceGiven::File(path) => {
                let bytes = fs::read(self.rt, text_of(path.as_slice())?)?;
                self.with_bytes(rule, ends, bytes.as_slice())
            }
        }
    }

    fn with_bytes<K: Drawable>(
        &mut self,
        rule: &K,
        ends: Ends<K>,
        bytes: &[u8],
    ) -> Result<(), Trouble> {
        let Some(recording) = self.granted(Recording::new(bytes))? else {
            return Ok(());
        };
        self.with_words(rule, ends, &recording)
    }

    fn with_words<K: Drawable, S: Source>(
        &mut self,
        rule: &K,
        ends: Ends<K>,
        source: &S,
    ) -> Result<(), Trouble> {
        let setting = Setting { rule, source };
        self.after_source(Work { setting, ends })
    }

    // From the source on, until the stretch is given.
    fn after_source<K: Drawable, S: Source>(
        &mut self,
        mut work: Work<K, S>,
    ) -> Result<(), Trouble> {
        self.say(source_line(self.rt.alloc(), work.setting.source)?)?;
        for _ in 0..u64::MAX {
            match self.lines.next_allowed(Stage::Sourced)? {
                Some(Directive::Trace(back)) => self.say_moves(&work.setting, back)?,
                Some(Directive::States) => self.say_states(work.setting.rule, &work.ends)?,
                Some(Directive::Stretch(stretch)) => {
                    return self.after_stretch(&mut work, stretch);
                }
                Some(_) => return Err(Trouble::Misplaced),
                None => return Ok(()),
            }
        }
        Ok(())
    }
}
