// The words of a line, one after another, and what is left of it.
ghost use Rattle.std.specs.Prelude.{◌≡◌, reverse, drop};
ghost use Rattle.std.specs.Option.{option_map};
ghost use Rattle.std.specs.List.{prefix_len};
ghost use Rattle.task.specs.Laws.{Spaced, Trims};
ghost use Rattle.task.specs.Text.{after_word, blank, first, left, past, solid, trimmed, words};

// What is left of a line.
#[derive(Drop)]
pub struct Words<'a> {
    rest: &'a [u8],
}

impl<'a> Words<'a> {
    pub fn new(line: &'a [u8]) -> Words<'a>
        ensures all { left result ≡ line.now }
        ensures law { Spaced line.now (words (left result)) }
    {
        Words { rest: line }
    }

    // The next word, which is left no more.
    pub fn next_word(&mut self) -> Option<&'a [u8]>
        ensures word { option_map (λ x. x.now) result ≡ first (words (left self.old)) }
        ensures rest { left self.new ≡ after_word (left self.old) }
        ensures more { words (left self.new) ≡ drop 1 (words (left self.old)) }
    {
        let text = trim_start(self.rest);
        let (word, rest) = text.split_at(word_len(text));
        self.rest = rest;
        if word.is_empty() { None } else { Some(word) }
    }

    // All that is left, without the blanks at its ends.
    #[tactic(auto, using(crate::proofs::Ends::trimmed_text))]
    pub fn trimmed(self) -> &'a [u8]
        ensures value { result.now ≡ trimmed (left self.entry) }
        ensures law { Trims (left self.entry) result.now }
    {
        trim_end(trim_start(self.rest))
    }
}

fn is_blank(byte: u8) -> bool
    ensures { result ≡ blank byte }
{
    matches!(byte, b' ' | b'\t' | b'\r')
}

fn trim_start(text: &[u8]) -> &[u8]
    ensures { result.now ≡ past blank text.now }
{
    let blanks = text.iter().take_while(|byte| is_blank(**byte)).count();
    &text[blanks..]
}

// Not inlined: inside its callers the loop has no register left for the text, and takes half as long again.
#[inline(never)]
fn trim_end(text: &[u8]) -> &[u8]
    ensures { result.now ≡ reverse (past blank (reverse text.now)) }
{
    let blanks = text
        .iter()
        .rev()
        .take_while(|byte| is_blank(**byte))
        .count();
    &text[..text.len() - blanks]
}

// How many bytes stand before the first blank.
fn word_len(text: &[u8]) -> usize
    ensures { result ≡ prefix_len solid text.now }
{
    text.iter().take_while(|byte| !is_blank(**byte)).count()
}
