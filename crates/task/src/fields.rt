// What stands behind a directive's name: numbers, bytes in hex, or a path.
ghost use Rattle.std.specs.Prelude.{◌≡◌, [], ◌∷◌, drop, vec_items};
ghost use Rattle.task.specs.Fields.{UnlessMemory, at_end, bytes_due, number_due, numbers_due, path_due, read_as};
ghost use Rattle.task.specs.Text.{left, trimmed, words};

use crate::line::{Expected, LineFault};
use crate::numerals::{hex_bytes, number};
use crate::words::Words;
use std::alloc::Global;

// Just `N` numbers.
pub fn numbers<const N: usize>(mut rest: Words) -> Result<[u64; N], Expected>
    ensures { result ≡ numbers_due N (words (left rest.entry)) }
{
    let mut found = [0; N];
    for slot in found.iter_mut() {
        *slot = next_number(&mut rest)?;
    }
    end(rest)?;
    Ok(found)
}

// Just one number.
pub(crate) fn one_number(rest: Words) -> Result<u64, Expected>
    ensures { read_as (λ n. n ∷ []) result ≡ numbers_due 1 (words (left rest.entry)) }
{
    let [number] = numbers::<1>(rest)?;
    Ok(number)
}

// Just one word of bytes in hex.
pub fn bytes(heap: Global, mut rest: Words) -> Result<Vec<u8>, LineFault>
    ensures { UnlessMemory (read_as vec_items) result (bytes_due (words (left rest.entry))) }
{
    let word = rest.next_word().ok_or(Expected::Hex)?;
    let bytes = hex_bytes(heap, word)?.ok_or(Expected::Hex)?;
    end(rest)?;
    Ok(bytes)
}

// The rest of the line, which is not empty.
pub fn path(heap: Global, rest: Words) -> Result<Vec<u8>, LineFault>
    ensures { UnlessMemory (read_as vec_items) result (path_due (trimmed (left rest.entry))) }
{
    let path = rest.trimmed();
    if path.is_empty() {
        return Err(LineFault::Expected(Expected::Path));
    }
    Ok(path.to_vec(heap)?)
}

// No word is left.
pub fn end(mut rest: Words) -> Result<(), Expected>
    ensures { result ≡ at_end (words (left rest.entry)) tt }
{
    match rest.next_word() {
        Some(_) => Err(Expected::End),
        None => Ok(()),
    }
}

fn next_number(rest: &mut Words) -> Result<u64, Expected>
    ensures value { result ≡ number_due (words (left rest.old)) }
    ensures more { words (left rest.new) ≡ drop 1 (words (left rest.old)) }
{
    rest.next_word().and_then(number).ok_or(Expected::Number)
}
