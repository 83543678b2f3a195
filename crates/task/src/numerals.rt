// Words that stand for a number or for bytes.
ghost use Rattle.std.specs.Prelude.{◌≡◌, None, Ok, IfOk, is_some, vec_items};
ghost use Rattle.std.specs.Char.{is_ascii_hexdigit};
ghost use Rattle.std.specs.List.{list_all};
ghost use Rattle.std.specs.Option.{option_map};
ghost use Rattle.task.specs.Laws.{ReadsHex};
ghost use Rattle.task.specs.Text.{hex_bytes, hex_pairs, longer, number};

use std::alloc::{AllocError, Global};

// The number that a word of digits writes. Not inlined: inside its caller the loop took a third more time.
#[inline(never)]
pub fn number(word: &[u8]) -> Option<u64>
    ensures { result ≡ number word.now }
{
    if word.is_empty() {
        return None;
    }
    word.iter().try_fold(0, |value, byte| longer(value, *byte))
}

// `value` with one more digit behind it.
fn longer(value: u64, byte: u8) -> Option<u64>
    ensures { result ≡ longer value byte }
{
    if !byte.is_ascii_digit() {
        return None;
    }
    value.checked_mul(10)?.checked_add(u64::from(byte - b'0'))
}

// Whether the byte is a hex digit. All three ranges are tested, with no branch: which of them a digit is in cannot be foreseen.
fn is_hex_digit(byte: u8) -> bool
    ensures { result ≡ is_ascii_hexdigit byte }
{
    (byte.wrapping_sub(b'0') < 10) | (byte.wrapping_sub(b'A') < 6) | (byte.wrapping_sub(b'a') < 6)
}

// Whether all of these bytes are hex digits. It looks at all, as there are few.
fn are_hex_digits(bytes: &[u8]) -> bool
    ensures { result ≡ list_all is_ascii_hexdigit bytes.now }
{
    bytes
        .iter()
        .fold(true, |whole, byte| whole & is_hex_digit(*byte))
}

// The same of any number of bytes. They are looked at block by block, up to one that has another byte.
fn all_hex_digits(bytes: &[u8]) -> bool
    ensures { result ≡ list_all is_ascii_hexdigit bytes.now }
{
    let (blocks, rest) = bytes.as_chunks::<64>();
    blocks.iter().all(|block| are_hex_digits(block.as_slice())) && are_hex_digits(rest)
}

// Whether the word is pairs of hex digits.
fn is_hex(word: &[u8]) -> bool
    ensures { result ≡ is_some (hex_pairs word.now) }
{
    word.len() % 2 == 0 && all_hex_digits(word)
}

// The bytes that a word writes in hex, two digits for each; `-` writes none. Any other
// word is refused before memory is asked for.
#[tactic(auto, using(crate::proofs::Hex::hex_law))]
pub fn hex_bytes(heap: Global, word: &[u8]) -> Result<Option<Vec<u8>>, AllocError>
    ensures value { IfOk result (λ o. option_map vec_items o ≡ hex_bytes word.now) }
    ensures law { ReadsHex word.now (hex_bytes word.now) }
    ensures refused { hex_bytes word.now ≡ None → result ≡ Ok None }
{
    if word == b"-".as_slice() {
        return Ok(Some(Vec::new(heap)));
    }
    if !is_hex(word) {
        return Ok(None);
    }
    let mut bytes = vec![in heap; 0; word.len() / 2]?;
    let read = hex::decode_to_slice(word, bytes.as_mut_slice());
    Ok(read.is_ok().then_some(bytes))
}
