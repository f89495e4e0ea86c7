//! Bytes as text: two hex digits for each byte, the high one first. Lower case is written, either case is read.
use crate::command::Trouble;
use std::alloc::Global;
use std::fmt;

/// Bytes that print as hex, and as `-` where there are none.
#[derive(Drop)]
pub(crate) struct Hex<'a>(pub &'a [u8]);

// By hand: a derive prints fields, and these are digits.
impl fmt::Display for Hex<'_> {
    fn fmt<W: fmt::Write>(&self, f: &mut fmt::Formatter<W>) -> fmt::Result {
        if self.0.is_empty() {
            return write!(f, "-");
        }
        for byte in self.0 {
            write!(f, "{byte:02x}")?;
        }
        Ok(())
    }
}

/// How many bytes are decoded at once.
const BLOCK: usize = 64;

/// The bytes that a word of a command writes; `-` writes none. A word that is not hex, or has no digits, is a bad command.
pub(crate) fn read(heap: Global, word: &str) -> Result<Vec<u8>, Trouble> {
    match word.as_bytes() {
        b"" => Err(Trouble::BadCommand),
        b"-" => Ok(Vec::new(heap)),
        digits if digits.len() % 2 != 0 => Err(Trouble::BadCommand),
        digits => decode(heap, digits),
    }
}

/// The bytes that pairs of digits write.
// Block by block, and not by `hex::decode`: that sets memory for all bytes aside before it looks at a digit.
fn decode(heap: Global, digits: &[u8]) -> Result<Vec<u8>, Trouble> {
    let mut bytes = Vec::new(heap);
    let mut block = [0; BLOCK];
    for pairs in digits.chunks(2 * BLOCK) {
        let part = &mut block[..BLOCK.min(pairs.len() / 2)];
        hex::decode_to_slice(pairs, part)?;
        bytes.extend_from_slice(part)?;
    }
    Ok(bytes)
}
