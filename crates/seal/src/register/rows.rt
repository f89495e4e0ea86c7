//! The rows of a register: 304 bytes that tell a party and a text.
ghost use Rattle.seal.specs.Meaning.{longest_text};
ghost use Rattle.seal.specs.Rows.{row_bytes, row_entry, row_tag};
ghost use Rattle.std.specs.Prelude.{◌≡◌, ◌+◌, ◌≤◌, ◌++◌, length, take, drop};

use crate::{LONGEST_TEXT, TAG_SIZE};

/// Party and length before the text, two bytes each.
const HEAD_SIZE: usize = 4;

const ROW_SIZE: usize = HEAD_SIZE + LONGEST_TEXT;

/// Party, length, text, zeros.
// Bytes and no struct: a row's 304 bytes are a format of the rules.
pub(super) type Row = [u8; ROW_SIZE];

/// Writes the bytes into the slice, from that place on.
// Of this crate alone, as a line's `put` is of its: what other crates can reach may ask nothing of its callers.
fn put(out: &mut [u8], at: usize, bytes: &[u8])
    requires { at + length bytes.now ≤ length out.old }
    ensures { out.new ≡ take at out.old ++ (bytes.now ++ drop (at + length bytes.now) out.old) }
{
    out[at..at + bytes.len()].copy_from_slice(bytes);
}

/// The row that tells this party and text.
pub(super) fn row_of(party: u16, text: &[u8]) -> Row
    requires { length text.now ≤ longest_text }
    ensures { result ≡ row_bytes party text.now }
{
    let mut row = [0; ROW_SIZE];
    put(&mut row, 0, &party.to_le_bytes());
    put(&mut row, 2, &(text.len() as u16).to_le_bytes());
    put(&mut row, HEAD_SIZE, text);
    row
}

/// The party that a row tells.
pub(super) fn row_party(row: &Row) -> u16
    ensures { result ≡ (row_entry row.now).party }
{
    u16::from_le_bytes([row[0], row[1]])
}

/// The text that a row tells.
pub(super) fn row_text(row: &Row) -> &[u8]
    ensures { result.now ≡ (row_entry row.now).text }
{
    let told = u16::from_le_bytes([row[2], row[3]]) as usize;
    let size = told.min(LONGEST_TEXT);
    &row[HEAD_SIZE..HEAD_SIZE + size]
}

/// The tag of the row of that number.
pub(super) fn row_tag(number: u32) -> [u8; TAG_SIZE]
    ensures { result ≡ row_tag number }
{
    let mut tag = [0; TAG_SIZE];
    put(&mut tag, 0, &number.to_le_bytes());
    tag
}
