//! How a register is opened, stamps and checks.
ghost use Rattle.seal.specs.Meaning.{may_stamp, same_triple};
ghost use Rattle.seal.specs.Opening.{Opening};
ghost use Rattle.seal.specs.Rows.{entries_of, register_meaning, row_entry, row_tag};
ghost use Rattle.std.specs.Prelude.{◌≡◌, ◌-◌, length};
ghost use Rattle.seal.specs.Told.{register_discerns};

use crate::register::rows::{Row, row_of, row_party, row_tag, row_text};
use crate::register::{MOST_ROWS, Register, Unopened};
use crate::{LONGEST_TEXT, Seal, TAG_SIZE, party};
use fault::{Fault, Reason};
use std::alloc::Global;

/// Does the row of that number tell the party and the text under that tag?
fn tells(row: &Row, number: u32, party: u16, text: &[u8], tag: &[u8]) -> bool
    ensures { result ≡ same_triple party text.now tag.now (row_entry row.now).party (row_entry row.now).text (row_tag number) }
{
    party == row_party(row) && text == row_text(row) && tag == row_tag(number).as_slice()
}

impl Register {
    /// An empty register, with all its rows reserved.
    pub fn open(heap: Global, rows: usize) -> Result<Register, Unopened>
        ensures { Opening rows result }
    {
        if rows > MOST_ROWS {
            return Err(Unopened::TooManyRows);
        }
        let reserved = Vec::with_capacity(heap, rows).map_err(|_| Unopened::NoMemory)?;
        Ok(Register {
            limit: rows,
            rows: reserved,
        })
    }

    /// How many rows can still be written.
    fn free(&self) -> usize
        ensures { result ≡ self.now.limit - length (entries_of self.now.rows.items) }
    {
        self.limit - self.rows.len()
    }

    /// Is there a row for this party and text?
    fn may_stamp(&self, party: u16, text: &[u8]) -> bool
        ensures { result ≡ may_stamp (register_meaning self.now.limit (entries_of self.now.rows.items)) party text.now }
    {
        self.ready(party) && text.len() <= LONGEST_TEXT
    }
}

impl Seal for Register {
    ghost meaning = { λ s. register_meaning s.limit (entries_of s.rows.items) };

    ghost discerns = { λ s. register_discerns _ _ };

    fn ready(&self, party: u16) -> bool {
        party::known(party) && self.free() > 0
    }

    fn stamp(&mut self, party: u16, text: &[u8]) -> Result<[u8; TAG_SIZE], Fault> {
        if !self.may_stamp(party, text) {
            return Err(Fault::of(Reason::SealNotReady));
        }
        let number = self.rows.len() as u32;
        self.rows.push_reserved(row_of(party, text));
        Ok(row_tag(number))
    }

    fn check(&self, party: u16, text: &[u8], tag: &[u8]) -> bool {
        if tag.len() != TAG_SIZE {
            return false;
        }
        // Byte by byte, as in rows: one number of a width, so that a reader for any width is no shorter.
        let number = u32::from_le_bytes([tag[0], tag[1], tag[2], tag[3]]);
        let at = number as usize;
        // Not by `get` and `is_some_and`: the closure's contract leaves `returns` open here.
        at < self.rows.len() && tells(&self.rows[at], number, party, text, tag)
    }
}
