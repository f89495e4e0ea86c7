//! The bytes of a line, or of one inside it, as a pit takes them.
ghost use Rattle.line.specs.Layout.{number_at, part, view_at, view_width};
ghost use Rattle.line.specs.Rules.{entered, sized, ruled};
ghost use Rattle.std.specs.Prelude.{◌≡◌, ◌+◌, ◌^◌, ◌<◌, ◌≤◌, length, nat_eq, OnOk};

use crate::layout::*;
use crate::pit::Pit;
use fault::{Fault, Reason};

/// Bytes that begin at byte `at` of the line that a pit takes.
#[derive(Clone, Copy)]
pub(crate) struct Taken<'a> {
    pub(crate) pit: Pit,
    pub(crate) at: usize,
    pub(crate) bytes: &'a [u8],
    ghost near: { at + length bytes.now < 2 ^ 64 },
}

impl<'a> Taken<'a> {
    /// The 16-bit number at an offset.
    pub(crate) fn number16(&self, at: usize) -> u16
        requires { at + 2 ≤ length self.now.bytes.now }
        ensures { result ≡ number_at 2 at self.now.bytes.now }
    {
        number16(self.bytes, at)
    }

    /// The 32-bit number at an offset.
    pub(crate) fn number32(&self, at: usize) -> u32
        requires { at + 4 ≤ length self.now.bytes.now }
        ensures { result ≡ number_at 4 at self.now.bytes.now }
    {
        number32(self.bytes, at)
    }

    /// The part that begins at an offset and has a width.
    pub(crate) fn part(&self, at: usize, width: usize) -> &'a [u8]
        requires { at + width ≤ length self.now.bytes.now }
        ensures value { result.now ≡ part at width self.now.bytes.now }
        ensures len { length result.now ≡ width }
    {
        part_at(self.bytes, at, width)
    }

    /// The same part, as the line that lies there.
    pub(crate) fn inner(&self, at: usize, width: usize) -> Taken<'a>
        requires { at + width ≤ length self.now.bytes.now }
        ensures pit { result.pit ≡ self.now.pit }
        ensures at { result.at ≡ self.now.at + at }
        ensures bytes { result.bytes.now ≡ part at width self.now.bytes.now }
        ensures len { length result.bytes.now ≡ width }
    {
        Taken {
            pit: self.pit,
            at: self.at + at,
            bytes: self.part(at, width),
        }
    }

    /// A line inside another must tell its own size, and be of the kind that stands here.
    pub(crate) fn check_inner(&self, kind: u16) -> Result<(), Fault>
        ensures { result ≡ entered self.now.at self.now.bytes.now (λ k. nat_eq k kind) }
    {
        if !is_whole(self.bytes) {
            return Err(Fault::at(Reason::LineSize, self.at));
        }
        if self.number16(KIND_AT) != kind {
            return Err(Fault::at(Reason::Kind, self.at));
        }
        Ok(())
    }

    /// The line must have the size of its kind.
    pub(crate) fn check_size(&self, size: usize) -> Result<(), Fault>
        ensures check { result ≡ sized size self.now.at self.now.bytes.now }
        ensures size { OnOk result (length self.now.bytes.now ≡ size) }
    {
        if self.bytes.len() != size {
            return Err(Fault::at(Reason::KindSize, self.at));
        }
        Ok(())
    }

    /// The line must be of the pit's view, from a sender who may send it, with every field in its range.
    pub(crate) fn check_rules(&self, sender_may: bool, in_range: bool) -> Result<(), Fault>
        requires { HEADER_SIZE ≤ length self.now.bytes.now }
        ensures { result ≡ ruled self.now.pit self.now.at (number_at view_width view_at self.now.bytes.now) sender_may in_range }
    {
        if self.number32(VIEW_AT) != self.pit.view() {
            return Err(Fault::at(Reason::View, self.at));
        }
        if !sender_may {
            return Err(Fault::at(Reason::Sender, self.at));
        }
        if !in_range {
            return Err(Fault::at(Reason::Range, self.at));
        }
        Ok(())
    }
}
