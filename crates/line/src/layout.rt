//! How numbers and parts lie in a line, and the rules that every kind is read by.
ghost use Rattle.line.specs.Layout.{number_at, part, bytes_of};
ghost use Rattle.line.specs.Rules.{in_numbers, in_clients, on_sheet, whole};
ghost use Rattle.std.specs.Prelude.{◌≡◌, ◌+◌, ◌≤◌, ◌++◌, length, take, drop};

use crate::pit::CLIENTS;

/// Every line begins with its size, kind, sender and view.
pub const SIZE_AT: usize = 0;

pub const SIZE_WIDTH: usize = 2;
/// The largest size that the size field tells.
pub const MOST_SIZE: usize = 65_535;

pub const KIND_AT: usize = SIZE_AT + SIZE_WIDTH;

pub const KIND_WIDTH: usize = 2;

pub const SENDER_AT: usize = KIND_AT + KIND_WIDTH;

pub const SENDER_WIDTH: usize = 2;

pub const VIEW_AT: usize = SENDER_AT + SENDER_WIDTH;

pub const VIEW_WIDTH: usize = 4;

pub const HEADER_SIZE: usize = VIEW_AT + VIEW_WIDTH;

/// The widths of what lies between header and tag, and of the tag.
// Each kind lists the offsets of its own parts: they are the format.
pub const STAMP_WIDTH: usize = 4;

pub const PLACE_WIDTH: usize = 4;

pub const CLIENT_WIDTH: usize = 2;

pub const COUNT_WIDTH: usize = 2;

pub const REPLICA_WIDTH: usize = 2;

pub const BODY_WIDTH: usize = 16;

pub const REPLY_WIDTH: usize = 8;

pub const HISTORY_WIDTH: usize = 32;

pub const PRINT_WIDTH: usize = 32;

pub const TAG_WIDTH: usize = 32;

/// Places and stamps go from 1 to this.
pub const LAST_NUMBER: u32 = 1_000_000;

/// Sheets are made at every eighth place.
pub const SHEET_STEP: u32 = 8;

// Each of these asks that its bytes are there, at an offset and of a width of its own: no type could say it once for all.

/// The bytes of a part whose width the caller's type tells.
fn array_at<const WIDTH: usize>(bytes: &[u8], at: usize) -> [u8; WIDTH]
    requires { at + WIDTH ≤ length bytes.now }
    ensures value { result ≡ part at WIDTH bytes.now }
    ensures len { length result ≡ WIDTH }
{
    <[u8; WIDTH]>::try_from(&bytes[at..at + WIDTH]).unwrap()
}

/// The 16-bit number at an offset.
#[tactic(auto, using(crate::proofs::Numbers::number_2))]
pub(crate) fn number16(bytes: &[u8], at: usize) -> u16
    requires { at + 2 ≤ length bytes.now }
    ensures { result ≡ number_at 2 at bytes.now }
{
    u16::from_le_bytes(array_at(bytes, at))
}

/// The 32-bit number at an offset.
#[tactic(auto, using(crate::proofs::Numbers::number_4))]
pub(crate) fn number32(bytes: &[u8], at: usize) -> u32
    requires { at + 4 ≤ length bytes.now }
    ensures { result ≡ number_at 4 at bytes.now }
{
    u32::from_le_bytes(array_at(bytes, at))
}

/// The part that begins at an offset and has a width.
pub(crate) fn part_at(bytes: &[u8], at: usize, width: usize) -> &[u8]
    requires { at + width ≤ length bytes.now }
    ensures value { result.now ≡ part at width bytes.now }
    ensures len { length result.now ≡ width }
{
    &bytes[at..at + width]
}

/// The size field tells the bytes that there are, a whole header at least.
pub(crate) fn is_whole(bytes: &[u8]) -> bool
    ensures { result ≡ whole bytes.now }
{
    bytes.len() >= HEADER_SIZE && number16(bytes, SIZE_AT) as usize == bytes.len()
}

/// A place or a stamp.
pub(crate) fn in_numbers(n: u32) -> bool
    ensures { result ≡ in_numbers n }
{
    (1..=LAST_NUMBER).contains(&n)
}

/// A tablet's number.
pub(crate) fn in_clients(client: u16) -> bool
    ensures { result ≡ in_clients client }
{
    client < CLIENTS
}

/// A place at which a sheet is made.
pub(crate) fn on_sheet(place: u32) -> bool
    ensures { result ≡ on_sheet place }
{
    place % SHEET_STEP == 0
}

/// Puts bytes behind those that are written, and answers where they end.
// Memory and end stay apart: each method of a struct that holds both would also have to say that it lends on the same memory.
pub(crate) fn put(out: &mut [u8], at: usize, bytes: &[u8]) -> usize
    requires { at + length bytes.now ≤ length out.old }
    ensures end { result ≡ at + length bytes.now }
    ensures front { take result out.new ≡ take at out.old ++ bytes.now }
    ensures behind { drop result out.new ≡ drop result out.old }
{
    let end = at + bytes.len();
    out[at..end].copy_from_slice(bytes);
    end
}

/// Puts a 16-bit number behind them.
// Two functions of one line: one for both would need a trait for what `to_le_bytes` gives at each width.
#[tactic(auto, using(crate::proofs::Puts::bytes_of_2))]
pub(crate) fn put16(out: &mut [u8], at: usize, n: u16) -> usize
    requires { at + 2 ≤ length out.old }
    ensures end { result ≡ at + 2 }
    ensures front { take result out.new ≡ take at out.old ++ bytes_of 2 n }
    ensures behind { drop result out.new ≡ drop result out.old }
{
    put(out, at, &n.to_le_bytes())
}

/// Puts a 32-bit number behind them.
#[tactic(auto, using(crate::proofs::Puts::bytes_of_4))]
pub(crate) fn put32(out: &mut [u8], at: usize, n: u32) -> usize
    requires { at + 4 ≤ length out.old }
    ensures end { result ≡ at + 4 }
    ensures front { take result out.new ≡ take at out.old ++ bytes_of 4 n }
    ensures behind { drop result out.new ≡ drop result out.old }
{
    put(out, at, &n.to_le_bytes())
}

/// Puts a line's header, and answers where it ends.
pub(crate) fn put_header(out: &mut [u8], size: u16, kind: u16, sender: u16, view: u32) -> usize
    requires { 10 ≤ length out.old }
    ensures end { result ≡ 10 }
    ensures front { take result out.new ≡ ((bytes_of 2 size ++ bytes_of 2 kind) ++ bytes_of 2 sender) ++ bytes_of 4 view }
    ensures behind { drop result out.new ≡ drop result out.old }
{
    let at = put16(out, SIZE_AT, size);
    let at = put16(out, at, kind);
    let at = put16(out, at, sender);
    put32(out, at, view)
}
