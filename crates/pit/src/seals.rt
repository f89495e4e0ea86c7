//! Seals at work: the demonstration, the reader of key files, and seals that serve commands from standard input.
ghost use Rattle.pit.specs.DemonstrationKeys.{AllMade, party_at};
ghost use Rattle.std.specs.Prelude.{◌≡◌, ◌<◌};

use crate::bytes;
use crate::bytes::Hex;
use crate::command::{Trouble, each_line, first_words};
use crate::shift::Call;
use digest::sha256;
use fault::Fault;
use hex::{FromHex, FromHexError};
use seal::Seal;
use seal::card::{Card, KEY_SIZE, Key};
use seal::party::{BOXES, FIRST_TABLET, PARTIES};
use seal::promises::stamp_and_check;
use seal::register::Register;
use std::{array, fs};
use step::CALL_TEXT_SIZE;
use thiserror::Error;

/// Two hex digits for each byte of a key.
const KEY_DIGITS: usize = 2 * KEY_SIZE;

/// The line that is one too many.
const TOO_MANY: usize = PARTIES + 1;

/// How many rows the demonstration's register has: fewer than there are calls.
const ROWS: usize = 3;

/// The party that stands at the place among the 26.
// No `From`: a place is a number like any other.
fn party_at(place: usize) -> u16
    requires { place < 26 }
    ensures { result ≡ party_at place }
{
    let number = place as u16;
    if number < BOXES {
        number
    } else {
        FIRST_TABLET + (number - BOXES)
    }
}

/// Keys for demonstrations alone: each is SHA-256 of its party's number in two bytes, so everybody can work them out.
pub(crate) fn demonstration_keys() -> Result<[Key; PARTIES], Fault>
    ensures { AllMade result }
{
    array::try_from_fn(|place| sha256(&party_at(place).to_le_bytes()))
}

/// Obeys `ready PARTY`, `stamp PARTY TEXT` or `check PARTY TEXT TAG`.
fn obey<S: Seal>(rt: &HostRuntime, seal: &mut S, line: &str) -> Result<(), Trouble> {
    let heap = rt.alloc();
    let words = first_words(line.split(' '));
    // A switch on patterns, as in `main`.
    match words.as_slice() {
        ["ready", party] => {
            let said = seal.ready(party.parse::<u16>()?);
            Ok(println!(rt; "{}", word(said))?)
        }
        ["stamp", party, text] => {
            let party = party.parse::<u16>()?;
            let text = bytes::read(heap, text)?;
            let tag = seal.stamp(party, text.as_slice())?;
            Ok(println!(rt; "ok {}", Hex(&tag))?)
        }
        ["check", party, text, tag] => {
            let party = party.parse::<u16>()?;
            let text = bytes::read(heap, text)?;
            let tag = bytes::read(heap, tag)?;
            let said = seal.check(party, text.as_slice(), tag.as_slice());
            Ok(println!(rt; "{}", word(said))?)
        }
        _ => Err(Trouble::BadCommand),
    }
}

/// `pit seal card OWNER`: answers commands from standard input.
pub(crate) fn serve_card(rt: &HostRuntime, owner: &str) -> anyhow::Result<()> {
    let mut card = Card::open(owner.parse::<u16>()?, demonstration_keys()?);
    each_line(rt, |line| obey(rt, &mut card, line).map_err(Trouble::of_io))
}

/// `pit seal register ROWS`: answers commands from standard input.
pub(crate) fn serve_register(rt: &HostRuntime, rows: &str) -> anyhow::Result<()> {
    let mut register = Register::open(rt.alloc(), rows.parse::<usize>()?)?;
    each_line(
        rt,
        |line| obey(rt, &mut register, line).map_err(Trouble::of_io),
    )
}

/// Why a key file is not taken. Lines and columns count from 1.
#[derive(Debug, Drop, Error)]
enum KeyFault {
    #[error("line {line}: {found} characters, where a key has {KEY_DIGITS} hex digits")]
    Length { line: usize, found: usize },
    #[error("line {line}: character {column} is no hex digit")]
    Digit { line: usize, column: usize },
    #[error("line {TOO_MANY}: a key too many, where {PARTIES} are wanted")]
    TooMany,
    #[error("the file ends after {found} keys, where {PARTIES} are wanted")]
    TooFew { found: usize },
}

/// The key that one line writes.
fn read_key(line: usize, digits: &str) -> Result<Key, KeyFault> {
    <Key as FromHex>::from_hex(digits).map_err(|error| match error {
        FromHexError::InvalidHexCharacter { index, .. } => KeyFault::Digit {
            line,
            column: index.saturating_add(1),
        },
        _ => KeyFault::Length {
            line,
            found: digits.len(),
        },
    })
}

/// The 26 keys that a text writes, one to a line: those of the boxes, then those of the tablets.
fn read_keys(text: &str) -> Result<[Key; PARTIES], KeyFault> {
    let mut lines = text.lines();
    let keys = array::try_from_fn(|found| {
        let digits = lines.next().ok_or(KeyFault::TooFew { found })?;
        read_key(found + 1, digits)
    })?;
    match lines.next() {
        None => Ok(keys),
        Some(_) => Err(KeyFault::TooMany),
    }
}

/// `pit keys FILE`: says that the file has the 26 keys, or what is wrong with it.
pub(crate) fn keys_file(rt: &HostRuntime, path: &str) -> anyhow::Result<()> {
    let text = fs::read_to_string(rt, path)?;
    read_keys(text.as_str())?;
    Ok(println!(rt; "{PARTIES} keys read")?)
}

/// What a seal says, in a word.
fn word(said: bool) -> &'static str {
    if said { "yes" } else { "no" }
}

/// Stamps a call's text, shows its tag and what the check says of it, and that a damaged text is refused.
fn show_stamp<S: Seal>(rt: &HostRuntime, seal: &mut S, call: &Call) -> anyhow::Result<()> {
    let party = call.party();
    let mut text = call.text()?;
    match stamp_and_check(seal, party, &text) {
        Ok(stamped) => {
            let tag = stamped.0;
            let (hex, said) = (Hex(&tag), word(stamped.1));
            text[CALL_TEXT_SIZE - 1] ^= 1;
            let damaged = word(seal.check(party, &text, &tag));
            println!(rt;
                "party {party}: tag {hex}, check: {said}, with one bit of the text changed: {damaged}"
            )?;
        }
        Err(fault) => println!(rt; "party {party}: {fault}")?,
    }
    Ok(())
}

/// The calls of a shift, each stamped with its tablet's own card, and then all with one register that is too small for them.
pub(crate) fn show_shift(rt: &HostRuntime, calls: &[Call]) -> anyhow::Result<()> {
    println!(rt; "")?;
    println!(rt; "The calls stamped, each with its tablet's card (demonstration keys)")?;
    for call in calls {
        let mut card = Card::open(call.party(), demonstration_keys()?);
        show_stamp(rt, &mut card, call)?;
    }
    println!(rt; "")?;
    println!(rt; "The calls stamped with one register of {ROWS} rows")?;
    let mut register = Register::open(rt.alloc(), ROWS)?;
    for call in calls {
        show_stamp(rt, &mut register, call)?;
    }
    Ok(())
}
