//! Lines in words: what bytes are to a pit, for people and for tests.
use crate::bytes;
use crate::bytes::Hex;
use crate::command::{Trouble, each_line, first_words, read_set_up, tell};
use line::answer::Answer;
use line::call::Call;
use line::cert::Cert;
use line::charge::Charge;
use line::committed::Committed;
use line::kind::Kind;
use line::lines;
use line::lines::Line;
use line::order::Order;
use line::pit::Pit;
use line::sheet::Sheet;
use std::alloc::{AllocError, Global};
use std::{fmt, io};

/// A line or a part of one, in words.
// One `Display` for each kind: its format string shows the words as they are printed, and a list of named parts that one
// function prints is no shorter for any kind.
#[derive(Drop)]
struct Words<T>(T);

impl fmt::Display for Words<Call<'_>> {
    fn fmt<W: fmt::Write>(&self, f: &mut fmt::Formatter<W>) -> fmt::Result {
        let c = &self.0;
        write!(
            f,
            "CALL from {} view {} stamp {} body {} tag {}",
            c.sender,
            c.view,
            c.stamp,
            Hex(c.body),
            Hex(c.tag)
        )
    }
}

impl fmt::Display for Words<Order<'_>> {
    fn fmt<W: fmt::Write>(&self, f: &mut fmt::Formatter<W>) -> fmt::Result {
        let c = &self.0;
        write!(
            f,
            "ORDER from {} view {} place {} history {} tag {}: {}",
            c.sender,
            c.view,
            c.place,
            Hex(c.history),
            Hex(c.tag),
            Words(c.call)
        )
    }
}

impl fmt::Display for Words<Answer<'_>> {
    fn fmt<W: fmt::Write>(&self, f: &mut fmt::Formatter<W>) -> fmt::Result {
        let c = &self.0;
        write!(
            f,
            "ANSWER from {} view {} place {} history {} ",
            c.sender,
            c.view,
            c.place,
            Hex(c.history)
        )?;
        write!(
            f,
            "tablet {} stamp {} reply {} tag {}",
            c.client,
            c.stamp,
            Hex(c.reply),
            Hex(c.tag)
        )
    }
}

impl fmt::Display for Words<Committed<'_>> {
    fn fmt<W: fmt::Write>(&self, f: &mut fmt::Formatter<W>) -> fmt::Result {
        let c = &self.0;
        write!(
            f,
            "COMMITTED from {} view {} place {} history {} ",
            c.sender,
            c.view,
            c.place,
            Hex(c.history)
        )?;
        write!(
            f,
            "tablet {} stamp {} tag {}",
            c.client,
            c.stamp,
            Hex(c.tag)
        )
    }
}

impl fmt::Display for Words<Sheet<'_>> {
    fn fmt<W: fmt::Write>(&self, f: &mut fmt::Formatter<W>) -> fmt::Result {
        let c = &self.0;
        write!(
            f,
            "SHEET from {} view {} place {} history {} print {} tag {}",
            c.sender,
            c.view,
            c.place,
            Hex(c.history),
            Hex(c.print),
            Hex(c.tag)
        )
    }
}

impl fmt::Display for Words<Charge<'_>> {
    fn fmt<W: fmt::Write>(&self, f: &mut fmt::Formatter<W>) -> fmt::Result {
        let c = &self.0;
        write!(
            f,
            "CHARGE from {} view {} tag {}: {}; {}",
            c.sender,
            c.view,
            Hex(c.tag),
            Words(c.first),
            Words(c.second)
        )
    }
}

impl fmt::Display for Words<Cert<'_>> {
    fn fmt<W: fmt::Write>(&self, f: &mut fmt::Formatter<W>) -> fmt::Result {
        let c = &self.0;
        write!(
            f,
            "CERT from {} view {} place {} history {} ",
            c.sender,
            c.view,
            c.place,
            Hex(c.history)
        )?;
        write!(
            f,
            "tablet {} stamp {} reply {} tag {}:",
            c.client,
            c.stamp,
            Hex(c.reply),
            Hex(c.tag)
        )?;
        for answer in (0..c.count).filter_map(|i| c.answer(i)) {
            write!(f, " box {} tag {}", answer.sender, Hex(answer.tag))?;
        }
        Ok(())
    }
}

/// Prints a line in words.
fn print_line(rt: &HostRuntime, line: &Line) -> io::Result<()> {
    match line {
        Line::Call(call) => rt.println(Words(*call)),
        Line::Order(order) => rt.println(Words(*order)),
        Line::Answer(answer) => rt.println(Words(*answer)),
        Line::Cert(cert) => rt.println(Words(*cert)),
        Line::Committed(committed) => rt.println(Words(*committed)),
        Line::Sheet(sheet) => rt.println(Words(*sheet)),
        Line::Charge(charge) => rt.println(Words(*charge)),
    }
}

/// The kind that a word names by its number.
fn read_kind(word: &str) -> Result<Kind, Trouble> {
    Kind::try_from(word.parse::<u16>()?).map_err(|_| Trouble::BadCommand)
}

/// The kinds that a word names by their numbers, with commas between: each once, however often it is named. None is every kind, `all`.
// In a `Vec`: an `ArrayVec` is made of default values, and no kind is one. `all` needs no list.
fn read_kinds(heap: Global, word: &str) -> Result<Option<Vec<Kind>>, Trouble> {
    if word == "all" {
        return Ok(None);
    }
    let mut kinds = Vec::with_capacity(heap, Kind::ALL.len())?;
    for part in word.split(',') {
        let kind = read_kind(part)?;
        if !kinds.contains(&kind) {
            kinds.push(kind).map_err(AllocError::from)?;
        }
    }
    Ok(Some(kinds))
}

/// Reads bytes as a line of a pit, and prints what they are.
fn read(rt: &HostRuntime, words: &[&str]) -> Result<(), Trouble> {
    let [f, view, kinds, bytes] = words else {
        return Err(Trouble::BadCommand);
    };
    let bytes = bytes::read(rt.alloc(), bytes)?;
    let (f, view) = read_set_up(f, view)?;
    let named = read_kinds(rt.alloc(), kinds)?;
    let kinds = named
        .as_ref()
        .map_or(&Kind::ALL[..], |kinds| kinds.as_slice());
    let pit = Pit::open(f, view)?;
    Ok(print_line(rt, &lines::read(&pit, kinds, bytes.as_slice())?)?)
}

/// `pit read F VIEW KINDS HEX`.
pub(crate) fn read_one(rt: &HostRuntime, words: &[&str]) -> anyhow::Result<()> {
    tell(rt, read(rt, words).map_err(Trouble::of_io))
}

/// `pit read-many`: reads `F VIEW KINDS HEX` from each line of standard input.
pub(crate) fn read_many(rt: &HostRuntime) -> anyhow::Result<()> {
    each_line(rt, |line| {
        read(rt, first_words(line.split(' ')).as_slice()).map_err(Trouble::of_io)
    })
}
