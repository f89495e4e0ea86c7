//! Replays a trace: one command a line, one line of answer for each.
use crate::bytes::Hex;
use crate::command::{Trouble, each_line, first_words, read_set_up, tell};
use crate::{bytes, seals};
use fault::Fault;
use lead::Lead;
use line::pit::Pit;
use seal::card::{Card, Key};
use seal::party::PARTIES;
use seal::register::{MOST_ROWS, Register};
use seal::{Seal, TAG_SIZE};
use std::fs;
use std::str::FromStr;

/// The room of the outbox until a trace says otherwise: the least that a call asks for.
const FIRST_ROOM: usize = step::LEAST_ROOM;

/// The largest outbox that a trace may lend.
const MOST_ROOM: usize = 1_000_000;

/// What begins a comment.
const COMMENT: char = '#';

/// `pit replay FILE`.
pub(crate) fn file(rt: &HostRuntime, path: &str) -> anyhow::Result<()> {
    let text = fs::read_to_string(rt, path)?;
    let mut session = Session::new(rt);
    for line in text.lines() {
        tell(rt, session.obey(line))?;
    }
    Ok(())
}

/// `pit replay`, from standard input.
pub(crate) fn standard_input(rt: &HostRuntime) -> anyhow::Result<()> {
    let mut session = Session::new(rt);
    each_line(rt, |line| session.obey(line))
}

/// All that a trace has built up so far.
#[derive(Drop)]
struct Session<'a> {
    rt: &'a HostRuntime,
    opened: Option<Opened>,
    /// How many bytes the outbox has.
    room: usize,
}

impl<'a> Session<'a> {
    /// A trace that has said nothing yet.
    fn new(rt: &'a HostRuntime) -> Session<'a> {
        Session {
            rt,
            opened: None,
            room: FIRST_ROOM,
        }
    }

    /// The pit, once one is opened.
    fn opened(&mut self) -> Result<&mut Opened, Trouble> {
        self.opened.as_mut().ok_or(Trouble::BadCommand)
    }

    /// Obeys one line of a trace; a line with nothing but a comment says nothing.
    fn obey(&mut self, line: &str) -> Result<(), Trouble> {
        let command = line.split(COMMENT).next().unwrap_or("");
        let words = first_words(command.split_whitespace());
        // A switch on patterns, as in `main`.
        match words.as_slice() {
            [] => Ok(()),
            ["pit", f, view, seals, "board" | "ledger"] => self.open(f, view, seals),
            ["room", room] => self.set_room(room),
            ["lead", "take", line] => self.take(line),
            ["lead", "show"] => self.show(),
            ["seal", "stamp", party, text] => self.stamp(party, text),
            _ => Err(Trouble::BadCommand),
        }
    }

    /// `pit F VIEW SEAL SERVICE`.
    fn open(&mut self, f: &str, view: &str, seals: &str) -> Result<(), Trouble> {
        let rt = self.rt;
        let (f, view) = read_set_up(f, view)?;
        let wanted = seals.parse::<Wanted>()?;
        let number = Pit::open(f, view)?.lead();
        let lead = Lead::open(f, view, number)?;
        let seals = Seals::open(rt, wanted)?;
        self.opened = Some(Opened {
            lead,
            number,
            seals,
        });
        Ok(println!(rt; "ok")?)
    }

    /// `room N`.
    fn set_room(&mut self, room: &str) -> Result<(), Trouble> {
        let room = room.parse::<usize>()?;
        if room > MOST_ROOM {
            return Err(Trouble::BadCommand);
        }
        self.room = room;
        Ok(())
    }

    /// `lead take HEX`: has the lead take a line.
    fn take(&mut self, line: &str) -> Result<(), Trouble> {
        let (rt, room) = (self.rt, self.room);
        let opened = self.opened()?;
        let line = bytes::read(rt.alloc(), line)?;
        let mut out: Vec<u8> = vec![in rt.alloc(); 0; room]?;
        let count = opened.take(line.as_slice(), out.as_mut_slice())?;
        if count == 0 {
            return Ok(println!(rt; "ok 0")?);
        }
        out.truncate(count);
        Ok(println!(rt; "ok {count} {}", Hex(out.as_slice()))?)
    }

    /// `lead show`.
    fn show(&mut self) -> Result<(), Trouble> {
        let rt = self.rt;
        let lead = &self.opened()?.lead;
        Ok(println!(rt; "place {} history {}", lead.place(), Hex(lead.history()))?)
    }

    /// `seal stamp PARTY HEX`: stamps a text for a party with that party's seal, so that a trace can make lines of its own.
    fn stamp(&mut self, party: &str, text: &str) -> Result<(), Trouble> {
        let rt = self.rt;
        let opened = self.opened()?;
        let party = party.parse::<u16>()?;
        let text = bytes::read(rt.alloc(), text)?;
        let tag = opened.seals.stamp(party, text.as_slice())?;
        Ok(println!(rt; "ok {}", Hex(&tag))?)
    }
}

/// The seals that a trace asks for.
#[derive(Clone, Copy)]
enum Wanted {
    /// A card for each party.
    Cards,
    /// One register for all parties.
    Register { rows: usize },
}

impl FromStr for Wanted {
    type Err = Trouble;

    /// `card`, `register`, or `register:ROWS` for a small one.
    fn from_str(word: &str) -> Result<Wanted, Trouble> {
        match word {
            "card" => Ok(Wanted::Cards),
            "register" => Ok(Wanted::Register { rows: MOST_ROWS }),
            _ => {
                let rows = word
                    .strip_prefix("register:")
                    .ok_or(Trouble::BadCommand)?
                    .parse::<usize>()?;
                match rows {
                    1..=MOST_ROWS => Ok(Wanted::Register { rows }),
                    _ => Err(Trouble::BadCommand),
                }
            }
        }
    }
}

/// The seals of a pit.
#[derive(Drop)]
enum Seals {
    /// The keys of all parties: each has a card of its own.
    Cards([Key; PARTIES]),
    /// The one register that all parties share.
    Register(Register),
}

impl Seals {
    /// New seals.
    fn open(rt: &HostRuntime, wanted: Wanted) -> Result<Seals, Trouble> {
        match wanted {
            Wanted::Cards => Ok(Seals::Cards(seals::demonstration_keys()?)),
            Wanted::Register { rows } => Ok(Seals::Register(Register::open(rt.alloc(), rows)?)),
        }
    }

    /// Stamps a text for a party, with the register or with the party's card.
    // The same match as in `Opened::take`: a closure could not take a seal of either type.
    fn stamp(&mut self, party: u16, text: &[u8]) -> Result<[u8; TAG_SIZE], Fault> {
        match self {
            Seals::Cards(keys) => Card::open(party, *keys).stamp(party, text),
            Seals::Register(register) => register.stamp(party, text),
        }
    }
}

/// A pit that a trace opened: its lead, and the number of the box that leads.
#[derive(Drop)]
struct Opened {
    lead: Lead,
    number: u16,
    seals: Seals,
}

impl Opened {
    /// Has the lead take a line, with the register or with its own card, and answers how many bytes it wrote.
    fn take(&mut self, line: &[u8], out: &mut [u8]) -> Result<usize, Fault> {
        match &mut self.seals {
            Seals::Cards(keys) => self
                .lead
                .take(&mut Card::open(self.number, *keys), line, out),
            Seals::Register(register) => self.lead.take(register, line, out),
        }
    }
}
