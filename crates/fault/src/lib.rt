//! Refusals: why a call was refused, and at which byte of the line taken.

#![tactic(auto)]

ghost use Rattle.fault.specs.Reasons.{number_of, meaning_of, printed};
ghost use Rattle.std.specs.Prelude.{◌≡◌, Some};

use std::error::Error;
use std::fmt;

/// Why a call was refused.
#[derive(Clone, Copy, PartialEq, Eq, Debug)]
pub enum Reason {
    SetUp,
    Room,
    LineSize,
    Kind,
    KindSize,
    View,
    Sender,
    Range,
    Tag,
    Halted,
    Outdated,
    SealNotReady,
    Gap,
    History,
    Stamp,
    Window,
    Full,
    NoSheet,
    NoConflict,
    Phase,
    Foreign,
    Twice,
    NoQuorum,
    NotFinished,
}

impl Reason {
    /// The number by which a refusal is known in lines, traces and documents.
    // A method: each number stands beside its reason either way, and `number` says what `u8::from` would not.
    pub fn number(self) -> u8
        ensures { result ≡ number_of self }
    {
        match self {
            Reason::SetUp => 1,
            Reason::Room => 2,
            Reason::LineSize => 3,
            Reason::Kind => 4,
            Reason::KindSize => 5,
            Reason::View => 6,
            Reason::Sender => 7,
            Reason::Range => 8,
            Reason::Tag => 9,
            Reason::Halted => 10,
            Reason::Outdated => 11,
            Reason::SealNotReady => 12,
            Reason::Gap => 13,
            Reason::History => 14,
            Reason::Stamp => 15,
            Reason::Window => 16,
            Reason::Full => 17,
            Reason::NoSheet => 18,
            Reason::NoConflict => 19,
            Reason::Phase => 20,
            Reason::Foreign => 21,
            Reason::Twice => 22,
            Reason::NoQuorum => 23,
            Reason::NotFinished => 24,
        }
    }

    /// What a person is told.
    pub fn meaning(self) -> &'static str
        ensures { result.now ≡ meaning_of self }
    {
        match self {
            Reason::SetUp => "no such set-up",
            Reason::Room => "memory of a size that is not allowed",
            Reason::LineSize => "the line's size field is wrong",
            Reason::Kind => "a kind that is not taken here",
            Reason::KindSize => "not the size of its kind",
            Reason::View => "another view",
            Reason::Sender => "a sender that may not send this",
            Reason::Range => "a field out of its range",
            Reason::Tag => "a tag that the seal does not accept",
            Reason::Halted => "this box has stood down",
            Reason::Outdated => "outdated",
            Reason::SealNotReady => "the seal refuses to stamp",
            Reason::Gap => "an earlier place is missing",
            Reason::History => "another history",
            Reason::Stamp => "the stamp is not new",
            Reason::Window => "too far ahead of the base",
            Reason::Full => "all numbers are used up",
            Reason::NoSheet => "no sheet yet",
            Reason::NoConflict => "the two orders do not conflict",
            Reason::Phase => "not in this state of the tablet",
            Reason::Foreign => "not of the present call",
            Reason::Twice => "this box was counted already",
            Reason::NoQuorum => "too few boxes agree",
            Reason::NotFinished => "the call has not finished",
        }
    }
}

/// A refusal: its reason, and the first byte of what is at fault in the line taken (0 where no line is).
#[derive(Clone, Copy, PartialEq, Eq, Debug)]
pub struct Fault {
    pub reason: Reason,
    pub offset: usize,
}

impl Fault {
    /// A refusal that points at no byte.
    pub fn of(reason: Reason) -> Fault
        ensures { result ≡ record { reason = reason; offset = 0 } }
    {
        Fault { reason, offset: 0 }
    }

    /// A refusal of what begins at that byte.
    pub fn at(reason: Reason, offset: usize) -> Fault
        ensures { result ≡ record { reason = reason; offset = offset } }
    {
        Fault { reason, offset }
    }
}

// By hand: `output` states the very text that is printed, and a derive's text has no contract.
impl fmt::Display for Fault {
    ghost output = { λ f. Some (printed f) };

    fn fmt<W: fmt::Write>(&self, f: &mut fmt::Formatter<W>) -> fmt::Result {
        let number = self.reason.number();
        let offset = self.offset;
        let meaning = self.reason.meaning();
        write!(f, "refusal {number} at byte {offset}: {meaning}")
    }
}

impl Error for Fault {}
