//! The embedded shift: calls by named foremen on a board and on a ledger, taken through every layer that there is.
ghost use Rattle.std.specs.Prelude.{◌≤◌};

use crate::bytes::Hex;
use crate::services::Shown;
use crate::{orders, seals, votes};
use digest::sha256;
use fault::Fault;
use line::call;
use line::pit::FIRST_CLIENT;
use line::record::Record;
use seal::TAG_SIZE;
use service::board::{Board, Motion};
use service::ledger::{Ledger, Work};
use service::reply::told;
use service::{BODY, PAGE, Service};
use std::fmt;
use step::{CALL_TEXT_SIZE, NO_HISTORY, link};

/// A foreman, with a tablet of his own.
#[derive(Clone, Copy, Debug)]
enum Foreman {
    Asta,
    Bruno,
    Cleo,
}

impl Foreman {
    /// The number of his tablet.
    fn tablet(self) -> u16
        ensures { result ≤ 2 }
    {
        match self {
            Foreman::Asta => 0,
            Foreman::Bruno => 1,
            Foreman::Cleo => 2,
        }
    }
}

/// What a foreman asks for.
#[derive(Clone, Copy)]
enum Deed {
    Send { truck: u16, spot: u16 },
    Recall { truck: u16 },
    Locate { truck: u16 },
    Dig { pile: u16, weight: u32 },
    Haul { from: u16, to: u16, weight: u32 },
    Weigh { pile: u16 },
}

/// A foreman's call, as his tablet numbers it.
#[derive(Clone, Copy)]
pub(crate) struct Call {
    foreman: Foreman,
    stamp: u32,
    deed: Deed,
}

/// The shift's calls on the board.
const BOARD_SHIFT: [Call; 7] = [
    Call {
        foreman: Foreman::Asta,
        stamp: 1,
        deed: Deed::Send { truck: 11, spot: 5 },
    },
    Call {
        foreman: Foreman::Bruno,
        stamp: 1,
        deed: Deed::Send { truck: 12, spot: 5 },
    },
    Call {
        foreman: Foreman::Asta,
        stamp: 2,
        deed: Deed::Send { truck: 13, spot: 5 },
    },
    Call {
        foreman: Foreman::Cleo,
        stamp: 1,
        deed: Deed::Send { truck: 14, spot: 5 },
    },
    Call {
        foreman: Foreman::Bruno,
        stamp: 2,
        deed: Deed::Send { truck: 15, spot: 5 },
    },
    Call {
        foreman: Foreman::Cleo,
        stamp: 2,
        deed: Deed::Recall { truck: 14 },
    },
    Call {
        foreman: Foreman::Asta,
        stamp: 3,
        deed: Deed::Locate { truck: 13 },
    },
];

/// The shift's calls on the ledger.
const LEDGER_SHIFT: [Call; 5] = [
    Call {
        foreman: Foreman::Asta,
        stamp: 1,
        deed: Deed::Dig {
            pile: 3,
            weight: 100,
        },
    },
    Call {
        foreman: Foreman::Bruno,
        stamp: 1,
        deed: Deed::Haul {
            from: 3,
            to: 7,
            weight: 101,
        },
    },
    Call {
        foreman: Foreman::Bruno,
        stamp: 2,
        deed: Deed::Haul {
            from: 3,
            to: 7,
            weight: 60,
        },
    },
    Call {
        foreman: Foreman::Cleo,
        stamp: 1,
        deed: Deed::Dig {
            pile: 7,
            weight: 1_000_000_000,
        },
    },
    Call {
        foreman: Foreman::Asta,
        stamp: 2,
        deed: Deed::Weigh { pile: 7 },
    },
];

// By hand, as for `Call`: the derive at hand is for errors.
impl fmt::Display for Deed {
    fn fmt<W: fmt::Write>(&self, f: &mut fmt::Formatter<W>) -> fmt::Result {
        match *self {
            Deed::Send { truck, spot } => write!(f, "sends truck {truck} to spot {spot}"),
            Deed::Recall { truck } => write!(f, "recalls truck {truck}"),
            Deed::Locate { truck } => write!(f, "asks where truck {truck} is"),
            Deed::Dig { pile, weight } => write!(f, "digs {weight} into pile {pile}"),
            Deed::Haul { from, to, weight } => write!(
                f,
                "hauls {weight} from pile {from} to pile {to}"
            ),
            Deed::Weigh { pile } => write!(f, "asks what lies on pile {pile}"),
        }
    }
}

impl fmt::Display for Call {
    fn fmt<W: fmt::Write>(&self, f: &mut fmt::Formatter<W>) -> fmt::Result {
        write!(f, "{:?} {}", self.foreman, self.deed)
    }
}

impl Deed {
    /// The body: operation, a, b and w, and a tail of zeros.
    // By hand: no service writes bodies, they come from tablets.
    fn body(self) -> [u8; BODY] {
        let (operation, a, b, w) = match self {
            Deed::Send { truck, spot } => (u16::from(Motion::Send), truck, spot, 0),
            Deed::Recall { truck } => (u16::from(Motion::Recall), truck, 0, 0),
            Deed::Locate { truck } => (u16::from(Motion::Tell), truck, 0, 0),
            Deed::Dig { pile, weight } => (u16::from(Work::Dig), pile, 0, weight),
            Deed::Haul { from, to, weight } => (u16::from(Work::Haul), from, to, weight),
            Deed::Weigh { pile } => (u16::from(Work::Tell), pile, 0, 0),
        };
        let [o0, o1] = u16::to_le_bytes(operation);
        let [a0, a1] = u16::to_le_bytes(a);
        let [b0, b1] = u16::to_le_bytes(b);
        let [w0, w1, w2, w3] = u32::to_le_bytes(w);
        [o0, o1, a0, a1, b0, b1, w0, w1, w2, w3, 0, 0, 0, 0, 0, 0]
    }
}

impl Call {
    /// The first call of the shift, under a stamp.
    pub(crate) fn first(stamp: u32) -> Call {
        Call {
            stamp,
            ..BOARD_SHIFT[0]
        }
    }

    /// The number of the tablet among the parties.
    pub(crate) fn party(self) -> u16 {
        FIRST_CLIENT + self.foreman.tablet()
    }

    /// The bytes that are stamped and linked.
    pub(crate) fn text(self) -> Result<[u8; CALL_TEXT_SIZE], Fault> {
        let mut text = [0; CALL_TEXT_SIZE];
        self.line(&self.deed.body(), &[]).write_text(&mut text)?;
        Ok(text)
    }

    /// The line, with a tag.
    pub(crate) fn signed(self, tag: &[u8; TAG_SIZE]) -> Result<[u8; call::SIZE], Fault> {
        let mut line = [0; call::SIZE];
        self.line(&self.deed.body(), tag).write(&mut line)?;
        Ok(line)
    }

    /// The line, around a body and a tag that are lent.
    fn line<'a>(self, body: &'a [u8], tag: &'a [u8]) -> call::Call<'a> {
        call::Call {
            sender: self.party(),
            view: 0,
            stamp: self.stamp,
            body,
            tag,
        }
    }
}

/// Takes the shift through every layer, and prints what happened.
pub(crate) fn show(rt: &HostRuntime) -> anyhow::Result<()> {
    println!(rt;
        "A shift's calls, linked into histories: each is SHA-256 of the one before and the call's 30 bytes"
    )?;
    show_histories(rt, &BOARD_SHIFT)?;
    println!(rt; "")?;
    println!(rt; "The calls on a board")?;
    perform(rt, &mut Board::open(), &BOARD_SHIFT)?;
    println!(rt; "")?;
    println!(rt; "Other calls on a ledger")?;
    perform(rt, &mut Ledger::open(), &LEDGER_SHIFT)?;
    seals::show_shift(rt, &BOARD_SHIFT)?;
    orders::show_shift(rt, &BOARD_SHIFT)?;
    votes::show(rt)?;
    state_theorems();
    Ok(())
}

/// Calls the functions whose contracts are theorems about the layers shown: there is nothing to do in any of them.
fn state_theorems() {
    digest::examples_hold();
    service::laws::board_laws();
    service::laws::ledger_laws();
    service::laws::shown_cases();
    seal::promises::own_stamps_check();
    seal::promises::accepted_stays();
    seal::promises::only_stamps_are_new();
    seal::promises::stamps_for_its_parties();
    seal::promises::register_accepts_the_stamped();
    line_laws::kind_laws_hold::<line::call::Call>();
    line_laws::kind_laws_hold::<line::order::Order>();
    line_laws::kind_laws_hold::<line::answer::Answer>();
    line_laws::kind_laws_hold::<line::cert::Cert>();
    line_laws::kind_laws_hold::<line::committed::Committed>();
    line_laws::kind_laws_hold::<line::sheet::Sheet>();
    line_laws::kind_laws_hold::<line::charge::Charge>();
    line_laws::laws_hold();
    line_laws::set_ups_hold();
    step::calls_are_steps::<lead::Lead>();
    lead::laws::laws_hold();
    lead::laws::runs_are_takes();
}

/// Prints each call with its place, and the history that ends in it.
fn show_histories(rt: &HostRuntime, calls: &[Call]) -> anyhow::Result<()> {
    let mut history = NO_HISTORY;
    for (place, call) in (1u32..).zip(calls) {
        history = link(&history, &call.text()?);
        println!(rt; "place {place}: {call}, history {}", Hex(&history))?;
    }
    Ok(())
}

/// Performs calls, prints what became of each, with what its code means, and then what the service holds.
fn perform<S: Shown>(rt: &HostRuntime, service: &mut S, calls: &[Call]) -> anyhow::Result<()> {
    for call in calls {
        let (code, value) = told(&service.perform(call.foreman.tablet(), &call.deed.body()));
        let meaning = S::CODES
            .get(usize::from(code))
            .copied()
            .unwrap_or("no such code");
        println!(rt; "{call}: code {code} value {value} ({meaning})")?;
    }
    service.show(rt)?;
    show_print(rt, service)
}

/// Prints the SHA-256 of a service's page.
fn show_print<S: Service>(rt: &HostRuntime, service: &S) -> anyhow::Result<()> {
    let mut buffer = [0; PAGE];
    let size = service.page(&mut buffer);
    let print = sha256(&buffer[0..size])?;
    Ok(println!(rt; "print of the page: {}", Hex(&print))?)
}
