//! The lead: it gives every call its place and history, and tells the boxes by an ORDER.

#![tactic(auto)]

mod heard;
pub mod laws;

ghost use Rattle.std.specs.Prelude.{◌≡◌, ◌<◌, length};
ghost use Rattle.fault.specs.Checks.{result_map};
ghost use Rattle.lead.specs.Leading.{assigned, hears, holding, lead_opened, lead_takes, next_row, order_of, row_in};
ghost use Rattle.line.specs.CallLine.{shown as call_shown};
ghost use Rattle.line.specs.OrderLine.{text as order_text};
ghost use Rattle.line.specs.SetUp.{lead_of};
ghost use Rattle.step.specs.Calls.{Carried};

use crate::heard::Heard;
use fault::{Fault, Reason};
use hear::hear;
use line::kind::Kind;
use line::layout::{BODY_WIDTH, LAST_NUMBER};
use line::lines::Line;
use line::order;
use line::order::Order;
use line::pit::{CLIENTS, Pit};
use line::record::Record;
use seal::Seal;
use step::{HISTORY_SIZE, NO_HISTORY, deliver, link, roomy};

/// How many places there are to give.
const LAST_PLACE: u32 = LAST_NUMBER;

/// How many tablets a lead keeps a row for.
const ROWS: usize = CLIENTS as usize;

/// How many bytes a body has.
const BODY_SIZE: usize = BODY_WIDTH;

/// What the lead takes.
const CALLS_ONLY: &[Kind] = &[Kind::Call];

/// A tablet's last call: its stamp and body, and the place and history that it was given.
#[derive(Clone, Copy)]
pub struct Row {
    stamp: u32,
    place: u32,
    history: [u8; HISTORY_SIZE],
    body: [u8; BODY_SIZE],
}

/// A tablet that has not called yet.
// Not `Option<Row>`: by the rules every stamp and place is 0 at first, so that any stamp, all above 0, is newer than none.
const NO_ROW: Row = Row {
    stamp: 0,
    place: 0,
    history: NO_HISTORY,
    body: [0; BODY_SIZE],
};

/// The row that a call has: its former one, or a new one with the next place.
#[derive(Clone, Copy)]
enum Assignment {
    Repeat(Row),
    Fresh(Row),
}

/// The lead of a pit: the last place that it gave, the history there, and the last call of each tablet.
// Rows in an array, and no map: a box has a stated memory.
#[derive(Drop)]
pub struct Lead {
    pit: Pit,
    place: u32,
    history: [u8; HISTORY_SIZE],
    rows: [Row; ROWS],
}

impl Lead {
    /// Opens the lead of a pit: the number must be that of the pit's lead.
    pub fn open(f: u8, view: u32, number: u16) -> Result<Lead, Fault>
        ensures { result ≡ lead_opened f view number }
    {
        let pit = Pit::open(f, view)?;
        if !pit.is_lead(number) {
            return Err(Fault::of(Reason::SetUp));
        }
        Ok(Lead {
            pit,
            place: 0,
            history: NO_HISTORY,
            rows: [NO_ROW; ROWS],
        })
    }

    /// The last place that was given, 0 at first.
    pub fn place(&self) -> u32
        ensures { result ≡ self.now.place }
    {
        self.place
    }

    /// The history at that place.
    pub fn history(&self) -> &[u8; HISTORY_SIZE]
        ensures { result.now ≡ self.now.history }
    {
        &self.history
    }

    /// The CALL that the bytes are, once the outbox has room, and the line and its tag are right.
    fn hear_call<'a, S: Seal>(
        &self,
        seal: &S,
        line: &'a [u8],
        room: usize,
    ) -> Result<Heard<'a>, Fault>
        ensures { result_map (λ h. call_shown h.call) result ≡ hears self.now.pit (S.meaning seal.now) line.now room }
    {
        if !roomy(room) {
            return Err(Fault::of(Reason::Room));
        }
        match hear(&self.pit, CALLS_ONLY, seal, line)? {
            Line::Call(call) => Ok(Heard { call }),
            _ => Err(Fault::of(Reason::Kind)),
        }
    }
}

impl Assignment {
    fn row(&self) -> &Row
        ensures { result.now ≡ row_in self.now }
    {
        match self {
            Assignment::Repeat(row) | Assignment::Fresh(row) => row,
        }
    }
}

impl Lead {
    /// The next place and history, for a new call.
    fn next_row(&self, heard: &Heard) -> Row
        requires { self.now.place < LAST_PLACE }
        ensures { result ≡ next_row self.now (call_shown heard.now.call) }
    {
        Row {
            stamp: heard.call.stamp,
            place: self.place + 1,
            history: link(&self.history, &heard.text()),
            body: heard.body(),
        }
    }

    /// The row that a call has: a repeat its former one, a new call one with the next place.
    fn assign(&self, heard: &Heard) -> Result<Assignment, Fault>
        ensures { result ≡ assigned self.now (call_shown heard.now.call) }
    {
        let row = self.rows[heard.client()];
        if heard.is_outdated(&row) {
            return Err(Fault::of(Reason::Stamp));
        }
        if heard.call.stamp == row.stamp {
            return Ok(Assignment::Repeat(row));
        }
        if self.place >= LAST_PLACE {
            return Err(Fault::of(Reason::Full));
        }
        Ok(Assignment::Fresh(self.next_row(heard)))
    }

    /// What is stamped of the ORDER that gives a call its row's place.
    fn order_text<'a>(&self, heard: &Heard<'a>, row: &'a Row) -> [u8; order::TAG_AT]
        ensures { result ≡ order_text (order_of self.now.pit (call_shown heard.now.call) row.now) }
    {
        let order = Order {
            sender: self.pit.lead(),
            view: self.pit.view(),
            place: row.place,
            history: &row.history,
            call: heard.call,
            tag: &[],
        };
        let mut text = [0; order::TAG_AT];
        order.write_text(&mut text).unwrap();
        text
    }

    /// Keeps what a call was given: a repeat changes nothing.
    fn keep(&mut self, heard: &Heard, assignment: Assignment)
        ensures { self.new ≡ holding self.old (call_shown heard.now.call) assignment }
    {
        if let Assignment::Fresh(row) = assignment {
            // An array is stored from a variable: straight from the row, the checker of borrows does not cover it.
            let Row { place, history, .. } = row;
            self.rows[heard.client()] = row;
            self.history = history;
            self.place = place;
        }
    }

    /// Takes a line: a CALL gets its place, and the ORDER that says so is written into the outbox.
    pub fn take<S: Seal>(
        &mut self,
        seal: &mut S,
        line: &[u8],
        out: &mut [u8],
    ) -> Result<usize, Fault>
        ensures { Carried (lead_of self.old.pit) (lead_takes self.old (S.meaning seal.old) line.now (length out.old)) (record { state = self.old; seal = S.meaning seal.old; out = out.old }) (record { state = self.new; seal = S.meaning seal.new; out = out.new }) result }
    {
        let heard = self.hear_call(seal, line, out.len())?;
        let assignment = self.assign(&heard)?;
        let text = self.order_text(&heard, assignment.row());
        let count = deliver(seal, self.pit.lead(), &text, &[], out)?;
        self.keep(&heard, assignment);
        Ok(count)
    }
}
