//! CERT: a tablet shows that a quorum of boxes gave one ANSWER.
ghost use Rattle.line.specs.AnswerLine.{shown as answer_shown};
ghost use Rattle.line.specs.CertLine.{answer_of, shown, fields, in_range, rising, voters, entry_size, entries_size, size_of};
ghost use Rattle.line.specs.SetUp.{quorum_of};
ghost use Rattle.std.specs.Option.{option_map};
ghost use Rattle.std.specs.Prelude.{◌≡◌, ◌/◌, ◌^◌, ◌<◌, length};

use crate::answer::Answer;
use crate::layout::*;
use crate::pit::{FIRST_CLIENT, Pit, is_client};
use crate::record::{Form, FromLine};
use crate::taken::Taken;
use fault::Fault;

pub const KIND: u16 = 4;

pub const PLACE_AT: usize = HEADER_SIZE;

pub const HISTORY_AT: usize = PLACE_AT + PLACE_WIDTH;

pub const CLIENT_AT: usize = HISTORY_AT + HISTORY_WIDTH;

pub const STAMP_AT: usize = CLIENT_AT + CLIENT_WIDTH;

pub const REPLY_AT: usize = STAMP_AT + STAMP_WIDTH;

pub const COUNT_AT: usize = REPLY_AT + REPLY_WIDTH;

pub const ENTRIES_AT: usize = COUNT_AT + COUNT_WIDTH;

/// An entry is a box's number and that box's tag.
pub const ENTRY_SIZE: usize = REPLICA_WIDTH + TAG_WIDTH;

pub const ENTRY_TAG_AT: usize = REPLICA_WIDTH;

/// What a CERT says; history, reply, entries and tag lie in the line that was read.
#[derive(Clone, Copy)]
pub struct Cert<'a> {
    pub sender: u16,
    pub view: u32,
    pub place: u32,
    pub history: &'a [u8],
    pub client: u16,
    pub stamp: u32,
    pub reply: &'a [u8],
    // A field of the line, which the reader compares with the quorum, and no length of `entries`.
    pub count: u16,
    pub entries: &'a [u8],
    pub tag: &'a [u8],
}

/// So many bytes have the entries of a quorum.
fn entries_of(pit: &Pit) -> usize
    ensures value { result ≡ entries_size (quorum_of pit.now) }
    ensures few { result < 2 ^ 32 }
{
    ENTRY_SIZE * pit.quorum() as usize
}

/// The boxes of the entries rise strictly, and all are boxes of the pit.
fn rises(entries: &[u8], replicas: u16) -> bool
    ensures { result ≡ rising 0 replicas (voters (length entries.now / entry_size) entries.now) }
{
    let mut low = 0;
    for entry in entries.chunks_exact(ENTRY_SIZE) {
        let voter = number16(entry, 0);
        if voter < low || voter >= replicas {
            return false;
        }
        low = voter + 1;
    }
    true
}

impl<'a> Cert<'a> {
    /// The ANSWER that an entry stands for: that box's, with what the CERT says. None where there is no such entry.
    pub fn answer(&self, i: u16) -> Option<Answer<'a>>
        ensures { option_map answer_shown result ≡ answer_of (shown self.now) i }
    {
        let at = ENTRY_SIZE * i as usize;
        if self.entries.len() < at + ENTRY_SIZE {
            return None;
        }
        Some(Answer {
            sender: number16(self.entries, at),
            view: self.view,
            place: self.place,
            history: self.history,
            client: self.client,
            stamp: self.stamp,
            reply: self.reply,
            tag: part_at(self.entries, at + ENTRY_TAG_AT, TAG_WIDTH),
        })
    }

    /// The size of the line.
    fn size(&self) -> usize
        ensures { result ≡ size_of self.now.count }
    {
        Form::tag_at(self) + TAG_WIDTH
    }

    /// Place and stamp may be given, the tablet is the sender, and the entries are those of a quorum.
    fn is_in_range(&self, pit: &Pit) -> bool
        requires { length self.now.entries.now ≡ entries_size (quorum_of pit.now) }
        ensures { result ≡ in_range pit.now (shown self.now) }
    {
        in_numbers(self.place)
            && in_numbers(self.stamp)
            && in_clients(self.client)
            && self.sender == FIRST_CLIENT + self.client
            && self.count == pit.quorum()
            && rises(self.entries, pit.replicas())
    }
}

impl Form for Cert<'_> {
    ghost use Rattle.line.specs.CertLine.{Model as CertModel, shown as cert_shown, form as cert_form};
    ghost use Rattle.line.specs.lemmas.Shows.{cert_shows};

    ghost Model = { CertModel };

    ghost shown = { cert_shown };

    ghost form = { cert_form };

    ghost kept = { cert_shows };

    fn text_shaped(&self) -> bool {
        self.history.len() == HISTORY_WIDTH
            && self.reply.len() == REPLY_WIDTH
            && self.entries.len() == ENTRY_SIZE * self.count as usize
            && self.size() <= MOST_SIZE
    }

    fn tag_at(&self) -> usize {
        ENTRIES_AT + ENTRY_SIZE * self.count as usize
    }

    fn sender(&self) -> u16 {
        self.sender
    }

    fn tag(&self) -> &[u8] {
        self.tag
    }

    #[tactic(auto, unfolding(crate::specs::Forms::text))]
    fn fill(&self, out: &mut [u8]) {
        let at = put_header(out, self.size() as u16, KIND, self.sender, self.view);
        let at = put32(out, at, self.place);
        let at = put(out, at, self.history);
        let at = put16(out, at, self.client);
        let at = put32(out, at, self.stamp);
        let at = put(out, at, self.reply);
        let at = put16(out, at, self.count);
        put(out, at, self.entries);
    }
}

impl<'a> FromLine<'a> for Cert<'a> {
    /// Any tablet sends CERTs. Place and stamp may be given, the tablet is the sender, and the entries are those of a quorum.
    fn check_itself(line: &Taken<'a>) -> Result<(), Fault> {
        line.check_size(ENTRIES_AT + entries_of(&line.pit) + TAG_WIDTH)?;
        let cert = Self::of(line);
        line.check_rules(is_client(cert.sender), cert.is_in_range(&line.pit))
    }

    fn check_inside(_line: &Taken<'a>) -> Result<(), Fault> {
        Ok(())
    }

    fn of(line: &Taken<'a>) -> Self {
        let entries_size = entries_of(&line.pit);
        Cert {
            sender: line.number16(SENDER_AT),
            view: line.number32(VIEW_AT),
            place: line.number32(PLACE_AT),
            history: line.part(HISTORY_AT, HISTORY_WIDTH),
            client: line.number16(CLIENT_AT),
            stamp: line.number32(STAMP_AT),
            reply: line.part(REPLY_AT, REPLY_WIDTH),
            count: line.number16(COUNT_AT),
            entries: line.part(ENTRIES_AT, entries_size),
            tag: line.part(ENTRIES_AT + entries_size, TAG_WIDTH),
        }
    }
}
