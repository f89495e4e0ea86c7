//! COMMITTED: a box tells a tablet that it holds the certified history for good.
use crate::layout::*;
use crate::record::{Form, FromLine};
use crate::taken::Taken;
use fault::Fault;

pub const KIND: u16 = 5;

pub const PLACE_AT: usize = HEADER_SIZE;

pub const HISTORY_AT: usize = PLACE_AT + PLACE_WIDTH;

pub const CLIENT_AT: usize = HISTORY_AT + HISTORY_WIDTH;

pub const STAMP_AT: usize = CLIENT_AT + CLIENT_WIDTH;

pub const TAG_AT: usize = STAMP_AT + STAMP_WIDTH;

pub const SIZE: usize = TAG_AT + TAG_WIDTH;

/// What a COMMITTED says; history and tag lie in the line that was read.
#[derive(Clone, Copy)]
pub struct Committed<'a> {
    pub sender: u16,
    pub view: u32,
    pub place: u32,
    pub history: &'a [u8],
    pub client: u16,
    pub stamp: u32,
    pub tag: &'a [u8],
}

impl Form for Committed<'_> {
    ghost use Rattle.line.specs.CommittedLine.{Model as CommittedModel, shown as committed_shown, form as committed_form};
    ghost use Rattle.line.specs.lemmas.Shows.{committed_shows};

    ghost Model = { CommittedModel };

    ghost shown = { committed_shown };

    ghost form = { committed_form };

    ghost kept = { committed_shows };

    fn text_shaped(&self) -> bool {
        self.history.len() == HISTORY_WIDTH
    }

    fn tag_at(&self) -> usize {
        TAG_AT
    }

    fn sender(&self) -> u16 {
        self.sender
    }

    fn tag(&self) -> &[u8] {
        self.tag
    }

    #[tactic(auto, unfolding(crate::specs::Forms::text))]
    fn fill(&self, out: &mut [u8]) {
        let at = put_header(out, SIZE as u16, KIND, self.sender, self.view);
        let at = put32(out, at, self.place);
        let at = put(out, at, self.history);
        let at = put16(out, at, self.client);
        put32(out, at, self.stamp);
    }
}

impl<'a> FromLine<'a> for Committed<'a> {
    /// Any box sends COMMITTEDs. Place and stamp may be given, and there is such a tablet.
    fn check_itself(line: &Taken<'a>) -> Result<(), Fault> {
        line.check_size(SIZE)?;
        let may_send = line.pit.is_replica(line.number16(SENDER_AT));
        let in_range = in_numbers(line.number32(PLACE_AT))
            && in_numbers(line.number32(STAMP_AT))
            && in_clients(line.number16(CLIENT_AT));
        line.check_rules(may_send, in_range)
    }

    fn check_inside(_line: &Taken<'a>) -> Result<(), Fault> {
        Ok(())
    }

    fn of(line: &Taken<'a>) -> Self {
        Committed {
            sender: line.number16(SENDER_AT),
            view: line.number32(VIEW_AT),
            place: line.number32(PLACE_AT),
            history: line.part(HISTORY_AT, HISTORY_WIDTH),
            client: line.number16(CLIENT_AT),
            stamp: line.number32(STAMP_AT),
            tag: line.part(TAG_AT, TAG_WIDTH),
        }
    }
}
