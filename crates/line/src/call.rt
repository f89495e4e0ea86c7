//! CALL: a tablet asks for an operation, under a stamp of its own.
use crate::layout::*;
use crate::pit::is_client;
use crate::record::{Form, FromLine};
use crate::taken::Taken;
use fault::Fault;

pub const KIND: u16 = 1;

pub const STAMP_AT: usize = HEADER_SIZE;

pub const BODY_AT: usize = STAMP_AT + STAMP_WIDTH;

pub const TAG_AT: usize = BODY_AT + BODY_WIDTH;

pub const SIZE: usize = TAG_AT + TAG_WIDTH;

/// What a CALL says; body and tag lie in the line that was read.
#[derive(Clone, Copy)]
pub struct Call<'a> {
    pub sender: u16,
    pub view: u32,
    pub stamp: u32,
    pub body: &'a [u8],
    pub tag: &'a [u8],
}

impl Form for Call<'_> {
    ghost use Rattle.line.specs.CallLine.{Model as CallModel, shown as call_shown, form as call_form};
    ghost use Rattle.line.specs.lemmas.Shows.{call_shows};

    ghost Model = { CallModel };

    ghost shown = { call_shown };

    ghost form = { call_form };

    ghost kept = { call_shows };

    fn text_shaped(&self) -> bool {
        self.body.len() == BODY_WIDTH
    }

    fn tag_at(&self) -> usize {
        TAG_AT
    }

    fn sender(&self) -> u16 {
        self.sender
    }

    fn tag(&self) -> &[u8] {
        self.tag
    }

    #[tactic(auto, unfolding(crate::specs::Forms::text))]
    fn fill(&self, out: &mut [u8]) {
        let at = put_header(out, SIZE as u16, KIND, self.sender, self.view);
        let at = put32(out, at, self.stamp);
        put(out, at, self.body);
    }
}

impl<'a> FromLine<'a> for Call<'a> {
    /// Any tablet sends CALLs. The stamp is one that may be given.
    fn check_itself(line: &Taken<'a>) -> Result<(), Fault> {
        line.check_size(SIZE)?;
        let may_send = is_client(line.number16(SENDER_AT));
        let in_range = in_numbers(line.number32(STAMP_AT));
        line.check_rules(may_send, in_range)
    }

    fn check_inside(_line: &Taken<'a>) -> Result<(), Fault> {
        Ok(())
    }

    fn of(line: &Taken<'a>) -> Self {
        Call {
            sender: line.number16(SENDER_AT),
            view: line.number32(VIEW_AT),
            stamp: line.number32(STAMP_AT),
            body: line.part(BODY_AT, BODY_WIDTH),
            tag: line.part(TAG_AT, TAG_WIDTH),
        }
    }
}
