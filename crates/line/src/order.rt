//! ORDER: the lead gives a CALL its place, and tells the history with it.
use crate::call::Call;
use crate::layout::*;
use crate::record::{Form, FromLine};
use crate::taken::Taken;
use crate::{call, record};
use fault::Fault;

pub const KIND: u16 = 2;

pub const PLACE_AT: usize = HEADER_SIZE;

pub const HISTORY_AT: usize = PLACE_AT + PLACE_WIDTH;

pub const CALL_AT: usize = HISTORY_AT + HISTORY_WIDTH;

pub const TAG_AT: usize = CALL_AT + call::SIZE;

pub const SIZE: usize = TAG_AT + TAG_WIDTH;

/// What an ORDER says; history, tag and the CALL's parts lie in the line that was read.
#[derive(Clone, Copy)]
pub struct Order<'a> {
    pub sender: u16,
    pub view: u32,
    pub place: u32,
    pub history: &'a [u8],
    pub call: Call<'a>,
    pub tag: &'a [u8],
}

impl Form for Order<'_> {
    ghost use Rattle.line.specs.OrderLine.{Model as OrderModel, shown as order_shown, form as order_form};
    ghost use Rattle.line.specs.lemmas.Shows.{order_shows};

    ghost Model = { OrderModel };

    ghost shown = { order_shown };

    ghost form = { order_form };

    ghost kept = { order_shows };

    fn text_shaped(&self) -> bool {
        self.history.len() == HISTORY_WIDTH && record::is_shaped(&self.call)
    }

    fn tag_at(&self) -> usize {
        TAG_AT
    }

    fn sender(&self) -> u16 {
        self.sender
    }

    fn tag(&self) -> &[u8] {
        self.tag
    }

    #[tactic(auto, unfolding(crate::specs::Forms::text))]
    fn fill(&self, out: &mut [u8]) {
        let at = put_header(out, SIZE as u16, KIND, self.sender, self.view);
        let at = put32(out, at, self.place);
        let at = put(out, at, self.history);
        record::put_line(&self.call, out, at);
    }
}

impl<'a> FromLine<'a> for Order<'a> {
    /// The lead alone sends ORDERs. The place may be given.
    fn check_itself(line: &Taken<'a>) -> Result<(), Fault> {
        line.check_size(SIZE)?;
        let may_send = line.pit.is_lead(line.number16(SENDER_AT));
        let in_range = in_numbers(line.number32(PLACE_AT));
        line.check_rules(may_send, in_range)
    }

    fn check_inside(line: &Taken<'a>) -> Result<(), Fault> {
        record::read_inner::<Call>(call::KIND, &line.inner(CALL_AT, call::SIZE))?;
        Ok(())
    }

    fn of(line: &Taken<'a>) -> Self {
        Order {
            sender: line.number16(SENDER_AT),
            view: line.number32(VIEW_AT),
            place: line.number32(PLACE_AT),
            history: line.part(HISTORY_AT, HISTORY_WIDTH),
            call: Call::of(&line.inner(CALL_AT, call::SIZE)),
            tag: line.part(TAG_AT, TAG_WIDTH),
        }
    }
}
