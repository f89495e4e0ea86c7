//! CHARGE: a tablet shows two ORDERs of the lead that do not go together.
use crate::layout::*;
use crate::order::Order;
use crate::pit::is_client;
use crate::record::{Form, FromLine};
use crate::taken::Taken;
use crate::{order, record};
use fault::Fault;

pub const KIND: u16 = 7;

pub const FIRST_AT: usize = HEADER_SIZE;

pub const SECOND_AT: usize = FIRST_AT + order::SIZE;

pub const TAG_AT: usize = SECOND_AT + order::SIZE;

pub const SIZE: usize = TAG_AT + TAG_WIDTH;

/// What a CHARGE says; the ORDERs' parts and the tag lie in the line that was read.
#[derive(Clone, Copy)]
pub struct Charge<'a> {
    pub sender: u16,
    pub view: u32,
    pub first: Order<'a>,
    pub second: Order<'a>,
    pub tag: &'a [u8],
}

impl Form for Charge<'_> {
    ghost use Rattle.line.specs.ChargeLine.{Model as ChargeModel, shown as charge_shown, form as charge_form};
    ghost use Rattle.line.specs.lemmas.Shows.{charge_shows};

    ghost Model = { ChargeModel };

    ghost shown = { charge_shown };

    ghost form = { charge_form };

    ghost kept = { charge_shows };

    fn text_shaped(&self) -> bool {
        record::is_shaped(&self.first) && record::is_shaped(&self.second)
    }

    fn tag_at(&self) -> usize {
        TAG_AT
    }

    fn sender(&self) -> u16 {
        self.sender
    }

    fn tag(&self) -> &[u8] {
        self.tag
    }

    #[tactic(auto, unfolding(crate::specs::Forms::text))]
    fn fill(&self, out: &mut [u8]) {
        let at = put_header(out, SIZE as u16, KIND, self.sender, self.view);
        let at = record::put_line(&self.first, out, at);
        record::put_line(&self.second, out, at);
    }
}

impl<'a> FromLine<'a> for Charge<'a> {
    /// Any tablet sends CHARGEs. A CHARGE has no number of its own.
    fn check_itself(line: &Taken<'a>) -> Result<(), Fault> {
        line.check_size(SIZE)?;
        let may_send = is_client(line.number16(SENDER_AT));
        let in_range = true;
        line.check_rules(may_send, in_range)
    }

    fn check_inside(line: &Taken<'a>) -> Result<(), Fault> {
        record::read_inner::<Order>(order::KIND, &line.inner(FIRST_AT, order::SIZE))?;
        record::read_inner::<Order>(order::KIND, &line.inner(SECOND_AT, order::SIZE))?;
        Ok(())
    }

    fn of(line: &Taken<'a>) -> Self {
        Charge {
            sender: line.number16(SENDER_AT),
            view: line.number32(VIEW_AT),
            first: Order::of(&line.inner(FIRST_AT, order::SIZE)),
            second: Order::of(&line.inner(SECOND_AT, order::SIZE)),
            tag: line.part(TAG_AT, TAG_WIDTH),
        }
    }
}
