//! SHEET: a box tells the others its history and the print of its page, every so many places.
use crate::layout::*;
use crate::record::{Form, FromLine};
use crate::taken::Taken;
use fault::Fault;

pub const KIND: u16 = 6;

pub const PLACE_AT: usize = HEADER_SIZE;

pub const HISTORY_AT: usize = PLACE_AT + PLACE_WIDTH;

pub const PRINT_AT: usize = HISTORY_AT + HISTORY_WIDTH;

pub const TAG_AT: usize = PRINT_AT + PRINT_WIDTH;

pub const SIZE: usize = TAG_AT + TAG_WIDTH;

/// What a SHEET says; history, print and tag lie in the line that was read.
#[derive(Clone, Copy)]
pub struct Sheet<'a> {
    pub sender: u16,
    pub view: u32,
    pub place: u32,
    pub history: &'a [u8],
    pub print: &'a [u8],
    pub tag: &'a [u8],
}

impl Form for Sheet<'_> {
    ghost use Rattle.line.specs.SheetLine.{Model as SheetModel, shown as sheet_shown, form as sheet_form};
    ghost use Rattle.line.specs.lemmas.Shows.{sheet_shows};

    ghost Model = { SheetModel };

    ghost shown = { sheet_shown };

    ghost form = { sheet_form };

    ghost kept = { sheet_shows };

    fn text_shaped(&self) -> bool {
        self.history.len() == HISTORY_WIDTH && self.print.len() == PRINT_WIDTH
    }

    fn tag_at(&self) -> usize {
        TAG_AT
    }

    fn sender(&self) -> u16 {
        self.sender
    }

    fn tag(&self) -> &[u8] {
        self.tag
    }

    #[tactic(auto, unfolding(crate::specs::Forms::text))]
    fn fill(&self, out: &mut [u8]) {
        let at = put_header(out, SIZE as u16, KIND, self.sender, self.view);
        let at = put32(out, at, self.place);
        let at = put(out, at, self.history);
        put(out, at, self.print);
    }
}

impl<'a> FromLine<'a> for Sheet<'a> {
    /// Any box sends SHEETs. The place may be given, and a sheet is made there.
    fn check_itself(line: &Taken<'a>) -> Result<(), Fault> {
        line.check_size(SIZE)?;
        let may_send = line.pit.is_replica(line.number16(SENDER_AT));
        let place = line.number32(PLACE_AT);
        let in_range = in_numbers(place) && on_sheet(place);
        line.check_rules(may_send, in_range)
    }

    fn check_inside(_line: &Taken<'a>) -> Result<(), Fault> {
        Ok(())
    }

    fn of(line: &Taken<'a>) -> Self {
        Sheet {
            sender: line.number16(SENDER_AT),
            view: line.number32(VIEW_AT),
            place: line.number32(PLACE_AT),
            history: line.part(HISTORY_AT, HISTORY_WIDTH),
            print: line.part(PRINT_AT, PRINT_WIDTH),
            tag: line.part(TAG_AT, TAG_WIDTH),
        }
    }
}
