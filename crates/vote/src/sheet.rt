//! A box's SHEET as a vote: its history and the print of its page at a place.
ghost use Rattle.line.specs.SheetLine.{shown};
ghost use Rattle.vote.specs.SheetVotes.{sheet_vote, sheets_agree};
ghost use Rattle.std.specs.Prelude.{◌≡◌, refl};

use crate::bytes::array;
use crate::{Ballot, Claim};
use fault::{Fault, Reason};
use line::layout::{HISTORY_WIDTH, PRINT_WIDTH, TAG_WIDTH};
use line::sheet::Sheet;

/// What a SHEET claims.
#[derive(Clone, Copy, PartialEq, Eq, Debug)]
pub struct SheetClaim {
    pub place: u32,
    pub history: [u8; HISTORY_WIDTH],
    pub print: [u8; PRINT_WIDTH],
}

/// What a box's sheet says.
pub type SheetVote = Ballot<SheetClaim>;

impl Claim for SheetClaim {
    ghost agree = { sheets_agree };

    ghost equal_is = { λ v w. refl };
}

/// The vote that a SHEET is; refused where a part has not its width.
impl TryFrom<&Sheet<'_>> for SheetVote {
    type Error = Fault;

    ghost try_from_gives = { λ line result. result ≡ sheet_vote (shown line.now) };

    fn try_from(line: &Sheet<'_>) -> Result<SheetVote, Fault> {
        if line.tag.len() != TAG_WIDTH {
            return Err(Fault::of(Reason::Room));
        }
        Ok(Ballot {
            sender: line.sender,
            claim: SheetClaim {
                place: line.place,
                history: array(line.history)?,
                print: array(line.print)?,
            },
            tag: (),
        })
    }
}
