//! A box's COMMITTED as a vote: which call it holds for good, at which place and history.
ghost use Rattle.line.specs.CommittedLine.{shown};
ghost use Rattle.vote.specs.CommittedVotes.{committed_vote, committeds_agree};
ghost use Rattle.std.specs.Prelude.{◌≡◌, refl};

use crate::bytes::array;
use crate::{Ballot, Claim};
use fault::{Fault, Reason};
use line::committed::Committed;
use line::layout::{HISTORY_WIDTH, TAG_WIDTH};

/// What a COMMITTED claims.
#[derive(Clone, Copy, PartialEq, Eq, Debug)]
pub struct CommittedClaim {
    pub place: u32,
    pub history: [u8; HISTORY_WIDTH],
    pub client: u16,
    pub stamp: u32,
}

/// What a box holds for good.
pub type CommittedVote = Ballot<CommittedClaim>;

impl Claim for CommittedClaim {
    ghost agree = { committeds_agree };

    ghost equal_is = { λ v w. refl };
}

/// The vote that a COMMITTED is; refused where a part has not its width.
impl TryFrom<&Committed<'_>> for CommittedVote {
    type Error = Fault;

    ghost try_from_gives = { λ line result. result ≡ committed_vote (shown line.now) };

    fn try_from(line: &Committed<'_>) -> Result<CommittedVote, Fault> {
        if line.tag.len() != TAG_WIDTH {
            return Err(Fault::of(Reason::Room));
        }
        Ok(Ballot {
            sender: line.sender,
            claim: CommittedClaim {
                place: line.place,
                history: array(line.history)?,
                client: line.client,
                stamp: line.stamp,
            },
            tag: (),
        })
    }
}
