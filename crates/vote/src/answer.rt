//! A box's ANSWER as a vote: which place, history and reply the box gives.
ghost use Rattle.line.specs.AnswerLine.{shown};
ghost use Rattle.vote.specs.AnswerVotes.{answer_vote, answers_agree};
ghost use Rattle.std.specs.Prelude.{◌≡◌, refl};

use crate::bytes::array;
use crate::{Ballot, Claim};
use fault::Fault;
use line::answer::Answer;
use line::layout::{HISTORY_WIDTH, REPLY_WIDTH, TAG_WIDTH};

/// What an ANSWER claims.
#[derive(Clone, Copy, PartialEq, Eq, Debug)]
pub struct AnswerClaim {
    pub place: u32,
    pub history: [u8; HISTORY_WIDTH],
    pub reply: [u8; REPLY_WIDTH],
}

/// What a box answered, with its tag, which a certificate shows.
pub type AnswerVote = Ballot<AnswerClaim, [u8; TAG_WIDTH]>;

impl Claim for AnswerClaim {
    ghost agree = { answers_agree };

    ghost equal_is = { λ v w. refl };
}

/// The vote that an ANSWER is; refused where a part has not its width.
impl TryFrom<&Answer<'_>> for AnswerVote {
    type Error = Fault;

    ghost try_from_gives = { λ line result. result ≡ answer_vote (shown line.now) };

    fn try_from(line: &Answer<'_>) -> Result<AnswerVote, Fault> {
        Ok(Ballot {
            sender: line.sender,
            claim: AnswerClaim {
                place: line.place,
                history: array(line.history)?,
                reply: array(line.reply)?,
            },
            tag: array(line.tag)?,
        })
    }
}
