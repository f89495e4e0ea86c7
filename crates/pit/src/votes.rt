//! A small count in words: the ANSWERs of a pit of four boxes, as a tablet counts them.
use line::answer::Answer;
use service::reply::Code;
use service::{REPLY, reply};
use std::fmt;
use vote::answer::AnswerVote;
use vote::tally::{Tally, each_in_its_row, one_quorum};

/// How many boxes the pit has.
const BOXES: usize = 4;

/// What any two groups of this size share, with one lying box among four, is a box that keeps the rules.
const QUORUM: usize = 3;

/// What a box says of truck 11.
#[derive(Clone, Copy)]
enum Word {
    Sent,
    Full,
}

impl Word {
    /// The board's reply that says so.
    fn reply(self) -> [u8; REPLY] {
        reply::bytes(match self {
            Word::Sent => Ok(1),
            Word::Full => Err(Code::SpotFull),
        })
    }
}

// By hand: the derive at hand is for errors.
impl fmt::Display for Word {
    fn fmt<W: fmt::Write>(&self, f: &mut fmt::Formatter<W>) -> fmt::Result {
        match self {
            Word::Sent => write!(f, "truck 11 is sent to spot 5"),
            Word::Full => write!(f, "spot 5 is full"),
        }
    }
}

/// Counts the ANSWERs of four boxes twice: three of four agree, and two stand against two.
pub(crate) fn show(rt: &HostRuntime) -> anyhow::Result<()> {
    each_in_its_row::<AnswerVote>();
    one_quorum::<AnswerVote>();
    println!(rt; "")?;
    println!(rt; "ANSWERs counted in a pit of four boxes")?;
    println!(rt; "Boxes 0, 1 and 3 give one answer, box 2 lies:")?;
    count(rt, [Word::Sent, Word::Sent, Word::Full, Word::Sent])?;
    println!(rt; "Boxes 0 and 2 give one answer, boxes 1 and 3 another:")?;
    count(rt, [Word::Full, Word::Sent, Word::Full, Word::Sent])
}

/// The vote of a box for the call at place 1.
fn vote_of(sender: u16, word: Word) -> anyhow::Result<AnswerVote> {
    let history = [7; 32];
    let reply = word.reply();
    let tag = [0; 32];
    let line = Answer {
        sender,
        view: 0,
        place: 1,
        history: &history,
        client: 0,
        stamp: 1,
        reply: &reply,
        tag: &tag,
    };
    Ok(AnswerVote::try_from(&line)?)
}

/// Says what each box answered, how many agree, and whether that is enough for a certificate.
fn count(rt: &HostRuntime, words: [Word; BOXES]) -> anyhow::Result<()> {
    let mut rows = [None; BOXES];
    let mut tally = Tally::over(&mut rows);
    for (sender, word) in (0..).zip(words) {
        println!(rt; "  box {sender} says: {word}")?;
        tally.add(vote_of(sender, word)?)?;
    }
    if let Err(fault) = tally.add(vote_of(0, Word::Sent)?) {
        println!(rt; "  box 0 once more: {fault}")?;
    }
    for word in [Word::Sent, Word::Full] {
        let n = tally.agreeing(&vote_of(0, word)?);
        println!(rt; "  {n} of {BOXES} agree that {word}")?;
    }
    conclude(rt, &tally)
}

/// Says which boxes a certificate would show, if enough agree.
fn conclude(rt: &HostRuntime, tally: &Tally<'_, AnswerVote>) -> anyhow::Result<()> {
    let Some(vote) = tally.leading(QUORUM) else {
        println!(rt; "  not {QUORUM} boxes agree, so there is no certificate")?;
        return Ok(());
    };
    let mut boxes = [0; QUORUM];
    tally.voters(&vote, QUORUM, &mut boxes)?;
    let [a, b, c] = boxes;
    println!(rt; "  a certificate shows boxes {a}, {b} and {c}")?;
    Ok(())
}
