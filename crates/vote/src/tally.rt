//! The tally: one row for each box, in memory that is lent, and what the rows say together.
ghost use Rattle.vote.specs.Counting.{row_of, has_row, added, rows_added, replaced, rows_replaced, row_agrees, voters_of, count_of, CountedOnce, leads, leading_of, Lowest, most_boxes, listed, memory_listed, OneQuorum, SeatsKept};
ghost use Rattle.std.specs.Prelude.{◌≡◌, ◌≤◌, length, take};

use crate::Vote;
use fault::{Fault, Reason};

/// Box numbers have 16 bits.
const MOST_BOXES: usize = 65_536;

/// Rows of votes, indexed by box.
// Not `impl Model`: it would hide whose memory the rows are, which the clauses `lender` hand on, and a caller would learn nothing of its rows.
#[derive(Drop)]
pub struct Tally<'a, V> {
    rows: &'a mut [Option<V>],
}

impl<'a, V: Vote + Copy> Tally<'a, V> {
    /// A tally over rows as they are.
    pub fn over(rows: &'a mut [Option<V>]) -> Tally<'a, V>
        ensures rows { result.rows.now ≡ rows.old }
        ensures lender { result.rows.ghost_name ≡ rows.entry.ghost_name }
    {
        Tally { rows }
    }

    /// The row of the box.
    pub fn row(&self, replica: u16) -> Option<V>
        ensures { result ≡ row_of self.now.rows.now replica }
    {
        self.rows.get(usize::from(replica)).copied().flatten()
    }

    /// Has the box a row?
    pub fn has(&self, replica: u16) -> bool
        ensures { result ≡ has_row self.now.rows.now replica }
    {
        self.row(replica).is_some()
    }

    /// Makes a vote the row of the box that sent it, unless the box has a row already.
    pub fn add(&mut self, vote: V) -> Result<(), Fault>
        ensures answer { result ≡ added self.old.rows.now (V.Sent.origin vote) }
        ensures after { self.new.rows.now ≡ rows_added self.old.rows.now (V.Sent.origin vote) vote }
        ensures lender { self.new.rows.ghost_name ≡ self.old.rows.ghost_name }
    {
        if self.has(vote.sender()) {
            return Err(Fault::of(Reason::Twice));
        }
        self.replace(vote)
    }

    /// Makes a vote the row of the box that sent it, whatever the row was.
    pub fn replace(&mut self, vote: V) -> Result<(), Fault>
        ensures answer { result ≡ replaced self.old.rows.now (V.Sent.origin vote) }
        ensures after { self.new.rows.now ≡ rows_replaced self.old.rows.now (V.Sent.origin vote) vote }
        ensures lender { self.new.rows.ghost_name ≡ self.old.rows.ghost_name }
    {
        // Not by `get_mut`: of memory behind it only the length is told afterwards.
        let at = vote.sender() as usize;
        if at >= self.rows.len() {
            return Err(Fault::of(Reason::Sender));
        }
        self.rows[at] = Some(vote);
        Ok(())
    }

    /// How many boxes agree with the vote.
    pub fn agreeing(&self, vote: &V) -> usize
        ensures count { result ≡ count_of V.agree vote.now self.now.rows.now }
        ensures once { CountedOnce V.agree vote.now self.now.rows.now }
    {
        count(self.rows, vote)
    }

    /// The row of the lowest box with which at least `n` boxes agree.
    #[tactic(auto, using(crate::proofs::Leading::leading_lowest))]
    pub fn leading(&self, n: usize) -> Option<V>
        ensures row { result ≡ leading_of V.agree n self.now.rows.now }
        ensures lowest { Lowest V.agree n self.now.rows.now result }
    {
        first_leading(self.rows, n)
    }

    /// Writes the `n` lowest boxes that agree with the vote into the front of the memory, rising.
    pub fn voters(&self, vote: &V, n: usize, out: &mut [u16]) -> Result<(), Fault>
        ensures answer { result ≡ listed V.agree vote.now n self.now.rows.now out.old }
        ensures after { out.new ≡ memory_listed V.agree vote.now n self.now.rows.now out.old }
    {
        let rows = &*self.rows;
        if out.len() < n || rows.len() > MOST_BOXES {
            return Err(Fault::of(Reason::Room));
        }
        if count(rows, vote) < n {
            return Err(Fault::of(Reason::NoQuorum));
        }
        list(rows, vote, &mut out[0..n]);
        Ok(())
    }
}

/// Is there a vote in the row, and does it agree?
fn row_agrees<V: Vote>(vote: &V, row: &Option<V>) -> bool
    ensures { result ≡ row_agrees V.agree vote.now row.now }
{
    row.as_ref().is_some_and(|other| vote.agrees(other))
}

/// How many rows agree with the vote.
#[tactic(auto, using(crate::proofs::Voters::length_voters))]
fn count<V: Vote>(rows: &[Option<V>], vote: &V) -> usize
    ensures { result ≡ count_of V.agree vote.now rows.now }
{
    rows.iter().filter(|row| row_agrees(vote, row)).count()
}

/// Is there a vote in the row, with which at least `n` rows agree?
fn row_leads<V: Vote>(rows: &[Option<V>], n: usize, row: &Option<V>) -> bool
    ensures { result ≡ leads V.agree n rows.now row.now }
{
    row.as_ref().is_some_and(|vote| count(rows, vote) >= n)
}

/// The first row with which at least `n` rows agree.
fn first_leading<V: Vote + Copy>(rows: &[Option<V>], n: usize) -> Option<V>
    ensures { result ≡ leading_of V.agree n rows.now }
{
    rows.iter()
        .find(|row| row_leads(rows, n, row))
        .copied()
        .flatten()
}

/// Fills the memory with the lowest boxes that agree with the vote, rising.
fn list<V: Vote>(rows: &[Option<V>], vote: &V, out: &mut [u16])
    requires few { length rows.now ≤ most_boxes }
    requires enough { length out.old ≤ count_of V.agree vote.now rows.now }
    ensures { out.new ≡ take (length out.old) (voters_of V.agree vote.now rows.now) }
{
    // By `zip` with `out.iter_mut()`, tried, what is listed stays open: of memory behind `iter_mut` only the length is told.
    let mut listed = 0;
    for (replica, row) in rows.iter().enumerate() {
        if listed == out.len() {
            return;
        }
        if row_agrees(vote, row) {
            out[listed] = replica as u16;
            listed += 1;
        }
    }
}

/// Rows that began empty and were added and replaced hold, for each box, that box's own vote.
pub fn each_in_its_row<V: Vote>()
    ensures { SeatsKept V.Sent.origin }
{}

/// Of 3f+1 rows, no two votes that disagree have 2f+1 each, whatever their kind.
pub fn one_quorum<V: Vote>()
    ensures { OneQuorum V.agree }
{}

#[cfg(test)]
mod tests {
    use super::*;
    use crate::Sent;
    use crate::answer::{AnswerClaim, AnswerVote};
    use std::test::Fail;

    fn answer(sender: u16, reply: u8) -> AnswerVote {
        AnswerVote {
            sender,
            claim: AnswerClaim {
                place: 1,
                history: [7; 32],
                reply: [reply; 8],
            },
            tag: [0; 32],
        }
    }

    #[test]
    fn three_of_four_agree(rt: HostRuntime) -> Result<(), Fail> {
        let mut rows = [None; 4];
        let mut tally = Tally::over(&mut rows);
        tally.add(answer(3, 5))?;
        tally.add(answer(1, 6))?;
        tally.add(answer(0, 5))?;
        tally.add(answer(2, 5))?;
        assert_eq!(rt; tally.add(answer(2, 5)), Err(Fault::of(Reason::Twice)));
        assert_eq!(rt; tally.add(answer(4, 5)), Err(Fault::of(Reason::Sender)));
        assert!(rt; tally.agreeing(&answer(9, 5)) == 3);
        let mut boxes = [0; 4];
        tally.voters(&answer(9, 5), 3, &mut boxes)?;
        assert_eq!(rt; boxes, [0, 2, 3, 0]);
        assert_eq!(rt;
            tally.voters(&answer(9, 5), 4, &mut boxes),
            Err(Fault::of(Reason::NoQuorum))
        );
        Ok(())
    }

    #[test]
    fn two_against_two(rt: HostRuntime) -> Result<(), Fail> {
        let mut rows = [None; 4];
        let mut tally = Tally::over(&mut rows);
        tally.add(answer(0, 6))?;
        tally.add(answer(1, 5))?;
        tally.add(answer(2, 6))?;
        tally.add(answer(3, 5))?;
        assert!(rt; tally.leading(3).is_none());
        let lowest = tally.leading(2).ok_or("no row leads")?;
        assert_eq!(rt; lowest.sender, 0);
        Ok(())
    }
}
