//! The ledger: how much lies on each pile.
ghost use Rattle.std.specs.Prelude.{◌≡◌, Ok};
ghost use Rattle.service.specs.Ledgers.{Within, ledger, ledger_do, ledger_operation, ledger_rule, ledger_uses, page_of, passes, pile, raised, start_piles, work_number, piles_of};
ghost use Rattle.service.specs.Meaning.{over_front};
ghost use Rattle.service.specs.Rules.{code_if};
ghost use Rattle.service.specs.declared.reply.Code.TheVariants.{Malformed, TooMuch};
ghost use Rattle.std.specs.Option.{ok_or};
ghost use Rattle.service.specs.declared.ledger.Work.TheVariants.{Dig, Haul};
ghost use Rattle.std.proofs.Common.{arith};
ghost use Rattle.service.specs.LedgerSteps.{step, keeps_length, held_fits};
ghost use Rattle.service.specs.Pages.{length_page};
ghost use Rattle.service.specs.Bodies.{fields_of};
ghost use Rattle.service.specs.Replies.{length_reply};

use crate::body::{Fields, Uses};
use crate::one_of::OneOf;
use crate::reply::{Code, Reply, bytes};
use crate::{BODY, PAGE, REPLY, Service};

/// How many piles there are.
pub const PILES: usize = 16;

/// How many bytes of the page a pile has.
const PILE_SIZE: usize = 4;

/// The weight that no pile may pass.
pub const LIMIT: u64 = 1_000_000_000;

/// A pile, by its number.
type Pile = OneOf<PILES>;

/// What a tablet can ask of the ledger.
#[derive(Clone, Copy, PartialEq, Eq, Debug)]
pub enum Work {
    Dig = 1,
    Haul = 2,
    Tell = 3,
}

impl Work {
    /// Which fields it uses.
    pub fn uses(self) -> Uses
        ensures { result ≡ ledger_uses self }
    {
        match self {
            Work::Dig => Uses::AAndW,
            Work::Haul => Uses::All,
            Work::Tell => Uses::OnlyA,
        }
    }
}

/// The number by which a body names it.
impl From<Work> for u16 {
    ghost from_gives = { λ work number. number ≡ work_number work };

    fn from(work: Work) -> u16 {
        work as u16
    }
}

/// The operation of a number, if there is one.
impl TryFrom<u16> for Work {
    type Error = Code;

    ghost try_from_gives = { λ number result. result ≡ ok_or (ledger_operation number) Malformed };

    fn try_from(number: u16) -> Result<Work, Code> {
        match number {
            1 => Ok(Work::Dig),
            2 => Ok(Work::Haul),
            3 => Ok(Work::Tell),
            _ => Err(Code::Malformed),
        }
    }
}

/// The weight of each pile.
#[derive(Drop)]
pub struct Ledger {
    piles: [u32; PILES],
    ghost within: { Within piles },
}

impl Ledger {
    /// A ledger whose piles are all empty.
    pub fn open() -> Ledger
        ensures piles { result.piles ≡ start_piles }
        ensures start { (ledger result.piles).page ≡ (ledger result.piles).start }
    {
        Ledger { piles: [0; PILES] }
    }

    /// The weight of each pile.
    pub fn piles(&self) -> &[u32; PILES]
        ensures { result.now ≡ self.now.piles }
    {
        &self.piles
    }

    /// Performs a body that was taken apart.
    pub fn apply(&mut self, fields: Fields) -> Reply
        ensures { (self.new.piles, result) ≡ ledger_rule self.old.piles fields }
    {
        let work = Work::try_from(fields.operation)?;
        if !fields.proper(work.uses()) {
            return Err(Code::Malformed);
        }
        let pile = Pile::of(fields.a).ok_or(Code::NoPile)?;
        match work {
            Work::Dig => self.dig(pile, fields.w),
            Work::Haul => self.haul(pile, fields.b, fields.w),
            Work::Tell => Ok(self.piles[pile.index()]),
        }
    }

    /// Digs a weight into a pile.
    fn dig(&mut self, to: Pile, w: u32) -> Reply
        ensures { (self.new.piles, result) ≡ ledger_do Dig to 0 w self.old.piles }
    {
        raise(&mut self.piles, to, w)
    }

    /// Hauls a weight from a pile to the pile of number b, which may be the same.
    fn haul(&mut self, from: Pile, b: u16, w: u32) -> Reply
        ensures { (self.new.piles, result) ≡ ledger_do Haul from b w self.old.piles }
    {
        let to = Pile::of(b).ok_or(Code::NoTarget)?;
        let left = self.piles[from.index()]
            .checked_sub(w)
            .ok_or(Code::TooLittle)?;
        let mut piles = self.piles;
        piles[from.index()] = left;
        let weight = raise(&mut piles, to, w)?;
        self.piles = piles;
        Ok(weight)
    }
}

/// Puts a weight more on a pile, unless it would pass the limit, and answers what then lies there.
fn raise(piles: &mut [u32; PILES], to: Pile, w: u32) -> Reply
    ensures { (piles.new, result) ≡ code_if (passes to w piles.old) TooMuch piles.old (raised to w piles.old, Ok (pile to (raised to w piles.old))) }
{
    let held = piles[to.index()];
    if u64::from(held) + u64::from(w) > LIMIT {
        return Err(Code::TooMuch);
    }
    piles[to.index()] = held + w;
    Ok(held + w)
}

// Alike to the board's, and no third trait for the two: a line or two of it is the same, the rest is each service's own.
impl Service for Ledger {
    ghost meaning = { λ s. ledger s.piles };

    ghost sound = { λ s.
        record {
          start_fits = omega arith;
          page_fits = λ page tablet body fits. omega (arith, keeps_length (step (piles_of page) (fields_of body)), length_page (ledger_rule (piles_of page) (fields_of body)).0, held_fits page);
          reply_fits = λ page tablet body. length_reply (ledger_rule (piles_of page) (fields_of body)).1;
        } };

    fn perform(&mut self, _tablet: u16, body: &[u8; BODY]) -> [u8; REPLY] {
        bytes(self.apply(Fields::from(body)))
    }

    fn page(&self, buffer: &mut [u8; PAGE]) -> usize {
        write(&self.piles, buffer);
        PILE_SIZE * PILES
    }
}

/// Writes the piles into the front of the buffer.
fn write(piles: &[u32; PILES], buffer: &mut [u8; PAGE])
    ensures { buffer.new ≡ over_front (page_of piles.now) buffer.old }
{
    // Not by `chunks_exact_mut`: once its borrow is over, a proof knows no element that was written through it.
    for (k, weight) in piles.iter().enumerate() {
        let at = PILE_SIZE * k;
        buffer[at..at + PILE_SIZE].copy_from_slice(&weight.to_le_bytes());
    }
}
