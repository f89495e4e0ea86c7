//! The board: where each truck stands.
ghost use Rattle.std.specs.Prelude.{◌≡◌};
ghost use Rattle.service.specs.Boards.{board, board_do, board_operation, board_rule, board_uses, motion_number, start_spots, trucks_at};
ghost use Rattle.service.specs.declared.reply.Code.TheVariants.{Malformed};
ghost use Rattle.std.specs.Option.{ok_or};
ghost use Rattle.service.specs.declared.board.Motion.TheVariants.{Send, Recall};
ghost use Rattle.std.proofs.Common.{arith};
ghost use Rattle.service.specs.BoardSteps.{step, keeps_length};
ghost use Rattle.service.specs.Bodies.{fields_of};
ghost use Rattle.service.specs.Replies.{length_reply};

use crate::body::{Fields, Uses};
use crate::one_of::OneOf;
use crate::reply::{Code, Reply, bytes};
use crate::{BODY, PAGE, REPLY, Service};

/// How many trucks there are.
pub const TRUCKS: usize = 64;

/// The spot where every truck starts, and where a recalled truck goes.
pub const GATE: u8 = 0;

/// The first spot that a truck can be sent to.
pub const FIRST_SPOT: u16 = 1;

/// The last spot that a truck can be sent to.
pub const LAST_SPOT: u16 = 31;

/// How many trucks a spot holds; the gate has room for all.
pub const SPOT_ROOM: u32 = 4;

/// A truck, by its number.
type Truck = OneOf<TRUCKS>;

/// What a tablet can ask of the board.
#[derive(Clone, Copy, PartialEq, Eq, Debug)]
pub enum Motion {
    Send = 1,
    Recall = 2,
    Tell = 3,
}

impl Motion {
    /// Which fields it uses.
    pub fn uses(self) -> Uses
        ensures { result ≡ board_uses self }
    {
        match self {
            Motion::Send => Uses::AAndB,
            Motion::Recall | Motion::Tell => Uses::OnlyA,
        }
    }
}

/// The number by which a body names it.
impl From<Motion> for u16 {
    ghost from_gives = { λ motion number. number ≡ motion_number motion };

    fn from(motion: Motion) -> u16 {
        motion as u16
    }
}

/// The operation of a number, if there is one.
impl TryFrom<u16> for Motion {
    type Error = Code;

    ghost try_from_gives = { λ number result. result ≡ ok_or (board_operation number) Malformed };

    fn try_from(number: u16) -> Result<Motion, Code> {
        match number {
            1 => Ok(Motion::Send),
            2 => Ok(Motion::Recall),
            3 => Ok(Motion::Tell),
            _ => Err(Code::Malformed),
        }
    }
}

/// Who is where: one spot for each truck.
#[derive(Drop)]
pub struct Board {
    spots: [u8; TRUCKS],
}

impl Board {
    /// A board with every truck at the gate.
    pub fn open() -> Board
        ensures spots { result.spots ≡ start_spots }
        ensures start { (board result.spots).page ≡ (board result.spots).start }
    {
        Board {
            spots: [GATE; TRUCKS],
        }
    }

    /// The spot of each truck.
    pub fn spots(&self) -> &[u8; TRUCKS]
        ensures { result.now ≡ self.now.spots }
    {
        &self.spots
    }

    /// Performs a body that was taken apart.
    pub fn apply(&mut self, fields: Fields) -> Reply
        ensures { (self.new.spots, result) ≡ board_rule self.old.spots fields }
    {
        let motion = Motion::try_from(fields.operation)?;
        if !fields.proper(motion.uses()) {
            return Err(Code::Malformed);
        }
        let truck = Truck::of(fields.a).ok_or(Code::NoTruck)?;
        match motion {
            Motion::Send => self.send(truck, fields.b),
            Motion::Recall => self.recall(truck),
            Motion::Tell => Ok(u32::from(self.spots[truck.index()])),
        }
    }

    /// Sends a truck to a spot.
    fn send(&mut self, truck: Truck, spot: u16) -> Reply
        ensures { (self.new.spots, result) ≡ board_do Send truck spot self.old.spots }
    {
        if !(FIRST_SPOT..=LAST_SPOT).contains(&spot) {
            return Err(Code::NoSpot);
        }
        let spot = spot as u8;
        let mut others = self.spots;
        others[truck.index()] = GATE;
        if trucks_at(&others, spot) >= SPOT_ROOM {
            return Err(Code::SpotFull);
        }
        self.spots[truck.index()] = spot;
        Ok(trucks_at(&self.spots, spot))
    }

    /// Calls a truck back to the gate.
    fn recall(&mut self, truck: Truck) -> Reply
        ensures { (self.new.spots, result) ≡ board_do Recall truck 0 self.old.spots }
    {
        self.spots[truck.index()] = GATE;
        Ok(0)
    }
}

/// How many trucks stand at a spot.
// A sum of bytes, which a processor does several at once. `filter(..).count()` goes truck by truck, and took nearly four times as long for a body.
fn trucks_at(spots: &[u8; TRUCKS], spot: u8) -> u32
    ensures { result ≡ trucks_at spot spots.now }
{
    u32::from(spots.iter().map(|&here| u8::from(here == spot)).sum::<u8>())
}

impl Service for Board {
    ghost meaning = { λ s. board s.spots };

    ghost sound = { λ s.
        record {
          start_fits = omega arith;
          page_fits = λ page tablet body fits. omega (arith, keeps_length (step page (fields_of body)));
          reply_fits = λ page tablet body. length_reply (board_rule page (fields_of body)).1;
        } };

    fn perform(&mut self, _tablet: u16, body: &[u8; BODY]) -> [u8; REPLY] {
        bytes(self.apply(Fields::from(body)))
    }

    fn page(&self, buffer: &mut [u8; PAGE]) -> usize {
        buffer[0..TRUCKS].copy_from_slice(&self.spots);
        TRUCKS
    }
}
