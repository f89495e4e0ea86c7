//! The seven kinds of lines, and which of them a machine takes.
ghost use Rattle.line.specs.Kinds.{kind_number, numbered, outer_kind};
ghost use Rattle.std.specs.Prelude.{◌≡◌};

use crate::layout::*;
use crate::{answer, call, cert, charge, committed, order, sheet};
use fault::{Fault, Reason};

/// A kind of lines.
#[derive(Clone, Copy, PartialEq, Eq, Debug)]
pub enum Kind {
    Call,
    Order,
    Answer,
    Cert,
    Committed,
    Sheet,
    Charge,
}

impl Kind {
    /// No kind at all.
    pub const NONE: [Kind; 0] = [];

    /// Every kind.
    pub const ALL: [Kind; 7] = [
        Kind::Call,
        Kind::Order,
        Kind::Answer,
        Kind::Cert,
        Kind::Committed,
        Kind::Sheet,
        Kind::Charge,
    ];
}

/// The number by which a line names its kind.
impl From<Kind> for u16 {
    ghost from_gives = { λ kind result. result ≡ kind_number kind };

    fn from(kind: Kind) -> u16 {
        match kind {
            Kind::Call => call::KIND,
            Kind::Order => order::KIND,
            Kind::Answer => answer::KIND,
            Kind::Cert => cert::KIND,
            Kind::Committed => committed::KIND,
            Kind::Sheet => sheet::KIND,
            Kind::Charge => charge::KIND,
        }
    }
}

/// The kind that has the number, if any has.
impl TryFrom<u16> for Kind {
    type Error = Fault;

    ghost try_from_gives = { λ number result. result ≡ numbered number };

    fn try_from(number: u16) -> Result<Kind, Fault> {
        match number {
            call::KIND => Ok(Kind::Call),
            order::KIND => Ok(Kind::Order),
            answer::KIND => Ok(Kind::Answer),
            cert::KIND => Ok(Kind::Cert),
            committed::KIND => Ok(Kind::Committed),
            sheet::KIND => Ok(Kind::Sheet),
            charge::KIND => Ok(Kind::Charge),
            _ => Err(Fault::of(Reason::Kind)),
        }
    }
}

/// The kind of the line that the bytes are: it must tell its own size, and be of a kind that is taken.
pub(crate) fn kind_of(taken: &[Kind], bytes: &[u8]) -> Result<Kind, Fault>
    ensures { result ≡ outer_kind taken.now bytes.now }
{
    if !is_whole(bytes) {
        return Err(Fault::of(Reason::LineSize));
    }
    let kind = Kind::try_from(number16(bytes, KIND_AT))?;
    if !taken.contains(&kind) {
        return Err(Fault::of(Reason::Kind));
    }
    Ok(kind)
}
