//! A line of any kind, and its reading.
ghost use Rattle.fault.specs.Checks.{result_map};
ghost use Rattle.line.specs.Lines.{read as ReadOf, line_shown, shaped, size, line};
ghost use Rattle.line.specs.Rules.{written, memory_after};
ghost use Rattle.std.specs.Prelude.{◌≡◌};

use crate::answer::Answer;
use crate::call::Call;
use crate::cert::Cert;
use crate::charge::Charge;
use crate::committed::Committed;
use crate::kind::{Kind, kind_of};
use crate::order::Order;
use crate::pit::Pit;
use crate::record;
use crate::record::Record;
use crate::sheet::Sheet;
use crate::taken::Taken;
use fault::Fault;

/// A line, taken apart: its parts lie in the bytes that were read.
#[derive(Clone, Copy)]
pub enum Line<'a> {
    Call(Call<'a>),
    Order(Order<'a>),
    Answer(Answer<'a>),
    Cert(Cert<'a>),
    Committed(Committed<'a>),
    Sheet(Sheet<'a>),
    Charge(Charge<'a>),
}

impl Line<'_> {
    /// Writes the line into the front of the memory, and answers its size.
    pub fn write(&self, out: &mut [u8]) -> Result<usize, Fault>
        ensures answer { result ≡ written (shaped (line_shown self.now)) (size (line_shown self.now)) out.old }
        ensures after { out.new ≡ memory_after (shaped (line_shown self.now)) (size (line_shown self.now)) (line (line_shown self.now)) out.old }
    {
        match self {
            Line::Call(call) => call.write(out),
            Line::Order(order) => order.write(out),
            Line::Answer(answer) => answer.write(out),
            Line::Cert(cert) => cert.write(out),
            Line::Committed(committed) => committed.write(out),
            Line::Sheet(sheet) => sheet.write(out),
            Line::Charge(charge) => charge.write(out),
        }
    }
}

/// Reads any bytes as a line of this pit, of a kind that is taken. Tags are not looked at.
pub fn read<'a>(pit: &Pit, taken: &[Kind], bytes: &'a [u8]) -> Result<Line<'a>, Fault>
    ensures { result_map line_shown result ≡ ReadOf pit.now taken.now bytes.now }
{
    let kind = kind_of(taken, bytes)?;
    let line = &Taken {
        pit: *pit,
        at: 0,
        bytes,
    };
    match kind {
        Kind::Call => Ok(Line::Call(record::read(line)?)),
        Kind::Order => Ok(Line::Order(record::read(line)?)),
        Kind::Answer => Ok(Line::Answer(record::read(line)?)),
        Kind::Cert => Ok(Line::Cert(record::read(line)?)),
        Kind::Committed => Ok(Line::Committed(record::read(line)?)),
        Kind::Sheet => Ok(Line::Sheet(record::read(line)?)),
        Kind::Charge => Ok(Line::Charge(record::read(line)?)),
    }
}
