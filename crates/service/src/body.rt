//! A tablet's body: operation, a, b and w, little-endian, and a tail that is zero.
ghost use Rattle.service.specs.Bodies.{fields_of, unused_zero, all_zero};
ghost use Rattle.std.specs.Prelude.{◌≡◌};

use crate::BODY;

/// A body taken apart.
#[derive(Clone, Copy, PartialEq, Eq, Debug)]
pub struct Fields {
    pub operation: u16,
    pub a: u16,
    pub b: u16,
    pub w: u32,
    /// Whether the tail is zero.
    // A fact by itself: no other field is read by it.
    pub padded: bool,
}

/// Which fields an operation uses. The others, and the tail, have to be zero.
#[derive(Clone, Copy, PartialEq, Eq, Debug)]
pub enum Uses {
    OnlyA,
    AAndB,
    AAndW,
    All,
}

/// The fields that a body's bytes hold.
impl From<&[u8; BODY]> for Fields {
    ghost from_gives = { λ body fields. fields ≡ fields_of body.now };

    fn from(body: &[u8; BODY]) -> Fields {
        Fields {
            operation: u16::from_le_bytes([body[0], body[1]]),
            a: u16::from_le_bytes([body[2], body[3]]),
            b: u16::from_le_bytes([body[4], body[5]]),
            w: u32::from_le_bytes([body[6], body[7], body[8], body[9]]),
            padded: zeros(&body[10..16]),
        }
    }
}

impl Fields {
    /// Whether every field that is not used, and the tail, is zero.
    pub fn proper(&self, uses: Uses) -> bool
        ensures { result ≡ unused_zero uses self.now }
    {
        match uses {
            Uses::OnlyA => self.b == 0 && self.w == 0 && self.padded,
            Uses::AAndB => self.w == 0 && self.padded,
            Uses::AAndW => self.b == 0 && self.padded,
            Uses::All => self.padded,
        }
    }
}

/// Whether every byte is zero.
// A function of its own: with the chain written where it is used, what `from` answers stays open.
fn zeros(bytes: &[u8]) -> bool
    ensures { result ≡ all_zero bytes.now }
{
    bytes.iter().all(|&byte| byte == 0)
}
