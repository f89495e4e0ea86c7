//! A reply: a code, a value and two zero bytes, little-endian.
ghost use Rattle.service.specs.Replies.{code_in, code_number, coded_bytes, reply_bytes, value_in};
ghost use Rattle.std.specs.Prelude.{◌≡◌};

use crate::REPLY;

/// Why a body changed nothing.
#[derive(Clone, Copy, PartialEq, Eq, Debug)]
pub enum Code {
    Malformed,
    NoTruck,
    NoSpot,
    SpotFull,
    NoPile,
    NoTarget,
    TooLittle,
    TooMuch,
}

impl Code {
    /// The number by which a reply's bytes tell the code; each service has its own codes from 2 on.
    // Not `From`: two codes share a number, so that the number is no other form of the code.
    pub fn number(self) -> u16
        ensures { result ≡ code_number self }
    {
        match self {
            Code::Malformed => 1,
            Code::NoTruck | Code::NoPile => 2,
            Code::NoSpot | Code::NoTarget => 3,
            Code::SpotFull | Code::TooLittle => 4,
            Code::TooMuch => 5,
        }
    }
}

/// What became of a body: done, with a value, or why it changed nothing.
pub type Reply = Result<u32, Code>;

/// The reply's eight bytes: code 0 and the value, or the code's number and 0.
// A function: `Reply` is the library's type, so no `From` of ours can be for it. `told` answers numbers, since two codes share one.
pub fn bytes(reply: Reply) -> [u8; REPLY]
    ensures { result ≡ reply_bytes reply }
{
    match reply {
        Ok(value) => coded(0, value),
        Err(code) => coded(code.number(), 0),
    }
}

/// The eight bytes of any code's number with any value: also of a refusal with a value, which neither board nor ledger gives.
pub fn coded(code: u16, value: u32) -> [u8; REPLY]
    ensures { result ≡ coded_bytes code value }
{
    let [c0, c1] = u16::to_le_bytes(code);
    let [v0, v1, v2, v3] = value.to_le_bytes();
    [c0, c1, v0, v1, v2, v3, 0, 0]
}

/// The code's number and the value that a reply's bytes tell.
pub fn told(reply: &[u8; REPLY]) -> (u16, u32)
    ensures { (result.0 ≡ code_in reply.now) × (result.1 ≡ value_in reply.now) }
{
    let code = u16::from_le_bytes([reply[0], reply[1]]);
    let value = u32::from_le_bytes([reply[2], reply[3], reply[4], reply[5]]);
    (code, value)
}
