//! Services: what the boxes keep in order. A service holds a page of at most 256 bytes; a tablet's body of 16 bytes
//! changes the page by a rule and is answered by a reply of 8 bytes.

#![tactic(auto)]

ghost use Rattle.std.specs.Prelude.{◌≡◌, ◌≤◌, length, take};
ghost use Rattle.service.specs.Meaning.{Meaning, Sound, answered, over_front, performed};

pub mod board;
pub mod body;
pub mod laws;
pub mod ledger;
mod one_of;
pub mod reply;

/// How many bytes a body has.
pub const BODY: usize = 16;

/// How many bytes a reply has.
pub const REPLY: usize = 8;

/// How many bytes a page has at most.
pub const PAGE: usize = 256;

/// What is kept in order. The machines above know a service by its meaning alone.
pub trait Service {
    ghost meaning: { Self → Meaning };

    /// Performs a tablet's body by the rule. It never refuses: what cannot be done is told by a code in the reply.
    fn perform(&mut self, tablet: u16, body: &[u8; BODY]) -> [u8; REPLY]
        ensures after { meaning self.new ≡ performed (meaning self.old) tablet body.now }
        ensures answer { result ≡ answered (meaning self.old) tablet body.now };

    /// Writes the page into the front of the buffer, leaves the rest of it, and answers the page's length.
    fn page(&self, buffer: &mut [u8; PAGE]) -> usize
        ensures len { result ≡ length (meaning self.now).page }
        ensures bound { result ≤ 256 }
        ensures after { buffer.new ≡ over_front (meaning self.now).page buffer.old }
        ensures front { take result buffer.new ≡ (meaning self.now).page };

    ghost sound: { (s : Self) → Sound (meaning s) };
}
