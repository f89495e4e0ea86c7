//! Seals: who stamped which text. A seal stamps texts for parties, and checks stamps.

#![tactic(auto)]

ghost use Rattle.seal.specs.Meaning.{Meaning, Discerning, Stamping, ready_for};
ghost use Rattle.std.specs.Prelude.{◌≡◌};

use fault::Fault;

pub mod card;
pub mod party;
pub mod promises;
pub mod register;

/// The longest text that is stamped, in bytes.
pub const LONGEST_TEXT: usize = 300;

/// How many bytes a tag has.
pub const TAG_SIZE: usize = 32;

/// Stamps texts for parties and checks stamps. What it does follows from its meaning alone.
pub trait Seal {
    ghost meaning: { Self → Meaning };

    /// Does the seal stamp for the party, and is a stamp left?
    fn ready(&self, party: u16) -> bool
        ensures { result ≡ ready_for (meaning self.now) party };

    /// The tag of the text, from now on accepted; refused where the seal is not ready for the party or the text is too long.
    fn stamp(&mut self, party: u16, text: &[u8]) -> Result<[u8; TAG_SIZE], Fault>
        ensures { Stamping (meaning self.old) (meaning self.new) party text.now result };

    /// Does the seal accept this tag as the party's for the text?
    fn check(&self, party: u16, text: &[u8], tag: &[u8]) -> bool
        ensures { result ≡ (meaning self.now).accepts party text.now tag.now };

    ghost discerns: { (s : Self) → Discerning (meaning s) };
}
