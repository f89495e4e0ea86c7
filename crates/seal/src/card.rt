//! The card seal: it holds the keys of all 26 parties, stamps for its owner, and checks by the keys.
ghost use Rattle.seal.specs.Cards.{card_meaning, card_tag, is_tag, tag_under};
ghost use Rattle.seal.specs.Meaning.{tag_size};
ghost use Rattle.std.specs.Prelude.{◌≡◌, length, replicate, IfSome, ◌==◌};
ghost use Rattle.std.specs.Str.{bytes_eq};
ghost use Rattle.seal.specs.CardTags.{card_discerns};

use crate::party::PARTIES;
use crate::{Seal, TAG_SIZE, party};
use digest::hmac_sha256;
use fault::{Fault, Reason};

/// How many bytes a key has.
pub const KEY_SIZE: usize = 32;

/// How many bytes of memory HMAC works in.
const WORK_SIZE: usize = 64;

/// A party's key.
pub type Key = [u8; KEY_SIZE];

/// The keys of all parties, by their places, and whose card it is.
#[derive(Drop)]
pub struct Card {
    owner: u16,
    keys: [Key; PARTIES],
}

/// The tag of the text under the key, unless the text is too long. The memory worked in ends as zeros.
fn keyed_tag(key: &Key, text: &[u8], work: &mut [u8; WORK_SIZE]) -> Option<[u8; TAG_SIZE]>
    ensures value { result ≡ tag_under key.now text.now }
    ensures size { IfSome result (λ tag. length tag ≡ tag_size) }
    ensures wiped { work.new ≡ replicate 64 0 }
{
    hmac_sha256(key, text, work).ok()
}

/// The differences of all bytes gathered in one number: 0 where the two are the same. All bytes are always compared, so that the
/// time tells nothing of where they part.
fn difference(a: &[u8; TAG_SIZE], b: &[u8; TAG_SIZE]) -> u8
    ensures { (result == 0) ≡ bytes_eq a.now b.now }
{
    let mut difference = 0;
    for (x, y) in a.iter().zip(b) {
        difference |= *x ^ *y;
    }
    difference
}

/// Are the two the same?
// A function of its own: its contract refuses a test that lets near tags through, whatever the loop's proof is.
fn same_tag(a: &[u8; TAG_SIZE], b: &[u8; TAG_SIZE]) -> bool
    ensures { result ≡ bytes_eq a.now b.now }
{
    difference(a, b) == 0
}

/// Is it this tag?
fn is_tag(right: &[u8; TAG_SIZE], tag: &[u8]) -> bool
    ensures { result ≡ is_tag right.now tag.now }
{
    <&[u8; TAG_SIZE]>::try_from(tag).is_ok_and(|tag| same_tag(tag, right))
}

impl Card {
    /// A card for that owner, with the keys of boxes 0 to 9 and then of tablets 0 to 15.
    pub fn open(owner: u16, keys: [Key; PARTIES]) -> Card
        ensures { result ≡ record { owner = owner; keys = keys } }
    {
        Card { owner, keys }
    }

    /// The tag of the text under the party's key, if it has one.
    fn tag_of(&self, party: u16, text: &[u8]) -> Option<[u8; TAG_SIZE]>
        ensures value { result ≡ card_tag self.now.keys party text.now }
        ensures size { IfSome result (λ tag. length tag ≡ tag_size) }
    {
        let at = party::place(party)?;
        keyed_tag(&self.keys[at], text, &mut [0; WORK_SIZE])
    }
}

impl Seal for Card {
    ghost meaning = { λ s. card_meaning s.owner s.keys };

    ghost discerns = { λ s. card_discerns s.owner s.keys };

    fn ready(&self, party: u16) -> bool {
        party == self.owner && party::known(self.owner)
    }

    fn stamp(&mut self, party: u16, text: &[u8]) -> Result<[u8; TAG_SIZE], Fault> {
        if !self.ready(party) {
            return Err(Fault::of(Reason::SealNotReady));
        }
        let tag = self
            .tag_of(party, text)
            .ok_or(Fault::of(Reason::SealNotReady))?;
        Ok(tag)
    }

    fn check(&self, party: u16, text: &[u8], tag: &[u8]) -> bool {
        // Not by `is_some_and`: its contract leaves `returns` open here.
        match self.tag_of(party, text) {
            Some(right) => is_tag(&right, tag),
            None => false,
        }
    }
}
