//! A message that comes in two parts: its padding, its blocks, its digest.
ghost use Rattle.std.specs.Prelude.{◌≡◌, ℕ, ◌+◌, ◌*◌, ◌≤◌, List, ◌++◌, length, IfSome};
ghost use Rattle.digest.specs.Padding.{Overlaid, padded_length};
ghost use Rattle.digest.specs.Sha256.{compress, padded, nth_block, sha256_of};

use crate::hash::{BLOCK_LEN, Block, Digest, INITIAL, Words};
use std::marker::Model;

/// The message that is `first` followed by `second`, of at most 1,000,000 bytes.
#[derive(Drop)]
pub struct Message<'a> {
    first: &'a [u8],
    second: &'a [u8],
}

impl<'a> Model for Message<'a> {
    ghost Value = { List ℕ };

    ghost view = { λ m. m.first.now ++ m.second.now };

    ghost invariant = { λ m. length m.first.now + length m.second.now ≤ 1000000 };
}

impl<'a> Message<'a> {
    pub fn new(first: &'a [u8], second: &'a [u8]) -> Message<'a>
        requires { length first.now + length second.now ≤ 1000000 }
        ensures { result ≡ first.now ++ second.now }
    {
        Message { first, second }
    }

    /// How many bytes it has.
    fn len(&self) -> usize
        ensures len { result ≡ length self.now }
        ensures short { result ≤ 1000000 }
    {
        self.first.len() + self.second.len()
    }

    /// How many bytes it has with its padding.
    fn padded_len(&self) -> usize
        ensures { result ≡ padded_length (length self.now) }
    {
        let len = self.len();
        len + 1 + (119 - len % BLOCK_LEN) % BLOCK_LEN + 8
    }

    /// Block `i`, where it lies whole in one of the parts.
    fn lent_block(&self, i: usize) -> Option<&Block>
        ensures { IfSome result (λ block. block.now ≡ nth_block (padded self.now) i) }
    {
        let start = BLOCK_LEN.checked_mul(i)?;
        match start.checked_sub(self.first.len()) {
            None => self.first.get(start..)?.first_chunk(),
            Some(at) => self.second.get(at..)?.first_chunk(),
        }
    }

    /// Block `i` of the padded message, put together of what falls into it.
    fn made_block(&self, i: usize) -> Block
        requires { 64 * i + 64 ≤ padded_length (length self.now) }
        ensures { result ≡ nth_block (padded self.now) i }
    {
        let len = self.len();
        let start = BLOCK_LEN * i;
        let bits = 8 * len as u64;
        let mut block = [0; BLOCK_LEN];
        overlay(&mut block, start, self.first, 0);
        overlay(&mut block, start, self.second, self.first.len());
        overlay(&mut block, start, &[0x80], len);
        overlay(
            &mut block,
            start,
            &bits.to_be_bytes(),
            self.padded_len() - 8,
        );
        block
    }

    /// The hash value after block `i` of the padded message. A block that lies whole in one part is read where it is.
    fn absorb(&self, hash: Words, i: usize) -> Words
        requires { 64 * i + 64 ≤ padded_length (length self.now) }
        ensures { result ≡ compress hash (nth_block (padded self.now) i) }
    {
        match self.lent_block(i) {
            Some(block) => hash.compress(block),
            None => hash.compress(&self.made_block(i)),
        }
    }

    /// SHA-256 of the message.
    pub fn digest(&self) -> Digest
        ensures { result ≡ sha256_of self.now }
    {
        let mut hash = INITIAL;
        // By number: the blocks are no list, most are lent where they lie and the last ones are made.
        for i in 0..self.padded_len() / BLOCK_LEN {
            hash = self.absorb(hash, i);
        }
        hash.to_bytes()
    }
}

/// Copies into the block that begins at byte `start` of a message what falls into it of a part that begins at byte `at`.
fn overlay(block: &mut Block, start: usize, part: &[u8], at: usize)
    requires { (start ≤ 2000000) × ((at ≤ 2000000) × (length part.now ≤ 1000000)) }
    ensures { Overlaid start part.now at block.old block.new }
{
    let from = start.max(at);
    let to = (start + BLOCK_LEN).min(at + part.len());
    if from < to {
        block[from - start..to - start].copy_from_slice(&part[from - at..to - at]);
    }
}
