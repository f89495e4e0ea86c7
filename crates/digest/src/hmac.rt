//! HMAC-SHA-256 as RFC 2104 has it, over a work block that the caller lends and that ends as zeros.
ghost use Rattle.std.specs.Prelude.{◌≡◌, ◌≤◌, length, replicate};
ghost use Rattle.digest.specs.Answers.{hmac_answer};
ghost use Rattle.digest.specs.Hmac.{key_block, masked, zero_filled, hmac_sha256_of};

use crate::hash::{BLOCK_LEN, Block, Digest};
use crate::message::Message;
use fault::{Fault, Reason};

/// The longest key, in bytes.
const MAX_KEY: usize = 131;

/// The longest text, in bytes.
const MAX_TEXT: usize = 300;

const INNER_PAD: u8 = 0x36;

const OUTER_PAD: u8 = 0x5c;

// The work block is lent and not owned: a box has a stated memory.

/// Holds a lent block and wipes it in the end, so that no trace of a key stays behind on any way out.
struct Wiped<'a> {
    block: &'a mut [u8],
}

impl Drop for Wiped<'_> {
    fn drop(self)
        ensures { self.exit.0.now ≡ replicate (length self.entry.block.now) 0 }
    {
        self.block.fill(0);
        let Wiped { block: _ } = self;
    }
}

/// HMAC-SHA-256 of a text under a key. Whatever it answers, `work` ends as zeros.
pub fn hmac_sha256(key: &[u8], text: &[u8], work: &mut [u8]) -> Result<[u8; 32], Fault>
    ensures answer { result ≡ hmac_answer key.now text.now (length work.old) }
    ensures wiped { work.new ≡ replicate (length work.old) 0 }
{
    let guard = Wiped { block: work };
    if key.len() > MAX_KEY || text.len() > MAX_TEXT {
        return Err(Fault::of(Reason::Room));
    }
    let block = <&mut Block>::try_from(&mut guard.block[..]).map_err(|_| Fault::of(Reason::Room))?;
    Ok(mac(block, key, text))
}

fn mac(block: &mut Block, key: &[u8], text: &[u8]) -> Digest
    requires { (length key.now ≤ 131) × (length text.now ≤ 300) }
    ensures { result ≡ hmac_sha256_of key.now text.now }
{
    load_key(block, key);
    mask(block, INNER_PAD);
    let inner = Message::new(block, text).digest();
    mask(block, INNER_PAD ^ OUTER_PAD);
    Message::new(block, &inner).digest()
}

/// Writes the key as one block: as it is, or its digest where it is longer than a block.
fn load_key(block: &mut Block, key: &[u8])
    requires { length key.now ≤ 131 }
    ensures { block.new ≡ key_block key.now }
{
    if key.len() <= BLOCK_LEN {
        zero_fill(block, key);
    } else {
        zero_fill(block, &Message::new(key, &[]).digest());
    }
}

/// Writes bytes into the front of a block, and zeros behind them.
fn zero_fill(block: &mut Block, bytes: &[u8])
    requires { length bytes.now ≤ 64 }
    ensures { block.new ≡ zero_filled bytes.now }
{
    block.fill(0);
    block[0..bytes.len()].copy_from_slice(bytes);
}

/// Turns each byte of a block by the bits of `byte`.
fn mask(block: &mut Block, byte: u8)
    ensures { block.new ≡ masked byte block.old }
{
    for x in block.iter_mut() {
        *x ^= byte;
    }
}
