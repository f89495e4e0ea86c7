//! What every call of a machine has in common: a stamped text that is written, and the histories.

#![tactic(auto)]

ghost use Rattle.std.specs.Prelude.{◌≡◌, ◌+◌, ◌≤◌, ◌++◌, length, nat_le};
ghost use Rattle.step.specs.Deliveries.{Delivery};
ghost use Rattle.step.specs.Histories.{link};
ghost use Rattle.step.specs.Outbox.{least_room, over_front};
ghost use Rattle.step.specs.Steps.{CallsAreSteps};
ghost use Rattle.seal.specs.Meaning.{tag_size};

use digest::sha256_two;
use fault::{Fault, Reason};
use line::layout::{HISTORY_WIDTH, TAG_WIDTH};
use line::{call, cert};
use seal::{Seal, TAG_SIZE};

/// 2f+1 for the largest f.
const LARGEST_QUORUM: usize = 7;

/// The least room that every call but finish and give up asks for: the largest line that any call writes is a CERT of the largest pit.
pub const LEAST_ROOM: usize = cert::ENTRIES_AT + cert::ENTRY_SIZE * LARGEST_QUORUM + TAG_WIDTH;

/// How many bytes a history has.
pub const HISTORY_SIZE: usize = HISTORY_WIDTH;

/// The history before place 1.
pub const NO_HISTORY: [u8; HISTORY_SIZE] = [0; HISTORY_SIZE];

/// The bytes of a CALL that are stamped and linked.
pub const CALL_TEXT_SIZE: usize = call::TAG_AT;

/// Whether an outbox has the room that a call asks for.
pub fn roomy(room: usize) -> bool
    ensures { result ≡ nat_le least_room room }
{
    room >= LEAST_ROOM
}

/// Stamps a text for a party, and writes the text, its tag and further bytes into the front of the outbox.
// The outbox is lent and not owned: a box has a stated memory, and its caller sends what lies there.
pub fn deliver<S: Seal>(
    seal: &mut S,
    party: u16,
    text: &[u8],
    rest: &[u8],
    out: &mut [u8],
) -> Result<usize, Fault>
    ensures { Delivery party text.now rest.now (record { state = tt; seal = S.meaning seal.old; out = out.old }) (record { state = tt; seal = S.meaning seal.new; out = out.new }) result }
{
    if !has_room(text.len(), rest.len(), out.len()) {
        return Err(Fault::of(Reason::Room));
    }
    let tag = seal.stamp(party, text)?;
    write_parts(text, &tag, rest, out);
    Ok(text.len() + TAG_SIZE + rest.len())
}

/// Whether a text, its tag and further bytes have room.
fn has_room(text: usize, rest: usize, room: usize) -> bool
    ensures { result ≡ nat_le (text + tag_size + rest) room }
{
    // Taken off one by one, since the sum of three lengths may pass a `usize`.
    room >= TAG_SIZE && room - TAG_SIZE >= text && room - TAG_SIZE - text >= rest
}

/// Writes three parts, one behind the other, into the front of the outbox.
fn write_parts(text: &[u8], tag: &[u8], rest: &[u8], out: &mut [u8])
    requires { length text.now + length tag.now + length rest.now ≤ length out.old }
    ensures { out.new ≡ over_front (text.now ++ (tag.now ++ rest.now)) out.old }
{
    let (front, behind) = out.split_at_mut(text.len());
    front.copy_from_slice(text);
    let (front, behind) = behind.split_at_mut(tag.len());
    front.copy_from_slice(tag);
    behind[..rest.len()].copy_from_slice(rest);
}

/// The history after one more CALL, by its text.
pub fn link(history: &[u8; HISTORY_SIZE], call_text: &[u8; CALL_TEXT_SIZE]) -> [u8; HISTORY_SIZE]
    ensures { result ≡ link history.now call_text.now }
{
    sha256_two(history, call_text).unwrap()
}

/// Whatever a machine holds, a call that carries its decision out makes the step that a run has for it: the state then
/// held, whether it is accepted, and what stands in the outbox.
#[tactic(auto, using(crate::proofs::Carrying::carried_steps))]
pub fn calls_are_steps<S>()
    ensures { CallsAreSteps S }
{}
