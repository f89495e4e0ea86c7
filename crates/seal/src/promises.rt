//! What follows for every seal from its meaning alone.
ghost use Rattle.seal.specs.Promises.{Checked, OwnStampsCheck, AcceptedStays, OnlyStampsAreNew, StampsForItsParties, RegisterAcceptsTheStamped};

use crate::{Seal, TAG_SIZE};
use fault::Fault;

/// Stamps the text, and asks the seal at once what it says of its own tag: yes.
pub fn stamp_and_check<S: Seal>(
    seal: &mut S,
    party: u16,
    text: &[u8],
) -> Result<([u8; TAG_SIZE], bool), Fault>
    ensures { Checked (S.meaning seal.old) (S.meaning seal.new) party text.now result }
{
    let tag = seal.stamp(party, text)?;
    let said = seal.check(party, text, &tag);
    Ok((tag, said))
}

/// Every seal accepts each stamp that it gave.
#[tactic(auto, using(crate::proofs::Sequences::own_stamps_check))]
pub fn own_stamps_check()
    ensures { OwnStampsCheck }
{}

/// What a seal accepted it goes on accepting.
#[tactic(auto, using(crate::proofs::Sequences::accepted_stays))]
pub fn accepted_stays()
    ensures { AcceptedStays }
{}

/// What a seal comes to accept it has stamped.
#[tactic(auto, using(crate::proofs::Sequences::only_stamps_are_new))]
pub fn only_stamps_are_new()
    ensures { OnlyStampsAreNew }
{}

/// A seal stamps for its parties alone, and these stay the same.
#[tactic(auto, using(crate::proofs::Sequences::stamps_for_its_parties))]
pub fn stamps_for_its_parties()
    ensures { StampsForItsParties }
{}

/// Whatever a register accepts was stamped by it since it was opened.
#[tactic(auto, using(crate::proofs::Sequences::register_accepts_the_stamped))]
pub fn register_accepts_the_stamped()
    ensures { RegisterAcceptsTheStamped }
{}
