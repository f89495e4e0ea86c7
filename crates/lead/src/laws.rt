//! The laws of the lead, each a clause of a function's contract, so that a build without their proofs fails.
ghost use Rattle.lead.specs.Runs.{LinkedUp, NoConflict, RunsAreTakes, WithoutGap};

/// Whatever lines a lead takes from its opening on, with whatever seal: the places that it gives are 1, 2, 3, … without
/// a gap; no two of its ORDERs conflict; and each history links its CALL to the history before.
#[tactic(auto, using(crate::proofs::Ordered::gapless, crate::proofs::Ordered::agree, crate::proofs::Ordered::linked))]
pub fn laws_hold()
    ensures without_gap { WithoutGap }
    ensures no_conflict { NoConflict }
    ensures linked_up { LinkedUp }
{}

/// The runs that the laws speak of are the lead's own: every take, which carries its decision out, leaves the lead that
/// the run has next, and writes the ORDER that the run has as sent.
pub fn runs_are_takes()
    ensures { RunsAreTakes }
{}
