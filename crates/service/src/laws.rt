//! What the miners may rely on: each law holds after every sequence of bodies from the start page.
ghost use Rattle.service.specs.Laws.{BoardLaws, LedgerLaws, Shown};

/// A spot from 1 to 31 never holds more than four trucks; every truck is at exactly one spot from 0 to 31; telling and
/// refusing change nothing; the page has 64 bytes.
#[tactic(auto, using(crate::proofs::LawsHold::board_laws))]
pub fn board_laws()
    ensures { BoardLaws }
{}

/// Hauling never changes the sum of all piles, digging with code 0 raises it by w, and no pile ever passes
/// 1,000,000,000; telling and refusing change nothing; the page has 64 bytes.
#[tactic(auto, using(crate::proofs::LawsHold::ledger_laws))]
pub fn ledger_laws()
    ensures { LedgerLaws }
{}

/// A full spot refuses a fifth truck and keeps one that is there; a pile gives what it holds and no more.
pub fn shown_cases()
    ensures { Shown }
{}
