//! Votes: lines that boxes send and that are counted, and the tally that counts them.

#![tactic(auto)]

ghost use Rattle.std.specs.Prelude.{◌≡◌, ℕ, Bool};
ghost use Rattle.std.specs.Cmp.{IsEquivalence};
ghost use Rattle.vote.specs.Claims.{equivalence_of};

pub mod answer;
mod bytes;
pub mod committed;
pub mod sheet;
pub mod tally;

/// Something that a party sent.
pub trait Sent {
    ghost origin: { Self → ℕ };

    /// The party that sent it.
    fn sender(&self) -> u16
        ensures { result ≡ origin self.now };
}

/// Something that boxes send and that is counted: two votes of a kind agree or they do not.
pub trait Vote: Sent {
    ghost agree: { Self → Self → Bool };

    /// Do both say the same, whoever sent them?
    fn agrees(&self, other: &Self) -> bool
        ensures { result ≡ agree self.now other.now };

    ghost equivalence: { IsEquivalence agree };
}

/// What a vote of a kind claims: two claims are equal where they agree, as the kind has it.
pub trait Claim: Eq {
    ghost agree: { Self → Self → Bool };

    ghost equal_is: { (v w : Self) → Self.PartialEq.eq v w ≡ agree v w };
}

/// A vote: what a box claims, and the line's tag, which does not count. Most kinds keep no tag.
#[derive(Clone, Copy, Debug)]
pub struct Ballot<C, T = ()> {
    pub sender: u16,
    pub claim: C,
    pub tag: T,
}

impl<C, T> Sent for Ballot<C, T> {
    ghost origin = { λ v. v.sender };

    fn sender(&self) -> u16 {
        self.sender
    }
}

/// Two ballots agree where their claims do.
impl<C: Claim, T> Vote for Ballot<C, T> {
    ghost agree = { λ v w. C.Claim.agree v.claim w.claim };

    ghost equivalence = { equivalence_of (λ v. v.claim) C.PartialEq.eq C.Claim.agree C.Eq.laws C.Claim.equal_is };

    fn agrees(&self, other: &Ballot<C, T>) -> bool {
        self.claim == other.claim
    }
}
