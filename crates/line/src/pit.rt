//! The set-up: how many boxes a pit has, who leads, which parties there are.
ghost use Rattle.line.specs.SetUp.{opened, replicas_of, quorum_of, lead_of, client_party, is_replica, is_client, is_lead};
ghost use Rattle.std.specs.Prelude.{◌≡◌};

use fault::{Fault, Reason};

/// The most lying boxes that a pit may be set up for.
const MOST_FAULTS: u8 = 3;

/// Tablets are parties from this number on.
pub const FIRST_CLIENT: u16 = 256;

/// The number of tablets.
pub const CLIENTS: u16 = 16;

/// A pit that stands up to `f` lying boxes, in one view.
#[derive(Clone, Copy, PartialEq, Eq, Debug)]
pub struct Pit {
    f: u8,
    view: u32,
}

impl Pit {
    /// Sets a pit up: `f` from 1 to 3, in any view.
    pub fn open(f: u8, view: u32) -> Result<Pit, Fault>
        ensures { result ≡ opened f view }
    {
        if !(1..=MOST_FAULTS).contains(&f) {
            return Err(Fault::of(Reason::SetUp));
        }
        Ok(Pit { f, view })
    }

    /// How many lying boxes the pit stands up to.
    pub fn f(&self) -> u8
        ensures { result ≡ self.now.f }
    {
        self.f
    }

    /// The view, which names the lead.
    pub fn view(&self) -> u32
        ensures { result ≡ self.now.view }
    {
        self.view
    }

    /// The number of boxes: they are numbered from 0.
    pub fn replicas(&self) -> u16
        ensures { result ≡ replicas_of self.now }
    {
        3 * self.f as u16 + 1
    }

    /// So many boxes that any two such groups share one that keeps the rules.
    pub fn quorum(&self) -> u16
        ensures { result ≡ quorum_of self.now }
    {
        2 * self.f as u16 + 1
    }

    /// The box that leads.
    pub fn lead(&self) -> u16
        ensures { result ≡ lead_of self.now }
    {
        (self.view % self.replicas() as u32) as u16
    }

    /// A box of this pit.
    pub fn is_replica(&self, party: u16) -> bool
        ensures { result ≡ is_replica self.now party }
    {
        party < self.replicas()
    }

    /// The box that leads, and no other.
    pub fn is_lead(&self, party: u16) -> bool
        ensures { result ≡ is_lead self.now party }
    {
        party == self.lead()
    }
}

/// One of the tablets.
pub fn is_client(party: u16) -> bool
    ensures { result ≡ is_client party }
{
    (FIRST_CLIENT..FIRST_CLIENT + CLIENTS).contains(&party)
}
