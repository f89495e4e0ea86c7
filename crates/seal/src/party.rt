//! The 26 parties that hold keys: boxes 0 to 9 and tablets 0 to 15.
ghost use Rattle.seal.specs.Parties.{boxes, is_tablet, known_party, place_of, tablets};
ghost use Rattle.std.specs.Prelude.{◌≡◌, ◌+◌, ◌<◌, IfSome, if◌then◌else◌, Some, None};

/// How many boxes a pit can have.
pub const BOXES: u16 = 10;

/// The party number of tablet 0.
pub const FIRST_TABLET: u16 = 256;

/// How many tablets a pit can have.
pub const TABLETS: u16 = 16;

/// How many parties there are in all.
pub const PARTIES: usize = 26;

/// Is it one of the 16 tablets?
fn is_tablet(party: u16) -> bool
    ensures { result ≡ is_tablet party }
{
    (FIRST_TABLET..FIRST_TABLET + TABLETS).contains(&party)
}

/// Is it one of the 26 parties?
pub fn known(party: u16) -> bool
    ensures { result ≡ known_party party }
{
    party < BOXES || is_tablet(party)
}

/// The party's place among the 26: the boxes first, then the tablets.
pub fn place(party: u16) -> Option<usize>
    ensures value { result ≡ (if known_party party then Some (place_of party) else None) }
    ensures below { IfSome result (λ at. at < boxes + tablets) }
{
    if party < BOXES {
        return Some(usize::from(party));
    }
    if is_tablet(party) {
        return Some((BOXES + (party - FIRST_TABLET)) as usize);
    }
    None
}
