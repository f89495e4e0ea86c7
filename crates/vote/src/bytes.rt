//! Bytes of a line's part, taken as an array.
ghost use Rattle.vote.specs.Parts.{taken};
ghost use Rattle.std.specs.Prelude.{◌≡◌};

use fault::{Fault, Reason};

/// The bytes as an array of a width; refused where they have another width.
pub(crate) fn array<const N: usize>(bytes: &[u8]) -> Result<[u8; N], Fault>
    ensures { result ≡ taken N bytes.now }
{
    <[u8; N]>::try_from(bytes).map_err(|_| Fault::of(Reason::Room))
}
