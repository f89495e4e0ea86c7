//! SHA-256 and HMAC-SHA-256, proved against definitions that read beside the standards.

#![tactic(auto)]

ghost use Rattle.digest.specs.Answers.{sha256_two_answer, sha256_answer};
ghost use Rattle.digest.specs.Examples.{HmacExamples, Sha256Examples};
ghost use Rattle.std.specs.Prelude.{◌≡◌};

use fault::{Fault, Reason};
use message::Message;

mod hash;
mod hmac;
mod message;

pub use hmac::hmac_sha256;

const MAX_INPUT: usize = 1_000_000;

/// SHA-256 of a message.
pub fn sha256(input: &[u8]) -> Result<[u8; 32], Fault>
    ensures { result ≡ sha256_answer input.now }
{
    if input.len() > MAX_INPUT {
        return Err(Fault::of(Reason::Room));
    }
    Ok(Message::new(input, &[]).digest())
}

/// SHA-256 of the message that is `first` followed by `second`.
pub fn sha256_two(first: &[u8], second: &[u8]) -> Result<[u8; 32], Fault>
    ensures { result ≡ sha256_two_answer first.now second.now }
{
    if first.len() > MAX_INPUT || second.len() > MAX_INPUT - first.len() {
        return Err(Fault::of(Reason::Room));
    }
    Ok(Message::new(first, second).digest())
}

/// The definitions that the contracts cite give the published values of the standards' worked examples: that is the contract, and there is nothing to do.
pub fn examples_hold()
    ensures sha256 { Sha256Examples }
    ensures hmac { HmacExamples }
{}

#[cfg(test)]
mod tests {
    use super::*;
    use std::test::Fail;

    const ABC: [u8; 32] = [
        0xba, 0x78, 0x16, 0xbf, 0x8f, 0x01, 0xcf, 0xea, 0x41, 0x41, 0x40, 0xde, 0x5d, 0xae, 0x22,
        0x23, 0xb0, 0x03, 0x61, 0xa3, 0x96, 0x17, 0x7a, 0x9c, 0xb4, 0x10, 0xff, 0x61, 0xf2, 0x00,
        0x15, 0xad,
    ];

    const HI_THERE: [u8; 32] = [
        0xb0, 0x34, 0x4c, 0x61, 0xd8, 0xdb, 0x38, 0x53, 0x5c, 0xa8, 0xaf, 0xce, 0xaf, 0x0b, 0xf1,
        0x2b, 0x88, 0x1d, 0xc2, 0x00, 0xc9, 0x83, 0x3d, 0xa7, 0x26, 0xe9, 0x37, 0x6c, 0x2e, 0x32,
        0xcf, 0xf7,
    ];

    #[test]
    fn digest_of_abc(rt: HostRuntime) -> Result<(), Fail> {
        assert_eq!(rt; sha256(b"abc")?, ABC);
        assert_eq!(rt; sha256_two(b"a", b"bc")?, ABC);
        Ok(())
    }

    #[test]
    fn mac_of_the_first_example(rt: HostRuntime) -> Result<(), Fail> {
        let mut work = [7; 64];
        assert_eq!(rt; hmac_sha256(&[0x0b; 20], b"Hi There", &mut work)?, HI_THERE);
        assert_eq!(rt; work, [0; 64]);
        Ok(())
    }

    #[test]
    fn a_short_work_block_is_refused_and_wiped(rt: HostRuntime) {
        let mut work = [7; 63];
        assert_eq!(rt;
            hmac_sha256(b"key", b"text", &mut work),
            Err(Fault::of(Reason::Room))
        );
        assert_eq!(rt; work, [0; 63]);
    }
}
