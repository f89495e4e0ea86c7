//! The worked examples of FIPS 180-4 and RFC 4231, computed and compared.
use crate::bytes::Hex;
use crate::digests::tag_of;
use anyhow::anyhow;
use digest::sha256;
use std::alloc::{AllocError, Global};

/// The bytes of a key or a text.
#[derive(Clone, Copy)]
enum Input {
    Text(&'static str),
    Repeated(u8, usize),
    /// The bytes from 1 up to this one.
    Rising(u8),
}

/// An example: the digest of a text, or its tag under a key. The expected value may be shortened, as one of the RFC's is.
#[derive(Clone, Copy)]
struct Vector {
    name: &'static str,
    key: Option<Input>,
    text: Input,
    expected: &'static str,
}

/// The examples, those of FIPS 180-4 and the like first.
const VECTORS: [Vector; 12] = [
    Vector {
        name: "FIPS 180-4, one block",
        key: None,
        text: Input::Text("abc"),
        expected: "ba7816bf8f01cfea414140de5dae2223b00361a396177a9cb410ff61f20015ad",
    },
    Vector {
        name: "FIPS 180-4, two blocks",
        key: None,
        text: Input::Text("abcdbcdecdefdefgefghfghighijhijkijkljklmklmnlmnomnopnopq"),
        expected: "248d6a61d20638b8e5c026930c3e6039a33ce45964ff2167f6ecedd419db06c1",
    },
    Vector {
        name: "the empty message",
        key: None,
        text: Input::Text(""),
        expected: "e3b0c44298fc1c149afbf4c8996fb92427ae41e4649b934ca495991b7852b855",
    },
    Vector {
        name: "112 bytes, two blocks",
        key: None,
        text: Input::Text(
            "abcdefghbcdefghicdefghijdefghijkefghijklfghijklmghijklmnhijklmnoijklmnopjklmnopqklmnopqrlmnopqrsmnopqrstnopqrstu",
        ),
        expected: "cf5b16a778af8380036ce59e7b0492370b249b11e8f07a51afac45037afee9d1",
    },
    Vector {
        name: "a million times a",
        key: None,
        text: Input::Repeated(b'a', 1_000_000),
        expected: "cdc76e5c9914fb9281a1c7e284d73e67f1809a48a497200e046d39ccc7112cd0",
    },
    Vector {
        name: "RFC 4231, case 1",
        key: Some(Input::Repeated(0x0b, 20)),
        text: Input::Text("Hi There"),
        expected: "b0344c61d8db38535ca8afceaf0bf12b881dc200c9833da726e9376c2e32cff7",
    },
    Vector {
        name: "RFC 4231, case 2",
        key: Some(Input::Text("Jefe")),
        text: Input::Text("what do ya want for nothing?"),
        expected: "5bdcc146bf60754e6a042426089575c75a003f089d2739839dec58b964ec3843",
    },
    Vector {
        name: "RFC 4231, case 3",
        key: Some(Input::Repeated(0xaa, 20)),
        text: Input::Repeated(0xdd, 50),
        expected: "773ea91e36800e46854db8ebd09181a72959098b3ef8c122d9635514ced565fe",
    },
    Vector {
        name: "RFC 4231, case 4",
        key: Some(Input::Rising(25)),
        text: Input::Repeated(0xcd, 50),
        expected: "82558a389a443c0ea4cc819899f2083a85f0faa3e578f8077a2e3ff46729665b",
    },
    Vector {
        name: "RFC 4231, case 5 (first 16 bytes)",
        key: Some(Input::Repeated(0x0c, 20)),
        text: Input::Text("Test With Truncation"),
        expected: "a3b6167473100ee06e0c796c2955552b",
    },
    Vector {
        name: "RFC 4231, case 6",
        key: Some(Input::Repeated(0xaa, 131)),
        text: Input::Text("Test Using Larger Than Block-Size Key - Hash Key First"),
        expected: "60e431591ee0b67f0d8a26aacbf5b77f8e0bc6213728c5140546040f0ee37f54",
    },
    Vector {
        name: "RFC 4231, case 7",
        key: Some(Input::Repeated(0xaa, 131)),
        text: Input::Text(
            "This is a test using a larger than block-size key and a larger than block-size data. The key needs to be hashed before being used by the HMAC algorithm.",
        ),
        expected: "9b09ffa71b942fcb27635fbcd5b0e944bfdc63644f0713938a7f51535c3a35e2",
    },
];

impl Input {
    /// The bytes themselves.
    fn bytes(self, heap: Global) -> Result<Vec<u8>, AllocError> {
        match self {
            Input::Text(text) => Vec::from_slice(heap, text.as_bytes()),
            Input::Repeated(byte, count) => vec![in heap; byte; count],
            Input::Rising(last) => (1..=last).collect(heap),
        }
    }
}

impl Vector {
    /// The digest, or the tag.
    fn compute(&self, heap: Global) -> anyhow::Result<[u8; 32]> {
        let text = self.text.bytes(heap)?;
        match self.key {
            None => Ok(sha256(text.as_slice())?),
            Some(key) => Ok(tag_of(key.bytes(heap)?.as_slice(), text.as_slice())?),
        }
    }
}

/// Prints each example with its expected and its computed value, and a closing count.
pub(crate) fn show(rt: &HostRuntime) -> anyhow::Result<()> {
    let verdicts: Vec<bool> = VECTORS
        .iter()
        .map(|vector| show_one(rt, vector))
        .try_collect(rt.alloc())?;
    let agreeing = verdicts.iter().filter(|agrees| **agrees).count();
    let all = VECTORS.len();
    println!(rt; "{agreeing} of {all} vectors agree")?;
    if agreeing != all {
        return Err(anyhow!("a vector differs"));
    }
    Ok(())
}

/// Prints an example with its two values; answers whether they agree.
fn show_one(rt: &HostRuntime, vector: &Vector) -> anyhow::Result<bool> {
    let name = vector.name;
    let expected = vector.expected;
    let value = vector.compute(rt.alloc())?;
    let computed = format!(in rt.alloc(); "{}", Hex(&value))?;
    let same = computed.starts_with(expected);
    let verdict = if same { "agrees" } else { "DIFFERS" };
    println!(rt; "{name}: {verdict}")?;
    println!(rt; "  expected {expected}")?;
    println!(rt; "  computed {computed}")?;
    Ok(same)
}
