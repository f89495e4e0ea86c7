//! SHA-256 and HMAC-SHA-256 of files, and of many inputs in one run.
use crate::bytes;
use crate::bytes::Hex;
use crate::command::{Trouble, each_line, first_words};
use anyhow::anyhow;
use digest::{hmac_sha256, sha256, sha256_two};
use fault::Fault;
use std::fs;

/// How many bytes of memory HMAC works in.
pub(crate) const WORK_SIZE: usize = 64;

/// Prints the digest of a file.
pub(crate) fn sha256_file(rt: &HostRuntime, path: &str) -> anyhow::Result<()> {
    let text = fs::read(rt, path)?;
    let digest = sha256(text.as_slice())?;
    Ok(println!(rt; "{}", Hex(&digest))?)
}

/// Prints the tag of a file under a key that is given in hex.
pub(crate) fn hmac_file(rt: &HostRuntime, key: &str, path: &str) -> anyhow::Result<()> {
    let key = bytes::read(rt.alloc(), key).map_err(|trouble| match trouble {
        Trouble::BadCommand => {
            anyhow!("the key is not in hex (two digits for each byte, or - for no bytes)")
        }
        _ => anyhow!(trouble),
    })?;
    let text = fs::read(rt, path)?;
    let tag = tag_of(key.as_slice(), text.as_slice())?;
    Ok(println!(rt; "{}", Hex(&tag))?)
}

/// The tag of a text under a key, worked out in memory of its own. A key above 131 bytes or a text above 300 is refused.
pub(crate) fn tag_of(key: &[u8], text: &[u8]) -> Result<[u8; 32], Fault> {
    hmac_sha256(key, text, &mut [0; WORK_SIZE])
}

/// Reads commands from standard input, one a line, and prints an answer for each: `sha256 HEX`, `two HEX HEX`, and
/// `hmac KEYHEX TEXTHEX WORKLEN`, which also says whether the work block ended as zeros.
pub(crate) fn batch(rt: &HostRuntime) -> anyhow::Result<()> {
    each_line(rt, |line| obey(rt, line))
}

/// Obeys one command; words behind those that it asks for say nothing.
fn obey(rt: &HostRuntime, line: &str) -> Result<(), Trouble> {
    let heap = rt.alloc();
    let words = first_words(line.split_whitespace());
    // A switch on patterns, as in `main`.
    let digest = match words.as_slice() {
        ["sha256", message, ..] => sha256(bytes::read(heap, message)?.as_slice())?,
        ["two", first, second, ..] => sha256_two(
            bytes::read(heap, first)?.as_slice(),
            bytes::read(heap, second)?.as_slice(),
        )?,
        ["hmac", key, text, work_len, ..] => hmac(rt, key, text, work_len)?,
        _ => return Err(Trouble::BadCommand),
    };
    Ok(println!(rt; "ok {}", Hex(&digest))?)
}

/// The tag of a text under a key, worked out in memory of a length that the command gives; says how that memory ended.
fn hmac(rt: &HostRuntime, key: &str, text: &str, work_len: &str) -> Result<[u8; 32], Trouble> {
    let key = bytes::read(rt.alloc(), key)?;
    let text = bytes::read(rt.alloc(), text)?;
    let work_len = work_len.parse::<u8>()?;
    let mut work: Vec<u8> = vec![in rt.alloc(); 0xa5; usize::from(work_len)]?;
    let tag = hmac_sha256(key.as_slice(), text.as_slice(), work.as_mut_slice());
    let wiped = if work.iter().all(|&byte| byte == 0) {
        "wiped"
    } else {
        "not wiped"
    };
    print!(rt; "{wiped} ")?;
    Ok(tag?)
}
