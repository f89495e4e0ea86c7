//! How long the digests and the lead take, for the benchmark scripts: each result goes into the next input, so that no call can be left out.
ghost use Rattle.std.specs.Prelude.{◌<◌};

use crate::digests::WORK_SIZE;
use crate::{orders, seals};
use digest::{hmac_sha256, sha256};
use lead::Lead;
use line::call;
use line::pit::Pit;
use seal::card::Card;
use std::time::Instant;

/// The large input's size.
const MEGABYTE: usize = 1_000_000;

/// The small input's size.
const TEXT_LEN: usize = 60;

/// The key's size.
const KEY_LEN: usize = 32;

/// How many digests of the large input are timed.
const LARGE_ROUNDS: usize = 200;

/// How many tags of the small input are timed.
const SMALL_ROUNDS: usize = 200_000;

/// How many calls a lead takes.
const CALLS: u32 = 2_000;

/// How many leads are timed.
const LEADS: usize = 20;

/// Prints the nanoseconds that one digest of a megabyte, one tag of 60 bytes and one new CALL at a lead took, on average.
pub(crate) fn show(rt: &HostRuntime) -> anyhow::Result<()> {
    let large = large_digests(rt)?;
    println!(rt; "sha256-1MB {large}")?;
    let small = small_tags(rt)?;
    println!(rt; "hmac-60 {small}")?;
    let calls = lead_calls(rt)?;
    println!(rt; "lead-call {calls}")?;
    Ok(())
}

/// The nanoseconds that a round of the work takes on average.
fn average<F: FnMut() -> anyhow::Result<()>>(
    rt: &HostRuntime,
    rounds: usize,
    mut work: F,
) -> anyhow::Result<u128>
    requires some { 0 < rounds }
    requires callable { F.IsAlwaysCallable work }
{
    let start = Instant::now(rt)?;
    for _ in 0..rounds {
        work()?;
    }
    Ok(start.elapsed(rt)?.as_nanos() / rounds as u128)
}

/// New CALLs of one tablet at a lead with a card.
fn lead_calls(rt: &HostRuntime) -> anyhow::Result<u128> {
    let lines: Vec<[u8; call::SIZE]> = (1..=CALLS).map(orders::bare_call).try_collect(rt.alloc())?;
    let pit = Pit::open(1, 0)?;
    let mut seal = Card::open(pit.lead(), seals::demonstration_keys()?);
    let mut out: Vec<u8> = vec![in rt.alloc(); 0; step::LEAST_ROOM]?;
    let each = average(rt, LEADS, || {
        let mut lead = Lead::open(1, 0, pit.lead())?;
        for line in &lines {
            lead.take(&mut seal, line, out.as_mut_slice())?;
        }
        Ok(())
    })?;
    Ok(each / u128::from(CALLS))
}

/// Digests of a megabyte.
fn large_digests(rt: &HostRuntime) -> anyhow::Result<u128> {
    let mut input: Vec<u8> = vec![in rt.alloc(); 0; MEGABYTE]?;
    average(rt, LARGE_ROUNDS, || {
        let digest = sha256(input.as_slice())?;
        if let Some(first) = input.first_mut() {
            *first = digest[0];
        }
        Ok(())
    })
}

/// Tags of 60 bytes.
fn small_tags(rt: &HostRuntime) -> anyhow::Result<u128> {
    let key = [7; KEY_LEN];
    let mut text = [0; TEXT_LEN];
    let mut work = [0; WORK_SIZE];
    average(rt, SMALL_ROUNDS, || {
        let tag = hmac_sha256(&key, &text, &mut work)?;
        text[0] = tag[0];
        Ok(())
    })
}
