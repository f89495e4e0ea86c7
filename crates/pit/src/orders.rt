//! The shift's calls as lines, and the lead that puts them in order.
use crate::bytes::Hex;
use crate::seals;
use crate::shift::Call;
use anyhow::anyhow;
use lead::Lead;
use line::kind::Kind;
use line::lines::Line;
use line::pit::Pit;
use line::{call, lines};
use seal::Seal;
use seal::card::Card;

/// How many boxes may lie: one, so there are four.
const F: u8 = 1;

/// The view: box 0 leads.
const VIEW: u32 = 0;

/// A pit's set-up and its lead.
#[derive(Drop)]
struct Desk {
    pit: Pit,
    lead: Lead,
}

impl Desk {
    /// The lead of the demonstration's pit, before the first call.
    fn open() -> anyhow::Result<Desk> {
        let pit = Pit::open(F, VIEW)?;
        let lead = Lead::open(F, VIEW, pit.lead())?;
        Ok(Desk { pit, lead })
    }

    /// Prints a call as the line that its tablet sends, and the ORDER that the lead makes of it.
    fn show(&mut self, rt: &HostRuntime, call: &Call) -> anyhow::Result<()> {
        let line = call_line(call)?;
        println!(rt; "CALL {}", Hex(&line))?;
        let mut seal = Card::open(self.pit.lead(), seals::demonstration_keys()?);
        let mut out = [0; step::LEAST_ROOM];
        let count = self.lead.take(&mut seal, &line, &mut out)?;
        let Line::Order(order) = lines::read(&self.pit, &Kind::ALL, &out[0..count])? else {
            return Err(anyhow!("the lead wrote no ORDER"));
        };
        let (sender, place, history) = (order.sender, order.place, Hex(order.history));
        println!(rt; "  ORDER of box {sender}: place {place}, {call}, history {history}")?;
        Ok(())
    }
}

/// Prints each call as the line that its tablet sends, and the ORDER that the lead makes of it.
pub(crate) fn show_shift(rt: &HostRuntime, calls: &[Call]) -> anyhow::Result<()> {
    println!(rt; "")?;
    println!(rt;
        "The calls as lines, and the ORDERs that the lead of a pit of four boxes makes of them"
    )?;
    let mut desk = Desk::open()?;
    for call in calls {
        desk.show(rt, call)?;
    }
    println!(rt; "The last call once more: a repeat keeps its place")?;
    if let Some(call) = calls.last() {
        desk.show(rt, call)?;
    }
    Ok(())
}

/// The line of tablet 0's first call of the shift, under another stamp.
pub(crate) fn bare_call(stamp: u32) -> anyhow::Result<[u8; call::SIZE]> {
    call_line(&Call::first(stamp))
}

/// A call with its tablet's tag behind it.
fn call_line(call: &Call) -> anyhow::Result<[u8; call::SIZE]> {
    let party = call.party();
    let tag = Card::open(party, seals::demonstration_keys()?).stamp(party, &call.text()?)?;
    Ok(call.signed(&tag)?)
}
