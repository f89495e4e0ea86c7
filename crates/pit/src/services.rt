//! The services by themselves: bodies from a file, and what a service holds as a small table.
ghost use Rattle.std.specs.Prelude.{◌≡◌, nat_eq};

use hex::FromHex;
use service::board::{Board, FIRST_SPOT, LAST_SPOT};
use service::ledger::Ledger;
use service::reply::told;
use service::{BODY, Service};
use std::{fs, io};

/// What code 1 means to every service.
const MALFORMED: &str = "no such operation, or something in a field that it does not use";

/// The tablet by which the bodies of a file are performed.
const TABLET: u16 = 0;

/// Performs the bodies of a file on a new service, and prints a line for each.
pub(crate) fn file<S: Service>(
    rt: &HostRuntime,
    service: &mut S,
    path: &str,
) -> anyhow::Result<()> {
    let text = fs::read(rt, path)?;
    for line in text.as_slice().split_inclusive(ends_line) {
        perform_line(rt, service, line.strip_suffix(b"\n").unwrap_or(line))?;
    }
    Ok(())
}

/// Whether a byte ends a line.
fn ends_line(byte: &u8) -> bool
    ensures { result ≡ nat_eq byte.now 10 }
{
    *byte == b'\n'
}

/// Performs a line's body and prints the reply; a line that is no body changes nothing.
fn perform_line<S: Service>(rt: &HostRuntime, service: &mut S, line: &[u8]) -> io::Result<()> {
    let Ok(body) = <[u8; BODY] as FromHex>::from_hex(line) else {
        return println!(rt; "bad body");
    };
    let (code, value) = told(&service.perform(TABLET, &body));
    println!(rt; "code {code} value {value}")
}

/// A service that can be shown in words.
pub(crate) trait Shown: Service {
    /// What its codes mean, from 0 on.
    // Texts by number: a reply is bytes, which tell a code by its number, and each service has its own.
    const CODES: &'static [&'static str];

    /// Prints what it holds as a small table.
    fn show(&self, rt: &HostRuntime) -> io::Result<()>;
}

impl Shown for Board {
    const CODES: &'static [&'static str] = &[
        "done",
        MALFORMED,
        "there is no such truck",
        "trucks are sent to spots 1 to 31",
        "four other trucks are there already",
    ];

    /// Who is where, a line for each spot in use.
    fn show(&self, rt: &HostRuntime) -> io::Result<()> {
        println!(rt; "spot  trucks")?;
        for spot in FIRST_SPOT..=LAST_SPOT {
            if self.spots().iter().any(|&here| u16::from(here) == spot) {
                show_spot(rt, self, spot)?;
            }
        }
        println!(rt; "every other truck is at the gate")
    }
}

impl Shown for Ledger {
    const CODES: &'static [&'static str] = &[
        "done",
        MALFORMED,
        "there is no such pile",
        "there is no such pile to haul to",
        "the pile holds less than that",
        "the pile would pass 1,000,000,000",
    ];

    /// What lies on each pile that is not empty.
    fn show(&self, rt: &HostRuntime) -> io::Result<()> {
        println!(rt; "pile  weight")?;
        for (pile, weight) in self.piles().iter().enumerate() {
            if *weight != 0 {
                println!(rt; "{pile:>4}  {weight}")?;
            }
        }
        Ok(())
    }
}

/// Prints the trucks of a spot.
fn show_spot(rt: &HostRuntime, board: &Board, spot: u16) -> io::Result<()> {
    print!(rt; "{spot:>4} ")?;
    for (truck, here) in board.spots().iter().enumerate() {
        if u16::from(*here) == spot {
            print!(rt; " {truck}")?;
        }
    }
    println!(rt; "")
}
