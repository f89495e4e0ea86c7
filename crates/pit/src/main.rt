//! The pit's program: a shift shown from beginning to end, and each layer by itself at the command line.

#![tactic(auto)]

mod bench;
mod bytes;
mod command;
mod digests;
mod lines;
mod orders;
mod replay;
mod seals;
mod services;
mod shift;
mod vectors;
mod votes;

use crate::command::{MOST_WORDS, first_words};
use anyhow::anyhow;
use service::board::Board;
use service::ledger::Ledger;
use std::env;
use std::process::ExitCode;

/// The commands, for whoever gave words that say nothing that can be done.
const COMMANDS: [&str; 14] = [
    "pit                          a shift from beginning to end",
    "pit sha256 FILE              a file's digest",
    "pit hmac KEYHEX FILE         a file's tag under a key",
    "pit digests                  digests and tags of many inputs, from standard input",
    "pit vectors                  the standards' vectors",
    "pit board FILE               bodies performed on a board",
    "pit ledger FILE              bodies performed on a ledger",
    "pit keys FILE                a key file, looked through",
    "pit seal card OWNER          a card that answers commands from standard input",
    "pit seal register ROWS       a register that does",
    "pit read F VIEW KINDS HEX    what bytes are to a pit",
    "pit read-many                the same, from standard input",
    "pit replay [FILE]            a trace, from a file or from standard input",
    "pit bench                    nanoseconds, for the benchmark",
];

/// Lists the commands on standard error.
fn usage(rt: &HostRuntime) -> anyhow::Result<()> {
    for command in &COMMANDS {
        eprintln!(rt; "{command}")?;
    }
    Err(anyhow!("these are the commands"))
}

/// Runs the command; what went wrong is said in words, with status 1.
fn main(rt: HostRuntime) -> ExitCode {
    match run(&rt) {
        Ok(()) => ExitCode::SUCCESS,
        Err(error) => {
            let _ = eprintln!(rt; "pit: {error}");
            ExitCode::FAILURE
        }
    }
}

/// Runs the command that the program's arguments say.
// A switch on patterns and no table of functions: the pattern says how many words a command has and names each.
fn run(rt: &HostRuntime) -> anyhow::Result<()> {
    let words: Vec<String> = env::args(rt)?.skip(1).take(MOST_WORDS).collect(rt.alloc())?;
    let words = first_words(words.iter().map(|word| word.as_str()));
    match words.as_slice() {
        [] => shift::show(rt),
        ["bench"] => bench::show(rt),
        ["digests"] => digests::batch(rt),
        ["read-many"] => lines::read_many(rt),
        ["replay"] => replay::standard_input(rt),
        ["vectors"] => vectors::show(rt),
        ["board", path] => services::file(rt, &mut Board::open(), path),
        ["keys", path] => seals::keys_file(rt, path),
        ["ledger", path] => services::file(rt, &mut Ledger::open(), path),
        ["replay", path] => replay::file(rt, path),
        ["sha256", path] => digests::sha256_file(rt, path),
        ["hmac", key, path] => digests::hmac_file(rt, key, path),
        ["seal", "card", owner] => seals::serve_card(rt, owner),
        ["seal", "register", rows] => seals::serve_register(rt, rows),
        ["seal", _, _] => Err(anyhow!("a seal is a card or a register")),
        ["read", words @ ..] if words.len() == 4 => lines::read_one(rt, words),
        _ => usage(rt),
    }
}
