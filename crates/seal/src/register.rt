//! The register seal: it writes down who stamped which text, and accepts what its rows say.
ghost use Rattle.std.specs.Prelude.{◌≤◌, vec_len, vec_capacity};
ghost use Rattle.seal.specs.Rows.{most_rows};

use thiserror::Error;

mod rows;
mod sealing;

/// The most rows that a register can have.
pub const MOST_ROWS: usize = 100_000;

/// A register of `limit` rows, all of them reserved when it is opened.
#[derive(Drop)]
pub struct Register {
    limit: usize,
    rows: Vec<rows::Row>,
    ghost reserved: { limit ≤ vec_capacity rows },
    ghost room: { vec_len rows ≤ limit },
    ghost few: { limit ≤ most_rows },
}

/// Why a register could not be opened.
#[derive(Clone, Copy, PartialEq, Eq, Debug, Error)]
pub enum Unopened {
    #[error("a register has at most {MOST_ROWS} rows")]
    TooManyRows,
    #[error("no memory for so many rows")]
    NoMemory,
}
