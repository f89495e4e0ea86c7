//! Commands that come one a line: each is answered, or told why not.
ghost use Rattle.std.specs.Iterator.{IsFinite};

use arrayvec::ArrayVec;
use fault::Fault;
use hex::FromHexError;
use seal::register::Unopened;
use std::alloc::AllocError;
use std::io;
use std::io::{BufRead, BufReader};
use std::num::ParseIntError;
use thiserror::Error;

/// Why a command gets no answer. After the first two the next command is obeyed; the others end the program.
#[derive(Debug, Drop, Error)]
pub(crate) enum Trouble {
    /// It says nothing that can be done.
    #[error("bad command")]
    BadCommand,
    /// What it asks for is refused: the reason's number, and the byte at fault.
    #[error("refused {number} {offset}", number = .0.reason.number(), offset = .0.offset)]
    Refused(#[from] Fault),
    /// There is no memory for it.
    #[error(transparent)]
    Memory(#[from] AllocError),
    /// No register can be opened for it.
    #[error(transparent)]
    Unopened(#[from] Unopened),
    /// Reading commands or printing answers fails.
    #[error(transparent)]
    Io(#[from] io::Error),
}

impl From<ParseIntError> for Trouble {
    fn from(_: ParseIntError) -> Trouble {
        Trouble::BadCommand
    }
}

// Nothing that is decoded here needs memory of its own (arrays and lent blocks), so none is ever wanting.
impl From<FromHexError> for Trouble {
    fn from(_: FromHexError) -> Trouble {
        Trouble::BadCommand
    }
}

impl Trouble {
    /// The same, with want of memory told as an error of reading or printing: so `seal` and `read` tell it.
    #[inline(always)]
    pub(crate) fn of_io(self) -> Trouble {
        match self {
            Trouble::Memory(error) => Trouble::Io(error.into()),
            _ => self,
        }
    }
}

/// Prints why a command got no answer, and goes on unless the program cannot.
// Inlined, as `first_words` and `of_io` are: as calls of their own, which lines of most commands go through, they cost a short one a fifth more.
#[inline(always)]
pub(crate) fn tell(rt: &HostRuntime, done: Result<(), Trouble>) -> anyhow::Result<()> {
    let Err(trouble) = done else {
        return Ok(());
    };
    match trouble {
        Trouble::BadCommand | Trouble::Refused(_) => Ok(println!(rt; "{trouble}")?),
        _ => Err(trouble.into()),
    }
}

/// How many words of a command are looked at: one more than any command has, so that a word too many shows.
pub(crate) const MOST_WORDS: usize = 6;

/// The first words of a command.
// No list of all words: a line may have any number of them, and those that no command has need no memory.
#[inline(always)]
pub(crate) fn first_words<'a, I: Iterator<Item = &'a str>>(
    words: I,
) -> ArrayVec<&'a str, MOST_WORDS>
    requires can { I.can_next words }
    requires finite { IsFinite (I.remaining words) }
{
    let mut first = ArrayVec::new();
    for word in words {
        if first.try_push(word).is_err() {
            break;
        }
    }
    first
}

/// Obeys each line of standard input, and tells what came of it; ends at the first error that no next command can mend.
pub(crate) fn each_line<F: FnMut(&str) -> Result<(), Trouble>>(
    rt: &HostRuntime,
    mut obey: F,
) -> anyhow::Result<()>
    requires { F.IsAlwaysCallable obey }
{
    for line in BufReader::new(rt.alloc(), rt.stdin())?.lines(rt.alloc()) {
        let line = line?;
        tell(rt, obey(line.as_str()))?;
    }
    Ok(())
}

/// F and VIEW as a command writes them. An F that no byte holds is as much too large as 255 is; a word that is no number, or
/// one above 2^64 - 1 or 2^32 - 1, is a bad command.
pub(crate) fn read_set_up(f: &str, view: &str) -> Result<(u8, u32), Trouble> {
    let f = u8::try_from(f.parse::<u64>()?).unwrap_or(u8::MAX);
    Ok((f, view.parse::<u32>()?))
}
