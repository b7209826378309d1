//! The first line of a stream.

ghost use Rattle.std.specs.Prelude.{◌≡◌, ℕ, List, Some, IfOk, OnOk, IsErrOf};
ghost use Rattle.kg_lone.specs.FirstLine.{GivesLine};
ghost use Rattle.kg_lone.specs.declared.line.LineError.{LineError as Failure};
ghost use Rattle.kg_lone.specs.declared.line.LineError.TheVariants.{ReadFault as Fault, NoMemory as OutOfMemory};
ghost use Rattle.kg_outside.specs.Causes.{Rose};

use kg_outside::{Failed, Source};
use std::alloc::{AllocFailed, Global};

/// The first line of a stream.
#[derive(Drop)]
pub enum FirstLine {
    /// The line without its line feed.
    Whole(Vec<u8>),
    /// The line is longer than the limit.
    TooLong,
}

/// Why the first line could not be had.
#[derive(Clone, Copy)]
pub enum LineError {
    /// The source failed.
    ReadFault,
    /// There was no memory for the line.
    NoMemory,
}

impl From<Failed> for LineError {
    ghost from_gives = { λ _ e. e ≡ Fault };

    fn from(_: Failed) -> LineError {
        LineError::ReadFault
    }
}

impl<T: Drop> From<AllocFailed<T>> for LineError {
    ghost from_gives = { λ _ e. e ≡ OutOfMemory };

    fn from(_: AllocFailed<T>) -> LineError {
        LineError::NoMemory
    }
}

/// Reads what stands before the first line feed, or all where there is none. The line feed is taken
/// too, and nothing behind it. `limit` is the length of the longest line that is kept, in bytes.
pub fn first_line<S: Source>(
    alloc: Global,
    source: &mut S,
    limit: usize,
) -> Result<FirstLine, LineError>
    ensures ok { (bytes : List ℕ) → S.left source.old ≡ Some bytes → IfOk result (GivesLine limit bytes (S.left source.new)) }
    ensures kept { OnOk result (S.faults source.new ≡ S.faults source.old) }
    ensures read { IsErrOf result Failure.ReadFault → Rose (S.faults source.old) (S.faults source.new) }
{
    let mut line = Vec::new(alloc);
    let mut room = [0];
    while source.read(&mut room)? != 0 {
        let [byte] = room;
        if byte == b'\n' {
            return Ok(FirstLine::Whole(line));
        }
        if line.len() >= limit {
            return Ok(FirstLine::TooLong);
        }
        line.push(byte)?;
    }
    Ok(FirstLine::Whole(line))
}
