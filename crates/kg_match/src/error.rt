//! Why a route's test could not be made.

ghost use Rattle.std.specs.Prelude.{◌≡◌};
ghost use Rattle.kg_match.specs.declared.error.BuildError.TheVariants.{NoMemory as OutOfMemory};

use kg_text::NoMemory;
use std::error::Error;
use std::fmt;

/// Why a route's test could not be made.
#[derive(Clone, Copy, Debug, PartialEq, Eq, Hash)]
pub enum BuildError {
    /// The path at this place, counted from 0, is the first whose pattern the grammar doesn't
    /// read.
    BadPattern { index: usize },
    /// There was no memory for the test, or a pattern is too big to compile.
    NoMemory,
}

impl From<NoMemory> for BuildError {
    ghost from_gives = { λ _ e. e ≡ OutOfMemory };

    fn from(_: NoMemory) -> BuildError {
        BuildError::NoMemory
    }
}

impl fmt::Display for BuildError {
    fn fmt<W: fmt::Write>(&self, f: &mut fmt::Formatter<W>) -> fmt::Result {
        match self {
            BuildError::BadPattern { index } => write!(f, "the pattern of path {index} is none"),
            BuildError::NoMemory => write!(f, "out of memory"),
        }
    }
}

impl Error for BuildError {}
