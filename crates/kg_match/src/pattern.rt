//! The patterns of regex paths.

ghost use Rattle.std.specs.Prelude.{◌≡◌, ◌==◌, IfOk, MatchOption, None, Some, false, true, if◌then◌else◌};
ghost use Rattle.kg_row_types.specs.Patterns.{is_pattern};
ghost use Rattle.kg_match.specs.RoutePaths.{pattern_cut};

use kg_text::NoMemory;
use regex::{Error, Regex};
use std::alloc::Global;
use std::marker::Model;

/// A compiled pattern of a regex path. Contracts see it as its text, without the `~`.
#[derive(Drop)]
pub struct PathPattern {
    regex: Regex,
}

impl Model for PathPattern {
    ghost use Rattle.std.specs.Prelude.{◌≡◌, List, ℕ};
    ghost use Rattle.regex.specs.Patterns.{default_config};
    ghost use Rattle.regex.specs.Strings.{regex_source, regex_config, IsReadFromSource};

    ghost Value = { List ℕ };

    ghost view = { λ pattern. regex_source pattern.regex };

    ghost invariant = { λ pattern. (regex_config pattern.regex ≡ default_config) × IsReadFromSource pattern.regex };
}

impl PathPattern {
    /// The pattern that a text spells, if it spells one. A pattern that is too big to compile
    /// counts as want of memory.
    pub fn build(alloc: Global, text: &str) -> Result<Option<PathPattern>, NoMemory>
        ensures { IfOk result (λ built. MatchOption built (is_pattern text.now ≡ false) (λ pattern. (pattern ≡ text.now) × (is_pattern text.now ≡ true))) }
    {
        match Regex::new(alloc, text) {
            Ok(regex) => Ok(Some(PathPattern { regex })),
            Err(Error::Syntax(_)) => Ok(None),
            Err(Error::CompiledTooBig) => Err(NoMemory),
            Err(Error::Internal) => Err(NoMemory),
            Err(Error::OutOfMemory) => Err(NoMemory),
        }
    }

    /// How many bytes of a path the first match takes, where it begins at the first byte. Each
    /// call makes the tables of a search anew, so it takes memory.
    pub fn cut(&self, alloc: Global, path: &str) -> Result<Option<usize>, NoMemory>
        ensures { IfOk result (λ cut. cut ≡ pattern_cut self.now path.now) }
    {
        let mut matcher = self.regex.matcher(alloc)?;
        match matcher.find(path) {
            Some(found) => Ok(end_from_start(found.start(), found.end())),
            None => Ok(None),
        }
    }
}

fn end_from_start(start: usize, end: usize) -> Option<usize>
    ensures { result ≡ if start == 0 then Some end else None }
{
    if start == 0 { Some(end) } else { None }
}
