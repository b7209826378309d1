//! Paths of routes: plain ones, and regular expressions.

ghost use Rattle.std.specs.Prelude.{◌≡◌, ◌&&◌, IfOk, codes, drop, length};
ghost use Rattle.kg_row_types.specs.Patterns.{is_pattern};
ghost use Rattle.kg_row_types.specs.TextForms.{has_route_path_form};

use crate::text_rule::forms::is_normal_path;
use kg_text::NoMemory;
use regex::{Error, Regex};
use std::alloc::Global;

/// A plain path in its own normal form, or `~` and a pattern.
pub fn has_route_path_form(alloc: Global, path: &str) -> Result<bool, NoMemory>
    ensures { IfOk result (λ has. has ≡ has_route_path_form path.now) }
{
    if is_normal_path(path.as_bytes()) {
        return Ok(true);
    }
    match path.strip_prefix("~") {
        Some(pattern) => is_pattern(alloc, pattern),
        None => Ok(false),
    }
}

// Is this a pattern? One whose program is too large counts as want of memory, since no generation
// of routes could be made of it.
fn is_pattern(alloc: Global, text: &str) -> Result<bool, NoMemory>
    ensures { IfOk result (λ is. is ≡ is_pattern text.now) }
{
    match Regex::new(alloc, text) {
        Ok(_) => Ok(true),
        Err(Error::Syntax(_)) => Ok(false),
        Err(Error::CompiledTooBig) => Err(NoMemory),
        Err(Error::Internal) => Err(NoMemory),
        Err(Error::OutOfMemory) => Err(NoMemory),
    }
}
