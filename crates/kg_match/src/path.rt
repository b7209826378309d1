//! The paths of a route.

ghost use Rattle.std.specs.Prelude.{◌≡◌, ◌≢◌, ◌∷◌, ◌++◌, [], ℕ, Err, IfOk, IsTrue, MatchOption, None, OnErr, OnOk, Some, false, not};
ghost use Rattle.std.specs.Option.{option_or};
ghost use Rattle.kg_row_types.specs.TextForms.{is_regex_path};
ghost use Rattle.kg_match.specs.RoutePaths.{is_prefix, first_cut, longest_prefix, patterns_of, cut_where_fits, has_bad_pattern, bad_pattern_of};
ghost use Rattle.kg_match.specs.declared.error.BuildError.TheVariants.{BadPattern as IsBad};

use crate::error::BuildError;
use crate::pattern::PathPattern;
use kg_text::{NoMemory, Text};
use std::alloc::Global;

/// Is this path of a route a pattern after a `~`?
pub fn is_regex_path(path: &Text) -> bool
    ensures { result ≡ is_regex_path path.now }
{
    path.as_bytes().starts_with(b"~")
}

/// The compiled patterns of the regex paths, in order.
pub fn compile(alloc: Global, paths: &[Text]) -> Result<Vec<PathPattern>, BuildError>
    ensures value { IfOk result (λ patterns. patterns.items ≡ patterns_of paths.now) }
    ensures ok { OnOk result (bad_pattern_of paths.now ≡ None) }
    ensures bad { (index : ℕ) → result ≡ Err (IsBad index) → bad_pattern_of paths.now ≡ Some index }
{
    let mut patterns = Vec::new(alloc);
    for (index, path) in paths.iter().enumerate() {
        if !push_pattern(alloc, &mut patterns, path)? {
            return Err(BuildError::BadPattern { index });
        }
    }
    Ok(patterns)
}

// Adds the pattern of a regex path. False where it is none.
fn push_pattern(
    alloc: Global,
    patterns: &mut Vec<PathPattern>,
    path: &Text,
) -> Result<bool, NoMemory>
    ensures good { IfOk result (λ good. good ≡ not (has_bad_pattern path.now)) }
    ensures pushed { IfOk result (λ good. IsTrue good → patterns.new.items ≡ patterns.old.items ++ patterns_of (path.now ∷ [])) }
{
    let Some(text) = pattern_text(path.as_str()) else {
        return Ok(true);
    };
    let Some(pattern) = PathPattern::build(alloc, text)? else {
        return Ok(false);
    };
    patterns.push(pattern)?;
    Ok(true)
}

// What stands after the `~` of a regex path.
fn pattern_text(path: &str) -> Option<&str>
    ensures { MatchOption result (is_regex_path path.now ≡ false) (λ text. path.now ≡ 126 ∷ text.now) }
{
    path.strip_prefix('~')
}

/// How many bytes of a path in normal form a route's paths take, where none are set or one of them
/// fits. The patterns are those of the paths.
pub fn cut_where_fits(
    alloc: Global,
    paths: &[Text],
    patterns: &[PathPattern],
    path: &Text,
) -> Result<Option<usize>, NoMemory>
    requires { patterns.now ≡ patterns_of paths.now }
    ensures cut { IfOk result (λ cut. cut ≡ cut_where_fits paths.now path.now) }
    ensures err { OnErr result (patterns.now ≢ []) }
{
    if paths.is_empty() {
        return Ok(Some(0));
    }
    best_cut(alloc, paths, patterns, path)
}

// How many bytes the first pattern takes that fits, or else the longest prefix.
fn best_cut(
    alloc: Global,
    paths: &[Text],
    patterns: &[PathPattern],
    path: &Text,
) -> Result<Option<usize>, NoMemory>
    ensures cut { IfOk result (λ cut. cut ≡ option_or (first_cut path.now patterns.now) (longest_prefix path.now paths.now)) }
    ensures err { OnErr result (patterns.now ≢ []) }
{
    match first_cut(alloc, patterns, path.as_str())? {
        Some(cut) => Ok(Some(cut)),
        None => Ok(longest_prefix(paths, path.as_bytes())),
    }
}

// How many bytes the first pattern takes that fits.
fn first_cut(alloc: Global, patterns: &[PathPattern], path: &str) -> Result<Option<usize>, NoMemory>
    ensures cut { IfOk result (λ cut. cut ≡ first_cut path.now patterns.now) }
    ensures err { OnErr result (patterns.now ≢ []) }
{
    for pattern in patterns {
        if let Some(cut) = pattern.cut(alloc, path)? {
            return Ok(Some(cut));
        }
    }
    Ok(None)
}

// How many bytes the longest plain path has that is a prefix.
fn longest_prefix(paths: &[Text], path: &[u8]) -> Option<usize>
    ensures { result ≡ longest_prefix path.now paths.now }
{
    paths
        .iter()
        .filter(|wanted| is_prefix(path, wanted))
        .map(|wanted| wanted.len())
        .max()
}

fn is_prefix(path: &[u8], wanted: &Text) -> bool
    ensures { result ≡ is_prefix path.now wanted.now }
{
    !is_regex_path(wanted) && path.starts_with(wanted.as_bytes())
}
