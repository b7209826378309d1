//! The query of a list: which page is asked for.

ghost use Rattle.std.specs.Prelude.{◌≡◌, [], ◌∷◌, ◌<◌, IfOk, IsTrue, length};
ghost use Rattle.std.specs.Char.{is_ascii_digit};
ghost use Rattle.std.specs.List.{list_all};
ghost use Rattle.std.specs.Option.{option_copied};
ghost use Rattle.kg_admin_paths.specs.ListQueries.{Gives, broken, is_number, offset_in, offset_of, pairs_of, size_in, size_of, value_of, window_for, window_of};

use kg_field_rules::parts::{are_digits, number_of};
use kg_field_rules::rule::Rule;
use kg_field_rules::violations::Broken;
use kg_row_types::id::Id;
use kg_text::{Bytes, List, NoMemory, Pair, Text, query_pairs};
use std::alloc::Global;

/// The page that is asked for: at most `size` rows, with ids above `after`.
#[derive(Clone, Copy)]
pub struct Window {
    pub after: Option<Id>,
    pub size: u32,
}

/// Why a query asks for no page.
#[derive(Drop)]
pub enum QueryError {
    /// What it breaks, in byte order of the names.
    Violation(List<Broken>),
    NoMemory,
}

impl From<NoMemory> for QueryError {
    ghost use Rattle.kg_admin_paths.specs.declared.list_query.QueryError.TheVariants.{NoMemory as OutOfMemory};

    ghost from_gives = { λ _ e. e ≡ OutOfMemory };

    fn from(_: NoMemory) -> QueryError {
        QueryError::NoMemory
    }
}

// How many rows a page has where the query doesn't say.
const USUAL_ROWS: u32 = 100;

// How many rows a page has at most.
const MOST_ROWS: u16 = 1000;

/// The page that a query asks for. `size` is a number from 1 to 1000, and 100 where it isn't given;
/// `offset` is an id. Of a repeated name the first counts, and other names are ignored.
pub fn window_of(alloc: Global, query: &Option<Bytes>) -> Result<Window, QueryError>
    ensures { Gives result (window_of (pairs_of query.now)) }
{
    let pairs = pairs_of(alloc, query)?;
    let offset = offset_in(&pairs);
    let size = size_in(&pairs);
    window_for(alloc, offset, size)
}

fn window_for(
    alloc: Global,
    offset: Result<Option<Id>, Rule>,
    size: Result<u32, Rule>,
) -> Result<Window, QueryError>
    ensures { Gives result (window_for offset size) }
{
    match offset {
        Ok(after) => match size {
            Ok(size) => Ok(Window { after, size }),
            Err(rule) => Err(QueryError::Violation(one(alloc, "size", rule)?)),
        },
        Err(rule) => {
            let mut broken = one(alloc, "offset", rule)?;
            if let Err(other) = size {
                broken.push(broken_at(alloc, "size", other)?)?;
            }
            Err(QueryError::Violation(broken))
        }
    }
}

fn one(alloc: Global, name: &str, rule: Rule) -> Result<List<Broken>, NoMemory>
    ensures { IfOk result (λ all. all ≡ broken name.now rule ∷ []) }
{
    let mut all = List::new(alloc);
    all.push(broken_at(alloc, name, rule)?)?;
    Ok(all)
}

fn broken_at(alloc: Global, name: &str, rule: Rule) -> Result<Broken, NoMemory>
    ensures { IfOk result (λ one. one ≡ broken name.now rule) }
{
    Ok(Broken {
        path: Text::from_str(alloc, name)?,
        rule,
    })
}

fn size_in(pairs: &List<Pair>) -> Result<u32, Rule>
    ensures { result ≡ size_in pairs.now }
{
    match value_of("size", pairs) {
        Some(text) => size_of(text.as_bytes()),
        None => Ok(USUAL_ROWS),
    }
}

fn size_of(text: &[u8]) -> Result<u32, Rule>
    ensures { result ≡ size_of text.now }
{
    if !is_number(text) {
        return Err(Rule::WrongType);
    }
    match number_of(text) {
        Some(rows) if rows >= 1 && rows <= MOST_ROWS => Ok(u32::from(rows)),
        _ => Err(Rule::OutOfRange),
    }
}

fn is_number(text: &[u8]) -> bool
    ensures value { result ≡ is_number text.now }
    ensures some { IsTrue result → 0 < length text.now }
    ensures digits { IsTrue result → IsTrue (list_all is_ascii_digit text.now) }
{
    match text {
        [b'0'] => true,
        [] => false,
        [first, ..] => *first != b'0' && are_digits(text),
    }
}

fn offset_in(pairs: &List<Pair>) -> Result<Option<Id>, Rule>
    ensures { result ≡ offset_in pairs.now }
{
    match value_of("offset", pairs) {
        Some(text) => offset_of(text.as_bytes()),
        None => Ok(None),
    }
}

fn offset_of(text: &[u8]) -> Result<Option<Id>, Rule>
    ensures { result ≡ offset_of text.now }
{
    match Id::parse(text) {
        Some(id) => Ok(Some(id)),
        None => Err(Rule::Syntax),
    }
}

fn pairs_of(alloc: Global, query: &Option<Bytes>) -> Result<List<Pair>, NoMemory>
    ensures { IfOk result (λ pairs. pairs ≡ pairs_of query.now) }
{
    match query {
        Some(query) => query_pairs(alloc, query.as_slice()),
        None => Ok(List::new(alloc)),
    }
}

// The value of the first pair of a name.
fn value_of<'a>(name: &str, pairs: &'a List<Pair>) -> Option<&'a Text>
    ensures { option_copied result ≡ value_of name.now pairs.now }
{
    match pairs
        .as_slice()
        .iter()
        .find(|pair| pair.name.as_str() == name)
    {
        Some(pair) => Some(&pair.value),
        None => None,
    }
}
