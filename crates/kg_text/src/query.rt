//! The pairs of a query (URL Standard, section 5).

ghost use Rattle.std.specs.Prelude.{◌≡◌, IfOk, OnOk, string_bytes};
ghost use Rattle.std.specs.Cow.{cow_str_bytes};
ghost use Rattle.kg_text.specs.Queries.{decoded_text, decoded_pair, query_pairs, query_text, with_pair};

use crate::bytes::Bytes;
use crate::error::NoMemory;
use crate::list::List;
use crate::pair::Pair;
use crate::text::Text;
use form_urlencoded::{Serializer, decode, raw_pairs};
use std::alloc::Global;
use std::borrow::CowStr;

/// The pairs of a query, read as forms are: the pieces between `&`, split at their first `=` and
/// decoded. An empty piece is no pair.
pub fn query_pairs(alloc: Global, query: &[u8]) -> Result<List<Pair>, NoMemory>
    ensures { IfOk result (λ pairs. pairs ≡ query_pairs query.now) }
{
    let mut pairs = List::new(alloc);
    let mut rest = raw_pairs(query);
    while let Some((name, value)) = rest.next() {
        pairs.push(decoded_pair(alloc, name, value)?)?;
    }
    Ok(pairs)
}

fn decoded_pair(alloc: Global, name: &[u8], value: &[u8]) -> Result<Pair, NoMemory>
    ensures { IfOk result (λ pair. pair ≡ decoded_pair (name.now, value.now)) }
{
    Ok(Pair {
        name: decoded_text(alloc, name)?,
        value: decoded_text(alloc, value)?,
    })
}

fn decoded_text(alloc: Global, bytes: &[u8]) -> Result<Text, NoMemory>
    ensures { IfOk result (λ text. text ≡ decoded_text bytes.now) }
{
    owned_text(alloc, decode(alloc, bytes)?)
}

fn owned_text(alloc: Global, text: CowStr<'_, Global>) -> Result<Text, NoMemory>
    ensures { IfOk result (λ owned. owned ≡ cow_str_bytes text.entry) }
{
    match text {
        CowStr::Borrowed(text) => Text::from_str(alloc, text),
        CowStr::Owned(text) => Ok(Text::from_string(text)),
    }
}

/// The text of pairs, written as forms are: `name=value`, escaped, with `&` between the pairs.
pub fn query_text(alloc: Global, pairs: &List<Pair>) -> Result<Bytes, NoMemory>
    ensures { IfOk result (λ text. text ≡ query_text pairs.now) }
{
    let mut form = Serializer::new(String::new(alloc));
    for pair in pairs.as_slice() {
        form.append_pair(pair.name.as_str(), pair.value.as_str())?;
    }
    Ok(Bytes::from_vec(form.finish().into_bytes()))
}
