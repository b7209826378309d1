//! What a new row has in a field that its body doesn't set.

ghost use Rattle.std.specs.Prelude.{◌≡◌, ◌++◌, IfOk, OnOk, map};
ghost use Rattle.kg_field_tables.specs.Defaults.{default_flag, default_https, default_integer, default_limit_by, default_number, default_size_unit, default_texts, default_value, default_whole, texts_of_list};

use crate::table::{Field, Table, field_of};
use kg_row_types::config::{LimitBy, SizeUnit};
use kg_text::{List, NoMemory, Text};
use std::alloc::Global;

/// The value that stands in the table of a field.
#[derive(Clone, Copy)]
pub enum DefaultValue {
    /// None: the row has nothing in this field, or a list without members.
    Unset,
    Flag(bool),
    Whole(u64),
    Integer(i64),
    /// Whether `https` stands beside `http` among the protocols of a route.
    Https(bool),
    SizeUnit(SizeUnit),
    LimitBy(LimitBy),
    Texts(TextList),
}

/// A list of texts.
#[derive(Clone, Copy)]
pub enum TextList {
    /// The methods that another origin may use.
    Methods,
    /// The names under which a key comes.
    KeyNames,
}

/// The value in the table.
pub fn default_value(table: Table, name: &str) -> DefaultValue
    ensures { result ≡ default_value table name.now }
{
    match field_of(table, name) {
        Field::Judged(_, value) => value,
        _ => DefaultValue::Unset,
    }
}

/// The flag of a field, or false.
pub fn default_flag(table: Table, name: &str) -> bool
    ensures { result ≡ default_flag table name.now }
{
    match default_value(table, name) {
        DefaultValue::Flag(flag) => flag,
        _ => false,
    }
}

/// The number of a field that a row can be without.
pub fn default_number(table: Table, name: &str) -> Option<u64>
    ensures { result ≡ default_number table name.now }
{
    match default_value(table, name) {
        DefaultValue::Whole(number) => Some(number),
        _ => None,
    }
}

/// The number of a field that every row has, or 0.
pub fn default_whole(table: Table, name: &str) -> u64
    ensures { result ≡ default_whole table name.now }
{
    default_number(table, name).unwrap_or(0)
}

/// The integer of a field, or 0.
pub fn default_integer(table: Table, name: &str) -> i64
    ensures { result ≡ default_integer table name.now }
{
    match default_value(table, name) {
        DefaultValue::Integer(integer) => integer,
        _ => 0,
    }
}

/// Whether `https` stands among the protocols of a field.
pub fn default_https(table: Table, name: &str) -> bool
    ensures { result ≡ default_https table name.now }
{
    match default_value(table, name) {
        DefaultValue::Https(https) => https,
        _ => false,
    }
}

/// What a size is counted in: bytes, if the table has no other unit.
pub fn default_size_unit(table: Table, name: &str) -> SizeUnit
    ensures { result ≡ default_size_unit table name.now }
{
    match default_value(table, name) {
        DefaultValue::SizeUnit(counted) => counted,
        _ => SizeUnit::Bytes,
    }
}

/// Whose requests are counted together: those of an address, if the table says nothing else.
pub fn default_limit_by(table: Table, name: &str) -> LimitBy
    ensures { result ≡ default_limit_by table name.now }
{
    match default_value(table, name) {
        DefaultValue::LimitBy(by) => by,
        _ => LimitBy::Ip,
    }
}

/// The texts of a list.
pub fn default_texts(alloc: Global, table: Table, name: &str) -> Result<List<Text>, NoMemory>
    ensures { IfOk result (λ texts. texts ≡ default_texts table name.now) }
{
    match default_value(table, name) {
        DefaultValue::Texts(list) => texts_of_list(alloc, list),
        _ => Ok(List::new(alloc)),
    }
}

fn texts_of_list(alloc: Global, list: TextList) -> Result<List<Text>, NoMemory>
    ensures { IfOk result (λ texts. texts ≡ texts_of_list list) }
{
    let mut texts = List::new(alloc);
    match list {
        TextList::Methods => {
            add_texts(alloc, &mut texts, &["GET", "HEAD", "PUT", "PATCH", "POST"])?;
            add_texts(
                alloc,
                &mut texts,
                &["DELETE", "OPTIONS", "TRACE", "CONNECT"],
            )?;
        }
        TextList::KeyNames => add_texts(alloc, &mut texts, &["apikey"])?,
    }
    Ok(texts)
}

// Adds copies of the texts at the end.
fn add_texts(alloc: Global, list: &mut List<Text>, texts: &[&str]) -> Result<(), NoMemory>
    ensures { OnOk result (list.new ≡ list.old ++ map (λ text. text.now) texts.now) }
{
    for text in texts {
        list.push(Text::from_str(alloc, text)?)?;
    }
    Ok(())
}
