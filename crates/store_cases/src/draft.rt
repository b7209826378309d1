//! Rows that are told by a number.

ghost use Rattle.std.specs.Prelude.{IfOk};
ghost use Rattle.std.specs.Prelude.{◌≡◌};
ghost use Rattle.kg_rows.specs.Decision.{IsProper};

use kg_entities::{Entity, Id, Key, Kind};
use kg_rows::Draft;
use kg_schema::{Form, read_form};
use kg_text::{NoMemory, Text};
use serde_json::Value;
use std::alloc::Global;

/// The last 62 bits of an id that was drawn are those of its bytes.
const DRAWN: u128 = (1 << 62) - 1;

/// The insertion of the service or consumer of a number, which is when the row is made, in seconds.
pub fn draft_of(alloc: Global, kind: Kind, row: u64) -> Result<Draft, NoMemory>
    ensures { IfOk result IsProper }
{
    let form = form_of(alloc, kind, row)?;
    Ok(Draft::Insert {
        kind,
        parent: None,
        form,
        id: id_of(row),
        now: row.saturating_mul(1000),
    })
}

fn form_of(alloc: Global, kind: Kind, row: u64) -> Result<Form, NoMemory>
    ensures { IfOk result (λ form. form.kind ≡ kind) }
{
    let mut body = String::new(alloc);
    match kind {
        Kind::Service => write!(body, "{{\"name\":\"s{row}\",\"host\":\"h.example\"}}")?,
        _ => write!(body, "{{\"username\":\"c{row}\"}}")?,
    }
    let Ok(value) = Value::from_slice(alloc, body.as_bytes()) else {
        return Err(NoMemory);
    };
    let form = read_form(alloc, kind, &value);
    drop(value); // let go by name: a short proof
    match form {
        Ok(form) => Ok(form),
        Err(_) => Err(NoMemory),
    }
}

/// The id of the row of a number.
pub fn id_of(row: u64) -> Id {
    let [a, b, c, d, e, f, g, h] = row.to_be_bytes();
    Id::from_drawn([0, 0, 0, 0, 0, 0, 0, 0, a, b, c, d, e, f, g, h])
}

/// The number of the row of an id.
pub fn number_of(id: Id) -> u64 {
    (id.number() & DRAWN) as u64
}

/// The key that names the consumer of a number.
pub fn key_of(alloc: Global, row: u64) -> Result<Key, NoMemory> {
    let mut name = String::new(alloc);
    write!(name, "c{row}")?;
    Ok(Key::Named(Text::from_string(name)))
}

/// The number of a row.
pub fn number_of_row(row: &Entity) -> u64 {
    number_of(row.id())
}
