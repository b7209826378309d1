//! The commands of a declaration.

ghost use Rattle.std.specs.Prelude.{◌≡◌, ℕ, List as Sequence, [], IfErr, IfOk, OnOk, Some, option_map};
ghost use Rattle.serde_json.specs.Find.{as_object};
ghost use Rattle.serde_json.specs.View.{members_view, view};
ghost use Rattle.kg_declared_rows.specs.Violations.{own_violations};
ghost use Rattle.kg_declare.specs.Histories.{AreInsertions};
ghost use Rattle.kg_declare.specs.Inserting.{IsConsistent, IsUnread, Prepares, TellsViolations};
ghost use Rattle.kg_declare.specs.Outcome.{declaration_of, json_of, outcome};
ghost use Rattle.kg_declared_rows.specs.SeenRows.{seen_all};
ghost use Rattle.kg_declare.specs.Steps.{Declares, IsRefusedAt};

use crate::error::DeclareError;
use crate::progress::{Made, insert_rows};
use crate::refusal::violation_response;
use kg_declared_rows::{Declared, own_violations, rows_of};
use kg_message::message;
use kg_outside::Ids;
use kg_rows::{Command, allowed_commands_make_valid_rows};
use kg_text::{List, NoMemory};
use serde_json::{Map, Value};
use std::alloc::Global;

/// The commands of a declaration, an object of JSON on one line, over no rows.
///
/// `now` is the clock in milliseconds, and of each kind there are at most `limit` rows. Each row
/// becomes what a POST of it would insert, kind by kind: services, routes, consumers, keys, logins,
/// groups, plugins; in a kind those of the declaration's own list, then those nested in other rows,
/// by their parents' order. In this order an id is drawn for each row without one, once its fields
/// are judged.
///
/// `Refused` has the reply that a POST of the first refused row would have. What is wrong with the
/// declaration's own members comes before that, and a line that is no object of JSON has a reply of
/// its own. An empty line counts as an object without members.
pub fn declare<I: Ids>(
    alloc: Global,
    line: &[u8],
    ids: &mut I,
    now: u64,
    limit: u32,
) -> Result<List<Command>, DeclareError>
    ensures outcome { Declares I.draws ids.old ids.new result (outcome line.now now limit) }
    ensures commands { IfOk result (AreInsertions limit) }
{
    // here and below no `?` beside what is owned: a short proof
    let rows = match prepared(alloc, line) {
        Ok(rows) => rows,
        Err(e) => return Err(e),
    };
    let mut made = Made::new(alloc);
    match insert_rows(alloc, rows, &mut made, ids, now, limit) {
        Ok(()) => Ok(commands_of(made, limit)),
        Err(e) => {
            drop(made); // let go by name: a short proof
            Err(e)
        }
    }
}

// The commands, as what they are.
fn commands_of(made: Made, limit: u32) -> List<Command>
    ensures commands { result ≡ made.commands }
    ensures insertions { IsConsistent limit made → AreInsertions limit result }
{
    // The law and the limit are for the proof alone.
    allowed_commands_make_valid_rows();
    let _limit = limit;
    let Made { rows, commands } = made;
    drop(rows); // let go by name: a short proof
    commands
}

// The rows of a declaration with which itself nothing is wrong.
fn prepared(alloc: Global, line: &[u8]) -> Result<Vec<Declared>, DeclareError>
    ensures ok { IfOk result (λ rows. Prepares line.now (seen_all rows.items)) }
    ensures err { IfErr result (λ e. (draws : Sequence (Sequence ℕ)) (now limit : ℕ) → IsRefusedAt e (outcome line.now now limit draws) 0) }
{
    let declaration = match declaration_of(alloc, line) {
        Ok(declaration) => declaration,
        Err(e) => return Err(e),
    };
    if let Err(e) = judge(alloc, &declaration) {
        return Err(e);
    }
    match rows_of(alloc, declaration) {
        Ok(rows) => Ok(rows),
        Err(NoMemory) => Err(DeclareError::NoMemory),
    }
}

// The declaration's own members break no rule.
#[tactic(auto, using(crate::proofs::ProgressLemmas::none_told))]
fn judge(alloc: Global, declaration: &Map<String, Value>) -> Result<(), DeclareError>
    ensures valid { OnOk result (own_violations (members_view declaration.now.entries) ≡ []) }
    ensures violation { IfErr result (λ e. TellsViolations e (own_violations (members_view declaration.now.entries))) }
{
    let violations = own_violations(alloc, declaration)?;
    if violations.is_empty() {
        return Ok(());
    }
    let broken = violations.into_list(alloc)?;
    Err(DeclareError::Refused(violation_response(alloc, broken.as_slice())?))
}

// The members of the object on a line.
#[tactic(auto, unfolding(crate::specs::Outcome::unread))]
fn declaration_of(alloc: Global, line: &[u8]) -> Result<Map<String, Value>, DeclareError>
    ensures ok { IfOk result (λ members. declaration_of line.now ≡ Some (members_view members.entries)) }
    ensures err { IfErr result (λ e. IsUnread e (declaration_of line.now)) }
{
    match members_of(alloc, line)? {
        Some(members) => Ok(members),
        None => Err(DeclareError::Refused(message(alloc, 400, b"Cannot parse JSON body")?)),
    }
}

fn members_of(alloc: Global, line: &[u8]) -> Result<Option<Map<String, Value>>, NoMemory>
    ensures { IfOk result (λ found. option_map (λ members. members_view members.entries) found ≡ declaration_of line.now) }
{
    if line.is_empty() {
        return Ok(Some(Map::new(alloc)));
    }
    match json_of(alloc, line)? {
        Some(value) => Ok(object_of(value)),
        None => Ok(None),
    }
}

fn object_of(value: Value) -> Option<Map<String, Value>>
    ensures { option_map (λ members. members_view members.entries) result ≡ as_object (view value) }
{
    let Value::Object(members) = value else {
        return None;
    };
    Some(members)
}

fn json_of(alloc: Global, line: &[u8]) -> Result<Option<Value>, NoMemory>
    ensures { IfOk result (λ found. option_map view found ≡ json_of line.now) }
{
    match Value::from_slice(alloc, line) {
        Ok(value) => Ok(Some(value)),
        Err(e) => {
            if e.is_memory() {
                Err(NoMemory)
            } else {
                Ok(None)
            }
        }
    }
}
