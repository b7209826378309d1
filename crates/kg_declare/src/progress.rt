//! The rows of a declaration, inserted one after another.

ghost use Rattle.std.specs.Prelude.{◌≡◌, [], ◌∷◌, ◌++◌, ℕ, ◌<◌, All, IfErr, IfOk, OnOk, fold, length, map, option_and_then, slice_get};
ghost use Rattle.serde_json.specs.Data.{object};
ghost use Rattle.serde_json.specs.View.{members_view, view};
ghost use Rattle.kg_rows.specs.Decision.{IsProper, decision};
ghost use Rattle.kg_row_values.specs.Rows.{changed};
ghost use Rattle.kg_field_rules.specs.Rules.{tell};
ghost use Rattle.kg_bodies.specs.Settings.{id_at};
ghost use Rattle.kg_declare.specs.Inserting.{Identifies, InsertsNewRow, IsConsistent, IsDecided, IsInsertion, Leaves, Refuses, Stands, Steps, StepsFromStart, TellsRefusal, TellsViolations, accepted_at, decided, start, with_row, with_rows};
ghost use Rattle.kg_declare.specs.Outcome.{body_violations, inserted_id, parent_at, parent_of, row_violations, wrong_violations};
ghost use Rattle.kg_declared_rows.specs.SeenRows.{seen, seen_all};

use crate::error::DeclareError;
use crate::refusal::{refusal_response, violation_response};
use kg_declared_rows::{Above, Declared};
use kg_entities::{Id, Kind, Rows};
use kg_outside::Ids;
use kg_rows::{
    Command, DecideError, Draft, Parent, Select, allowed_commands_make_valid_rows, decide,
};
use kg_schema::{Form, FormError, Rule, Violations, field_violations, read_form};
use kg_text::{List, NoMemory, Text};
use serde_json::Value;
use std::alloc::Global;

/// The rows so far, and the commands that made them.
#[derive(Drop)]
pub struct Made {
    pub rows: Rows,
    pub commands: List<Command>,
}

impl Made {
    /// No rows. It takes no memory.
    pub fn new(alloc: Global) -> Made
        ensures start { accepted_at result 0 ≡ start }
        ensures consistent { (limit : ℕ) → IsConsistent limit result }
    {
        Made {
            rows: Rows::new(alloc),
            commands: List::new(alloc),
        }
    }
}

/// Inserts rows one after another, at a time in milliseconds, up to the first that is refused.
pub fn insert_rows<I: Ids>(
    alloc: Global,
    rows: Vec<Declared>,
    made: &mut Made,
    ids: &mut I,
    now: u64,
    limit: u32,
) -> Result<(), DeclareError>
    requires { All Stands (seen_all rows.items) }
    ensures steps { StepsFromStart I.draws ids.old ids.new result made.old made.new (λ draws. with_rows draws now limit (seen_all rows.items)) }
    ensures consistent { IsConsistent limit made.old → OnOk result (IsConsistent limit made.new) }
{
    for row in rows {
        // no `?` beside what is owned: a short proof
        match insert_row(alloc, row, made, ids, now, limit) {
            Ok(()) => {}
            Err(e) => return Err(e),
        }
    }
    Ok(())
}

fn insert_row<I: Ids>(
    alloc: Global,
    row: Declared,
    made: &mut Made,
    ids: &mut I,
    now: u64,
    limit: u32,
) -> Result<(), DeclareError>
    requires { Stands (seen row) }
    ensures steps { Steps I.draws ids.old ids.new result made.old made.new (λ draws. with_row draws now limit (seen row)) }
    ensures consistent { IsConsistent limit made.old → OnOk result (IsConsistent limit made.new) }
{
    let kind = row.kind;
    let parent = parent_of(&made.commands, row.parent);
    match form_of(alloc, row) {
        Ok(form) => {
            let id = id_of(&form, ids);
            let draft = Draft::Insert {
                kind,
                parent,
                form,
                id,
                now,
            };
            let inserted = insert(alloc, &draft, made, limit);
            drop(draft); // let go by name: a short proof
            inserted
        }
        Err(e) => Err(e),
    }
}

// What the draft's command makes of the rows.
fn insert(alloc: Global, draft: &Draft, made: &mut Made, limit: u32) -> Result<(), DeclareError>
    requires insertion { IsInsertion draft.now }
    requires proper { IsProper draft.now }
    ensures leaves { (before drawn : ℕ) → Leaves result (decided (accepted_at made.old before) drawn (decision made.old.rows draft.now limit)) made.new drawn }
    ensures consistent { IsConsistent limit made.old → OnOk result (IsConsistent limit made.new) }
{
    allowed_commands_make_valid_rows(); // a law, called for the proof
    match decided(alloc, &made.rows, draft, limit) {
        Ok(command) => {
            add(alloc, made, command)?;
            Ok(())
        }
        Err(e) => Err(e),
    }
}

// The draft's command.
fn decided(alloc: Global, rows: &Rows, draft: &Draft, limit: u32) -> Result<Command, DeclareError>
    requires insertion { IsInsertion draft.now }
    requires proper { IsProper draft.now }
    ensures ok { IfOk result (λ command. IsDecided limit rows.now draft.now command) }
    ensures err { IfErr result (λ e. Refuses e (decision rows.now draft.now limit)) }
{
    match decide(alloc, rows, draft, limit) {
        Ok(command) => Ok(command),
        Err(e) => Err(refused(alloc, e)),
    }
}

fn refused(alloc: Global, e: DecideError) -> DeclareError
    ensures { TellsRefusal result e }
{
    match e {
        DecideError::Refused(refusal) => {
            let response = refusal_response(alloc, &refusal);
            drop(refusal); // let go by name: a short proof
            match response {
                Ok(response) => DeclareError::Refused(response),
                Err(NoMemory) => DeclareError::NoMemory,
            }
        }
        DecideError::NoMemory => DeclareError::NoMemory,
    }
}

// Puts the new row at the end of its kind, and keeps the command.
fn add(alloc: Global, made: &mut Made, command: Command) -> Result<(), NoMemory>
    requires { InsertsNewRow made.old.rows command }
    ensures rows { OnOk result (made.new.rows ≡ changed command made.old.rows) }
    ensures commands { OnOk result (made.new.commands ≡ made.old.commands ++ command ∷ []) }
{
    match add_row(alloc, &mut made.rows, &command) {
        Ok(()) => made.commands.push(command),
        Err(e) => {
            drop(command); // let go by name: a short proof
            Err(e)
        }
    }
}

fn add_row(alloc: Global, rows: &mut Rows, command: &Command) -> Result<(), NoMemory>
    requires { InsertsNewRow rows.old command.now }
    ensures { OnOk result (rows.new ≡ changed command.now rows.old) }
{
    match command {
        Command::Insert(row) => rows.insert(alloc, row),
        Command::Update(_) => unreachable!(),
        Command::Delete { .. } => unreachable!(),
    }
}

// The id that a body sets, and else one that is drawn.
fn id_of<I: Ids>(form: &Form, ids: &mut I) -> Id
    ensures { Identifies I.draws ids.old ids.new (id_at (view form.now.body)) result }
{
    match form.id() {
        Some(id) => id,
        None => Id::from_drawn(ids.draw()),
    }
}

// The row's body, if it breaks no rule of a field.
#[tactic(auto, unfolding(crate::specs::Outcome::row_violations))]
fn form_of(alloc: Global, row: Declared) -> Result<Form, DeclareError>
    ensures kind { IfOk result (λ form. form.kind ≡ row.kind) }
    ensures body { IfOk result (λ form. view form.body ≡ object (members_view row.members.entries)) }
    ensures valid { OnOk result (row_violations (seen row) ≡ []) }
    ensures violation { IfErr result (λ e. TellsViolations e (row_violations (seen row))) }
{
    let Declared {
        kind,
        members,
        wrong,
        ..
    } = row;
    let body = Value::from(members);
    let form = judged(alloc, kind, &body, wrong.as_slice());
    // let go by name: a short proof
    drop(body);
    drop(wrong);
    form
}

#[tactic(auto, using(crate::proofs::ProgressLemmas::no_wrong))]
fn judged(alloc: Global, kind: Kind, body: &Value, wrong: &[&str]) -> Result<Form, DeclareError>
    ensures kind { IfOk result (λ form. form.kind ≡ kind) }
    ensures body { IfOk result (λ form. view form.body ≡ view body.now) }
    ensures valid { OnOk result (body_violations kind (view body.now) (map (λ name. name.now) wrong.now) ≡ []) }
    ensures violation { IfErr result (λ e. TellsViolations e (body_violations kind (view body.now) (map (λ name. name.now) wrong.now))) }
{
    if !wrong.is_empty() {
        return Err(told(alloc, kind, body, wrong)?);
    }
    match read_form(alloc, kind, body) {
        Ok(form) => Ok(form),
        Err(FormError::Violation(broken)) => Err(DeclareError::Refused(violation_response(
            alloc,
            broken.as_slice(),
        )?)),
        Err(FormError::NoMemory) => Err(DeclareError::NoMemory),
    }
}

// The refusal of a body some of whose nested lists aren't lists of objects.
fn told(alloc: Global, kind: Kind, body: &Value, wrong: &[&str]) -> Result<DeclareError, NoMemory>
    requires { 0 < length wrong.now }
    ensures { IfOk result (λ e. TellsViolations e (body_violations kind (view body.now) (map (λ name. name.now) wrong.now))) }
{
    let mut violations = field_violations(alloc, kind, body)?;
    tell_wrong(alloc, wrong, &mut violations)?;
    let broken = violations.into_list(alloc)?;
    Ok(DeclareError::Refused(violation_response(alloc, broken.as_slice())?))
}

fn tell_wrong(alloc: Global, wrong: &[&str], violations: &mut Violations) -> Result<(), NoMemory>
    ensures { OnOk result (violations.new ≡ fold tell violations.old (wrong_violations (map (λ name. name.now) wrong.now))) }
{
    for name in wrong {
        violations.tell(Text::from_str(alloc, name)?, Rule::WrongType)?;
    }
    Ok(())
}

// The row above, as the parent of another.
fn parent_of(commands: &List<Command>, above: Option<Above>) -> Option<Parent>
    ensures { result ≡ parent_of commands.now above }
{
    match above {
        Some(above) => parent_at(commands, above),
        None => None,
    }
}

fn parent_at(commands: &List<Command>, above: Above) -> Option<Parent>
    ensures { result ≡ parent_at commands.now above }
{
    match id_of_number(commands, above.number) {
        Some(id) => Some(Parent {
            kind: above.kind,
            select: Select::Id(id),
        }),
        None => None,
    }
}

// The id of the row that was inserted with this number.
fn id_of_number(commands: &List<Command>, number: usize) -> Option<Id>
    ensures { result ≡ option_and_then inserted_id (slice_get commands.now number) }
{
    match commands.get(number) {
        Some(command) => inserted_id(command),
        None => None,
    }
}

fn inserted_id(command: &Command) -> Option<Id>
    ensures { result ≡ inserted_id command.now }
{
    match command {
        Command::Insert(row) => Some(row.id()),
        Command::Update(_) => None,
        Command::Delete { .. } => None,
    }
}
