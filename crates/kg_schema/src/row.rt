//! Rows out of bodies: what a body sets, over an old row or the defaults, and the rules between its
//! fields.

ghost use Rattle.std.specs.Prelude.{◌≡◌, [], IfOk, IfErr, OnOk, fold};
ghost use Rattle.std.specs.Option.{option_copied};
ghost use Rattle.std.specs.Str.{bytes_eq};
ghost use Rattle.serde_json.specs.View.{view};
ghost use Rattle.kg_row_making.specs.Bases.{base_of, given_word};
ghost use Rattle.kg_schema.specs.Between.{accepts_word, differ, takes_text, violations_between, id_violations, is_renamed, parent_text, row_violations, parent_violations, word_violations, word_field};
ghost use Rattle.kg_schema.specs.Finished.{row_over, with_set};
ghost use Rattle.kg_row_making.specs.RowsBefore.{row_before};
ghost use Rattle.kg_field_rules.specs.Rules.{tell};
ghost use Rattle.kg_bodies.specs.Violations.{Tells};
ghost use Rattle.kg_bodies.specs.TableSettings.{text_in};
ghost use Rattle.kg_schema.specs.ValidBases.{IsValidBase};
ghost use Rattle.kg_row_types.specs.Entities.{kind_of};
ghost use Rattle.kg_row_types.specs.ValidRows.{IsValidRow};

mod consumer;
mod member;
mod plugin;
mod read_back;
mod route;
mod service;
mod tell;
mod valid;

use crate::row::consumer::{
    set_acl, set_basic, set_consumer, set_key, tell_acl, tell_basic, tell_consumer, tell_key,
};
use crate::row::plugin::{set_plugin, tell_plugin};
pub use crate::row::read_back::shown_rows_are_read_back;
use crate::row::route::{set_route, tell_route};
use crate::row::service::{set_service, tell_service};
use crate::row::tell::tell_if;
pub use crate::row::valid::{base_has_id, finished_rows_are_valid, links_are_ids};
use kg_bodies::by_table::text_in;
use kg_bodies::fields::named_plugin;
use kg_bodies::form::{Form, FormError};
use kg_bodies::settings::id_at;
use kg_field_rules::rule::Rule;
use kg_field_rules::text_rule::text_rule;
use kg_field_rules::violations::Violations;
use kg_field_tables::shape::Shape;
use kg_field_tables::table::{Field, Table, field_of, table_of};
use kg_row_making::base::{Base, Links, ParentField};
use kg_row_making::before::row_before;
use kg_row_types::entity::{Entity, Kind};
use kg_text::{NoMemory, Text};
use serde_json::Value;
use std::alloc::Global;

/// Makes the row of a form: what its body sets, over the old row or over the defaults of its kind,
/// with the rows that it names. An old row has to be of the form's kind; another counts as none. The
/// row is valid, where an old row is and a word is one that the kind takes.
///
/// `Violation` has exactly the rules between fields that are broken, in byte order of their paths.
pub fn finish(
    alloc: Global,
    form: &Form,
    base: Base<'_>,
    links: &Links,
) -> Result<Entity, FormError>
    ensures row { IfOk result (λ row. row ≡ row_over form.now.kind (view form.now.body) (base_of base.entry) links.now) }
    ensures valid { OnOk result (violations_between form.now.kind (view form.now.body) (base_of base.entry) links.now None ≡ []) }
    ensures violation { IfErr result (λ e. Tells e (violations_between form.now.kind (view form.now.body) (base_of base.entry) links.now None)) }
    ensures valid_row { IsValidBase form.now.kind (base_of base.entry) → IfOk result IsValidRow }
{
    // each base is made again, since the contract speaks of the one that was handed in: a short proof
    match base {
        Base::New { id, now } => finish_under(alloc, form, &Base::New { id, now }, links, None),
        Base::Again {
            id,
            created_at,
            now,
        } => {
            let base = Base::Again {
                id,
                created_at,
                now,
            };
            finish_under(alloc, form, &base, links, None)
        }
        Base::Word { id, word, now } => {
            finish_under(alloc, form, &Base::Word { id, word, now }, links, None)
        }
        Base::Old { row, now } => finish_under(alloc, form, &Base::Old { row, now }, links, None),
    }
}

/// As [`finish`], for a row that stands under a parent: `contradicted` is the field of its parent, where
/// the body names another one there, which breaks `fixed`.
pub fn finish_under(
    alloc: Global,
    form: &Form,
    base: &Base<'_>,
    links: &Links,
    contradicted: Option<ParentField>,
) -> Result<Entity, FormError>
    ensures row { IfOk result (λ row. row ≡ row_over form.now.kind (view form.now.body) (base_of base.now) links.now) }
    ensures valid { OnOk result (violations_between form.now.kind (view form.now.body) (base_of base.now) links.now contradicted ≡ []) }
    ensures violation { IfErr result (λ e. Tells e (violations_between form.now.kind (view form.now.body) (base_of base.now) links.now contradicted)) }
    ensures valid_row { IsValidBase form.now.kind (base_of base.now) → IfOk result IsValidRow }
{
    let mut row = row_before(alloc, form.kind(), form.body(), base)?;
    match finish_row(alloc, form, base, links, contradicted, &mut row) {
        Ok(()) => Ok(row),
        Err(error) => {
            // let go by name: a short proof
            drop(row);
            Err(error)
        }
    }
}

// Sets in the row that stands before what the body sets, and judges it.
#[tactic(auto, unfolding(crate::specs::Finished::row_over))]
fn finish_row(
    alloc: Global,
    form: &Form,
    base: &Base<'_>,
    links: &Links,
    contradicted: Option<ParentField>,
    row: &mut Entity,
) -> Result<(), FormError>
    requires before { row.old ≡ row_before form.now.kind (view form.now.body) (base_of base.now) }
    requires kind { kind_of row.old ≡ form.now.kind }
    ensures row { OnOk result (row.new ≡ row_over form.now.kind (view form.now.body) (base_of base.now) links.now) }
    ensures valid { OnOk result (violations_between form.now.kind (view form.now.body) (base_of base.now) links.now contradicted ≡ []) }
    ensures violation { IfErr result (λ e. Tells e (violations_between form.now.kind (view form.now.body) (base_of base.now) links.now contradicted)) }
    ensures valid_row { IsValidBase form.now.kind (base_of base.now) → OnOk result (IsValidRow row.new) }
{
    set_row(alloc, form, links, row)?;
    judge_row(alloc, form, base, links, contradicted, row)
}

// The rules between the fields that the finished row breaks.
#[tactic(auto, using(kg_field_rules::proofs::RuleLemmas::in_order_none))]
fn judge_row(
    alloc: Global,
    form: &Form,
    base: &Base<'_>,
    links: &Links,
    contradicted: Option<ParentField>,
    row: &Entity,
) -> Result<(), FormError>
    requires { row.now ≡ row_over form.now.kind (view form.now.body) (base_of base.now) links.now }
    ensures valid { OnOk result (violations_between form.now.kind (view form.now.body) (base_of base.now) links.now contradicted ≡ []) }
    ensures violation { IfErr result (λ e. Tells e (violations_between form.now.kind (view form.now.body) (base_of base.now) links.now contradicted)) }
    ensures valid_row { IsValidBase form.now.kind (base_of base.now) → OnOk result (IsValidRow row.now) }
{
    // laws, called for the proof
    finished_rows_are_valid();
    base_has_id(base);
    links_are_ids(links);
    let violations = violations_between(alloc, form, base, links, contradicted, row)?;
    if violations.is_empty() {
        return Ok(());
    }
    Err(FormError::Violation(violations.into_list(alloc)?))
}

fn set_row(alloc: Global, form: &Form, links: &Links, row: &mut Entity) -> Result<(), NoMemory>
    requires { kind_of row.old ≡ form.now.kind }
    ensures { OnOk result (row.new ≡ with_set (view form.now.body) links.now row.old) }
{
    match row {
        Entity::Service(row) => set_service(alloc, form.body(), row),
        Entity::Route(row) => set_route(alloc, form.body(), links, row),
        Entity::Consumer(row) => set_consumer(alloc, form.body(), row),
        Entity::KeyCred(row) => set_key(alloc, form.body(), links, row),
        Entity::BasicCred(row) => set_basic(alloc, form.body(), links, row),
        Entity::Acl(row) => set_acl(alloc, form.body(), links, row),
        Entity::Plugin(row) => set_plugin(alloc, form.body(), links, row),
    }
}

#[tactic(auto, unfolding(crate::specs::Between::violations_between))]
fn violations_between(
    alloc: Global,
    form: &Form,
    base: &Base<'_>,
    links: &Links,
    contradicted: Option<ParentField>,
    row: &Entity,
) -> Result<Violations, NoMemory>
    requires { row.now ≡ row_over form.now.kind (view form.now.body) (base_of base.now) links.now }
    ensures { IfOk result (λ violations. violations ≡ fold tell [] (violations_between form.now.kind (view form.now.body) (base_of base.now) links.now contradicted)) }
{
    let mut violations = Violations::new(alloc);
    if is_renamed(form.kind(), form.body(), base) {
        tell_if(alloc, &mut violations, true, "name", Rule::Fixed)?;
    } else {
        tell_id(alloc, &mut violations, form.body(), base)?;
        tell_word(alloc, &mut violations, form.kind(), form.body(), base)?;
        tell_parent(alloc, &mut violations, contradicted)?;
        tell_row(alloc, &mut violations, form.body(), base, links, row)?;
    }
    Ok(violations)
}

// Does the body name another plugin than the old row has?
fn is_renamed(kind: Kind, body: &Value, base: &Base<'_>) -> bool
    ensures { result ≡ is_renamed kind (view body.now) (base_of base.now) }
{
    match kind {
        Kind::Plugin => match named_plugin(body) {
            Some(name) => match base.old_plugin() {
                Some(old) => !name.is_same(old),
                None => false,
            },
            None => false,
        },
        Kind::Service => false,
        Kind::Route => false,
        Kind::Consumer => false,
        Kind::KeyCred => false,
        Kind::BasicCred => false,
        Kind::Acl => false,
    }
}

// Tells an id that is another than the row's.
fn tell_id(
    alloc: Global,
    violations: &mut Violations,
    body: &Value,
    base: &Base<'_>,
) -> Result<(), NoMemory>
    ensures { OnOk result (violations.new ≡ fold tell violations.old (id_violations (view body.now) (base_of base.now))) }
{
    let other = match id_at(body) {
        Some(id) => match base.fixed_id() {
            Some(fixed) => id != fixed,
            None => false,
        },
        None => false,
    };
    tell_if(alloc, violations, other, "id", Rule::Fixed)
}

/// Whether a row of the kind can be made by this word: the name of a service or a route, the username of
/// a consumer, the key, username or group of a credential. A plugin has no word.
pub fn accepts_word(alloc: Global, kind: Kind, word: &Text) -> Result<bool, NoMemory>
    ensures { IfOk result (λ accepts. accepts ≡ accepts_word kind word.now) }
{
    match word_field(kind) {
        Some(field) => takes_text(alloc, field_of(table_of(kind, None), field), word),
        None => Ok(false),
    }
}

fn takes_text(alloc: Global, field: Field, text: &Text) -> Result<bool, NoMemory>
    ensures { IfOk result (λ takes. takes ≡ takes_text field text.now) }
{
    match field {
        Field::Judged(Shape::Text(spelled), _) => {
            Ok(text_rule(alloc, spelled, text.as_str())?.is_none())
        }
        _ => Ok(false),
    }
}

// Tells a word that is another than the one by which the row is made.
fn tell_word(
    alloc: Global,
    violations: &mut Violations,
    kind: Kind,
    body: &Value,
    base: &Base<'_>,
) -> Result<(), NoMemory>
    ensures { OnOk result (violations.new ≡ fold tell violations.old (word_violations kind (view body.now) (base_of base.now))) }
{
    match word_field(kind) {
        Some(field) => {
            let other = names_other(alloc, table_of(kind, None), field, body, base)?;
            tell_if(alloc, violations, other, field, Rule::Fixed)
        }
        None => Ok(()),
    }
}

fn names_other(
    alloc: Global,
    table: Table,
    field: &str,
    body: &Value,
    base: &Base<'_>,
) -> Result<bool, NoMemory>
    ensures { IfOk result (λ other. other ≡ differ bytes_eq (text_in table field.now (view body.now)) (given_word (base_of base.now))) }
{
    match text_in(alloc, table, field, body)? {
        Some(text) => match base.given_word() {
            Some(word) => Ok(text.as_str() != word.as_str()),
            None => Ok(false),
        },
        None => Ok(false),
    }
}

// The field that a word stands for: a plugin has none.
fn word_field(kind: Kind) -> Option<&'static str>
    ensures { option_copied result ≡ word_field kind }
{
    match kind {
        Kind::Service => Some("name"),
        Kind::Route => Some("name"),
        Kind::Consumer => Some("username"),
        Kind::KeyCred => Some("key"),
        Kind::BasicCred => Some("username"),
        Kind::Acl => Some("group"),
        Kind::Plugin => None,
    }
}

fn tell_parent(
    alloc: Global,
    violations: &mut Violations,
    contradicted: Option<ParentField>,
) -> Result<(), NoMemory>
    ensures { OnOk result (violations.new ≡ fold tell violations.old (parent_violations contradicted)) }
{
    match contradicted {
        Some(field) => tell_if(alloc, violations, true, parent_text(field), Rule::Fixed),
        None => Ok(()),
    }
}

fn parent_text(field: ParentField) -> &'static str
    ensures { result.now ≡ parent_text field }
{
    match field {
        ParentField::Service => "service",
        ParentField::Route => "route",
        ParentField::Consumer => "consumer",
    }
}

// Tells the rules between the fields of the finished row.
fn tell_row(
    alloc: Global,
    violations: &mut Violations,
    body: &Value,
    base: &Base<'_>,
    links: &Links,
    row: &Entity,
) -> Result<(), NoMemory>
    ensures { OnOk result (violations.new ≡ fold tell violations.old (row_violations (view body.now) (base_of base.now) links.now row.now)) }
{
    match row {
        Entity::Service(row) => tell_service(alloc, violations, body, row),
        Entity::Route(row) => tell_route(alloc, violations, base, links, row),
        Entity::Consumer(row) => tell_consumer(alloc, violations, row),
        Entity::KeyCred(row) => tell_key(alloc, violations, base, links, row),
        Entity::BasicCred(row) => tell_basic(alloc, violations, base, links, row),
        Entity::Acl(row) => tell_acl(alloc, violations, base, links, row),
        Entity::Plugin(row) => tell_plugin(alloc, violations, body, base, row),
    }
}
