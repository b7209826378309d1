//! Bodies that break no rule of a field.

ghost use Rattle.std.specs.Prelude.{◌≡◌, [], IfErr, IfOk, OnOk, codes};
ghost use Rattle.serde_json.specs.View.{view};
ghost use Rattle.kg_field_tables.specs.BrokenRules.{field_violations};
ghost use Rattle.kg_bodies.specs.Violations.{Tells};
ghost use Rattle.kg_bodies.specs.Settings.{id_at, reference_at};
ghost use Rattle.kg_field_tables.specs.declared.reference.Mention.TheVariants as mention;
ghost use Rattle.kg_bodies.specs.declared.form.FormError.TheVariants.{NoMemory as OutOfMemory};

use crate::fields::field_violations;
use crate::settings::{id_at, reference_at};
use kg_field_rules::violations::Broken;
use kg_field_tables::reference::{Mention, Reference};
use kg_row_types::entity::Kind;
use kg_row_types::id::Id;
use kg_text::{List, NoMemory};
use serde_json::Value;
use std::alloc::{AllocError, AllocFailed, Global};

/// A body of a kind that breaks no rule of a field. What it sets, field by field, is said by
/// `specs/Settings.antt`.
#[derive(Drop)]
pub struct Form {
    kind: Kind,
    body: Value,
    ghost valid: { field_violations kind (view body) ≡ [] },
}

/// Why a body is refused.
#[derive(Drop)]
pub enum FormError {
    /// The rules that it breaks, in byte order of their paths.
    Violation(List<Broken>),
    /// There was no memory, or a pattern among its paths is too large to be compiled.
    NoMemory,
}

/// Judges each field of a body by itself, and keeps a body that breaks no rule.
///
/// What isn't an object has no fields. Of a plugin's config the fields are judged where the body
/// names the plugin.
#[tactic(auto, using(kg_field_rules::proofs::RuleLemmas::in_order_none))]
pub fn read_form(alloc: Global, kind: Kind, body: &Value) -> Result<Form, FormError>
    ensures kind { IfOk result (λ form. form.kind ≡ kind) }
    ensures body { IfOk result (λ form. view form.body ≡ view body.now) }
    ensures valid { OnOk result (field_violations kind (view body.now) ≡ []) }
    ensures violation { IfErr result (λ e. Tells e (field_violations kind (view body.now))) }
{
    let violations = field_violations(alloc, kind, body)?;
    if !violations.is_empty() {
        return Err(FormError::Violation(violations.into_list(alloc)?));
    }
    let body = body.clone()?;
    Ok(Form { kind, body })
}

impl Form {
    /// The kind of row that the body is for.
    pub fn kind(&self) -> Kind
        ensures { result ≡ self.now.kind }
    {
        self.kind
    }

    /// The body, as it was read. None of its fields breaks a rule.
    pub fn body(&self) -> &Value
        ensures body { result.now ≡ self.now.body }
        ensures valid { field_violations self.now.kind (view result.now) ≡ [] }
    {
        &self.body
    }

    /// The id that the body sets.
    pub fn id(&self) -> Option<Id>
        ensures { result ≡ id_at (view self.now.body) }
    {
        id_at(&self.body)
    }

    /// The service that the body names.
    pub fn service(&self, alloc: Global) -> Result<Option<Reference>, NoMemory>
        ensures { IfOk result (λ found. found ≡ reference_at mention.Name (codes "service") (view self.now.body)) }
    {
        reference_at(alloc, Mention::Name, "service", &self.body)
    }

    /// The route that the body names.
    pub fn route(&self, alloc: Global) -> Result<Option<Reference>, NoMemory>
        ensures { IfOk result (λ found. found ≡ reference_at mention.Name (codes "route") (view self.now.body)) }
    {
        reference_at(alloc, Mention::Name, "route", &self.body)
    }

    /// The consumer that the body names.
    pub fn consumer(&self, alloc: Global) -> Result<Option<Reference>, NoMemory>
        ensures { IfOk result (λ found. found ≡ reference_at mention.Username (codes "consumer") (view self.now.body)) }
    {
        reference_at(alloc, Mention::Username, "consumer", &self.body)
    }
}

impl From<NoMemory> for FormError {
    ghost from_gives = { λ _ e. e ≡ OutOfMemory };

    fn from(_: NoMemory) -> FormError {
        FormError::NoMemory
    }
}

impl From<AllocError> for FormError {
    ghost from_gives = { λ _ e. e ≡ OutOfMemory };

    fn from(_: AllocError) -> FormError {
        FormError::NoMemory
    }
}

impl<T: Drop> From<AllocFailed<T>> for FormError {
    ghost from_gives = { λ _ e. e ≡ OutOfMemory };

    fn from(_: AllocFailed<T>) -> FormError {
        FormError::NoMemory
    }
}
