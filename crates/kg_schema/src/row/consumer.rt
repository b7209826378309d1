//! The consumers that bodies make, and their credentials.

ghost use Rattle.std.specs.Prelude.{◌≡◌, OnOk, fold};
ghost use Rattle.serde_json.specs.View.{view};
ghost use Rattle.kg_row_types.specs.StoredPassword.{stored_password};
ghost use Rattle.kg_row_making.specs.Bases.{base_of};
ghost use Rattle.kg_schema.specs.Between.{acl_violations, basic_violations, consumer_violations, differ, key_violations, owner_violations, same_number};
ghost use Rattle.kg_schema.specs.Finished.{acl_over, basic_over, consumer_over, key_over};
ghost use Rattle.kg_field_rules.specs.Rules.{tell};

use crate::row::tell::tell_if;
use kg_bodies::by_table::text_in;
use kg_field_rules::rule::Rule;
use kg_field_rules::violations::Violations;
use kg_field_tables::table::Table;
use kg_password::hash_of;
use kg_row_making::base::{Base, Links};
use kg_row_making::set::{set, set_option};
use kg_row_types::consumer::{AclRow, BasicCred, Consumer, KeyCred};
use kg_row_types::id::Id;
use kg_text::NoMemory;
use serde_json::Value;
use std::alloc::Global;

/// Sets in a consumer what the body sets.
pub fn set_consumer(alloc: Global, body: &Value, row: &mut Consumer) -> Result<(), NoMemory>
    ensures { OnOk result (row.new ≡ consumer_over (view body.now) row.old) }
{
    set_option(
        &mut row.username,
        text_in(alloc, Table::Consumer, "username", body)?,
    );
    set_option(
        &mut row.custom_id,
        text_in(alloc, Table::Consumer, "custom_id", body)?,
    );
    Ok(())
}

/// Tells the rules between the fields of a consumer.
pub fn tell_consumer(
    alloc: Global,
    violations: &mut Violations,
    consumer: &Consumer,
) -> Result<(), NoMemory>
    ensures { OnOk result (violations.new ≡ fold tell violations.old (consumer_violations consumer.now)) }
{
    let unknown = consumer.username.is_none() && consumer.custom_id.is_none();
    tell_if(alloc, violations, unknown, "username", Rule::Required)
}

// Tells that no consumer is named, or another than the old row has.
fn tell_owner(
    alloc: Global,
    violations: &mut Violations,
    links: &Links,
    old: Option<Id>,
) -> Result<(), NoMemory>
    ensures { OnOk result (violations.new ≡ fold tell violations.old (owner_violations links.now old)) }
{
    let missing = links.consumer.is_none() && old.is_none();
    tell_if(alloc, violations, missing, "consumer", Rule::Required)?;
    tell_if(
        alloc,
        violations,
        is_other(links.consumer, old),
        "consumer",
        Rule::Fixed,
    )
}

fn is_other(link: Option<Id>, old: Option<Id>) -> bool
    ensures { result ≡ differ same_number link old }
{
    match (link, old) {
        (Some(link), Some(old)) => link != old,
        _ => false,
    }
}

/// Sets in a credential what the body sets, and the consumer that it names.
pub fn set_key(
    alloc: Global,
    body: &Value,
    links: &Links,
    row: &mut KeyCred,
) -> Result<(), NoMemory>
    ensures { OnOk result (row.new ≡ key_over (view body.now) links.now row.old) }
{
    set(&mut row.consumer, links.consumer);
    set(&mut row.key, text_in(alloc, Table::KeyCred, "key", body)?);
    Ok(())
}

/// Tells the rules between the fields of a credential with a key.
pub fn tell_key(
    alloc: Global,
    violations: &mut Violations,
    base: &Base<'_>,
    links: &Links,
    credential: &KeyCred,
) -> Result<(), NoMemory>
    ensures { OnOk result (violations.new ≡ fold tell violations.old (key_violations (base_of base.now) links.now credential.now)) }
{
    tell_owner(alloc, violations, links, base.key_owner())?;
    tell_if(
        alloc,
        violations,
        credential.key.as_bytes().is_empty(),
        "key",
        Rule::Required,
    )
}

/// Sets in a credential what the body sets, and the consumer that it names. Of a password only the hash
/// is stored.
pub fn set_basic(
    alloc: Global,
    body: &Value,
    links: &Links,
    row: &mut BasicCred,
) -> Result<(), NoMemory>
    ensures { OnOk result (row.new ≡ basic_over (view body.now) links.now row.old) }
{
    set(&mut row.consumer, links.consumer);
    set(
        &mut row.username,
        text_in(alloc, Table::BasicCred, "username", body)?,
    );
    match text_in(alloc, Table::BasicCred, "password", body)? {
        Some(password) => row.hash = hash_of(alloc, row.consumer, password.as_bytes())?,
        None => {}
    }
    Ok(())
}

/// Tells the rules between the fields of a credential with a password.
pub fn tell_basic(
    alloc: Global,
    violations: &mut Violations,
    base: &Base<'_>,
    links: &Links,
    credential: &BasicCred,
) -> Result<(), NoMemory>
    ensures { OnOk result (violations.new ≡ fold tell violations.old (basic_violations (base_of base.now) links.now credential.now)) }
{
    tell_owner(alloc, violations, links, base.basic_owner())?;
    tell_if(
        alloc,
        violations,
        credential.username.as_bytes().is_empty(),
        "username",
        Rule::Required,
    )?;
    tell_if(
        alloc,
        violations,
        credential.hash.as_bytes().is_empty(),
        "password",
        Rule::Required,
    )
}

/// Sets in a membership what the body sets, and the consumer that it names.
pub fn set_acl(alloc: Global, body: &Value, links: &Links, row: &mut AclRow) -> Result<(), NoMemory>
    ensures { OnOk result (row.new ≡ acl_over (view body.now) links.now row.old) }
{
    set(&mut row.consumer, links.consumer);
    set(&mut row.group, text_in(alloc, Table::Acl, "group", body)?);
    Ok(())
}

/// Tells the rules between the fields of a membership.
pub fn tell_acl(
    alloc: Global,
    violations: &mut Violations,
    base: &Base<'_>,
    links: &Links,
    membership: &AclRow,
) -> Result<(), NoMemory>
    ensures { OnOk result (violations.new ≡ fold tell violations.old (acl_violations (base_of base.now) links.now membership.now)) }
{
    tell_owner(alloc, violations, links, base.acl_owner())?;
    tell_if(
        alloc,
        violations,
        membership.group.as_bytes().is_empty(),
        "group",
        Rule::Required,
    )
}
