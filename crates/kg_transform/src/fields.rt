//! Edits of header fields.

ghost use Rattle.std.specs.Prelude.{◌≡◌, IfOk, IsTrue, OnOk};
ghost use Rattle.std.specs.Str.{str_to_ascii_lowercase};
ghost use Rattle.kg_row_types.specs.ConfigTexts.{edit_name, edit_value, is_header_edit, is_header_rename};
ghost use Rattle.kg_row_types.specs.TextForms.{is_list_of};
ghost use Rattle.kg_message.specs.HeaderLists.{added};
ghost use Rattle.kg_transform.specs.Edits.{edit_fields, edited_field, fields_after, header_form};
ghost use Rattle.kg_transform.specs.declared.step.Step.TheVariants.{Add as IsAdd, Rename as IsRename, Replace as IsReplace};

use crate::member::{name_of, value_of};
use crate::step::Step;
use kg_context::add_field;
use kg_message::Headers;
use kg_text::{Bytes, Name, NoMemory, Text};
use std::alloc::Global;

/// Runs a step over the fields: each member of its list, from the first on.
pub fn edit_all(
    alloc: Global,
    step: Step,
    members: &[Text],
    headers: &mut Headers,
) -> Result<(), NoMemory>
    requires { IsTrue (is_list_of (header_form step) members.now) }
    ensures { OnOk result (headers.new ≡ fields_after step members.now headers.old) }
{
    for member in members {
        edit(alloc, step, member, headers)?;
    }
    Ok(())
}

fn edit(alloc: Global, step: Step, member: &Text, headers: &mut Headers) -> Result<(), NoMemory>
    requires { IsTrue (header_form step member.now) }
    ensures { OnOk result (headers.new ≡ edit_fields step member.now headers.old) }
{
    match step {
        Step::Remove => {
            headers.remove(name_of(member).as_bytes());
            Ok(())
        }
        Step::Rename => rename(alloc, member, headers),
        Step::Replace => replace(alloc, member, headers),
        Step::Add => add(alloc, member, headers),
        Step::Append => append(alloc, member, headers),
    }
}

fn rename(alloc: Global, member: &Text, headers: &mut Headers) -> Result<(), NoMemory>
    requires { IsTrue (is_header_rename member.now) }
    ensures { OnOk result (headers.new ≡ edit_fields IsRename member.now headers.old) }
{
    let name = Name::of_token(alloc, value_of(member).as_bytes())?;
    headers.rename(alloc, name_of(member).as_bytes(), &name)?;
    Ok(())
}

fn replace(alloc: Global, member: &Text, headers: &mut Headers) -> Result<(), NoMemory>
    ensures { OnOk result (headers.new ≡ edit_fields IsReplace member.now headers.old) }
{
    let value = Bytes::from_slice(alloc, value_of(member).as_bytes())?;
    headers.replace(name_of(member).as_bytes(), value);
    Ok(())
}

// Adds the field, where there is none of its name.
fn add(alloc: Global, member: &Text, headers: &mut Headers) -> Result<(), NoMemory>
    requires { IsTrue (is_header_edit member.now) }
    ensures { OnOk result (headers.new ≡ edit_fields IsAdd member.now headers.old) }
{
    if headers.has(name_of(member).as_bytes()) {
        Ok(())
    } else {
        append(alloc, member, headers)
    }
}

fn append(alloc: Global, member: &Text, headers: &mut Headers) -> Result<(), NoMemory>
    requires { IsTrue (is_header_edit member.now) }
    ensures { OnOk result (headers.new ≡ added (edited_field member.now) headers.old) }
{
    add_field(
        alloc,
        headers,
        name_of(member).as_bytes(),
        value_of(member).as_bytes(),
    )
}
