//! Lists of header fields (RFC 9110, section 5.3).

ghost use Rattle.std.specs.Prelude.{◌≡◌, ◌==◌, ◌≤◌, [], ◌∷◌, IfOk, OnOk, OnErr, length, slice_get, count_by, find, replicate};
ghost use Rattle.std.specs.List.{position_or_len, before_first};
ghost use Rattle.std.specs.Option.{option_copied};
ghost use Rattle.std.specs.Cmp.Lexicographic.{pointwise, lists_per};
ghost use Rattle.std.specs.Cmp.Rules.{comparing};
ghost use Rattle.std.proofs.Common.{rules};
ghost use Rattle.kg_text.specs.ListChanges.{one_changed};
ghost use Rattle.kg_message.specs.HeaderLists.{is_named, same_field, has, first_value, added, removed, replaced, with_one, renamed, content_type, type_part, media_type};
ghost use Rattle.kg_message.specs.CommaLists.{lists};

use crate::comma_list::{has_element, trim_blanks};
use crate::header::Header;
use kg_text::{Bytes, Name, NoMemory, TryClone};
use std::alloc::Global;
use std::marker::Model;

/// Header fields in their order. Contracts see the list of them. A name is given in any case.
#[derive(Debug, Drop)]
pub struct Headers {
    fields: Vec<Header>,
}

impl Model for Headers {
    ghost use Rattle.std.specs.Prelude.{List as Sequence};
    ghost use Rattle.kg_message.specs.declared.header.Header.{Header as Field};

    ghost Value = { Sequence Field };

    ghost view = { λ headers. headers.fields.items };
}

impl Headers {
    /// No fields. It takes no memory.
    pub fn new(alloc: Global) -> Headers
        ensures { result ≡ [] }
    {
        Headers {
            fields: Vec::new(alloc),
        }
    }

    /// No fields, with memory for so many.
    pub fn with_capacity(alloc: Global, count: usize) -> Result<Headers, NoMemory>
        ensures { IfOk result (λ headers. headers ≡ []) }
    {
        Ok(Headers {
            fields: Vec::with_capacity(alloc, count)?,
        })
    }

    /// One field, which tells the type of a body.
    pub fn content_type(alloc: Global, value: &[u8]) -> Result<Headers, NoMemory>
        ensures { IfOk result (λ headers. headers ≡ content_type value.now ∷ []) }
    {
        let mut headers = Headers::with_capacity(alloc, 1)?;
        headers.add(
            alloc,
            Name::of_token(alloc, b"content-type")?,
            Bytes::from_slice(alloc, value)?,
        )?;
        Ok(headers)
    }

    /// The fields in their order.
    pub fn as_slice(&self) -> &[Header]
        ensures { result.now ≡ self.now }
    {
        self.fields.as_slice()
    }

    /// The number of fields.
    pub fn len(&self) -> usize
        ensures { result ≡ length self.now }
    {
        self.fields.len()
    }

    /// The field at an index, counted from 0.
    pub fn at(&self, i: usize) -> Option<&Header>
        ensures { option_copied result ≡ slice_get self.now i }
    {
        self.fields.get(i)
    }

    /// How many fields have this name.
    pub fn count(&self, name: &[u8]) -> usize
        ensures { result ≡ count_by (is_named name.now) self.now }
    {
        self.fields
            .iter()
            .filter(|field| field.name.same(name))
            .count()
    }

    /// The value of the first field of this name.
    pub fn first(&self, name: &[u8]) -> Option<&[u8]>
        ensures { option_copied result ≡ first_value name.now self.now }
    {
        match self.find(name) {
            Some(field) => Some(field.value.as_slice()),
            None => None,
        }
    }

    fn find(&self, name: &[u8]) -> Option<&Header>
        ensures { option_copied result ≡ find (is_named name.now) self.now }
    {
        self.fields.iter().find(|field| field.name.same(name))
    }

    /// Does a field of this name list the element? The value of each is read as a comma list, and the
    /// element is compared without blanks at its ends and in any case.
    pub fn lists(&self, name: &[u8], element: &[u8]) -> bool
        ensures { result ≡ lists name.now element.now self.now }
    {
        self.fields.iter().any(|field| field.name.same(name)
            && has_element(element, field.value.as_slice()))
    }

    /// The type of a body: the value of the first Content-Type field up to a `;`, without blanks at its
    /// ends, in the case in which it came. Types are compared in any case.
    pub fn media_type(&self) -> Option<&[u8]>
        ensures { option_copied result ≡ media_type self.now }
    {
        match self.first(b"content-type") {
            Some(value) => Some(type_part(value)),
            None => None,
        }
    }

    /// Adds a field at the end.
    pub fn add(&mut self, alloc: Global, name: Name, value: Bytes) -> Result<(), NoMemory>
        ensures ok { OnOk result (self.new ≡ added (record { name = name; value = value }) self.old) }
        ensures err { OnErr result (self.new ≡ self.old) }
    {
        self.fields.push(Header { name, value })?;
        Ok(())
    }

    /// Makes this the one field of its name: it takes the place of the first one, or stands at the end
    /// where there is none.
    pub fn set(&mut self, alloc: Global, name: Name, value: Bytes) -> Result<(), NoMemory>
        ensures ok { OnOk result (self.new ≡ with_one (record { name = name; value = value }) self.old) }
        ensures err { OnErr result (self.new ≡ self.old) }
    {
        if self.has(name.bytes()) {
            self.replace(name.bytes(), value);
            Ok(())
        } else {
            self.add(alloc, name, value)
        }
    }

    /// Is there a field of this name?
    pub fn has(&self, name: &[u8]) -> bool
        ensures { result ≡ has name.now self.now }
    {
        self.fields.iter().any(|field| field.name.same(name))
    }

    /// Gives the first field of this name the value, and drops the others of the name. It tells whether
    /// there is one.
    pub fn replace(&mut self, name: &[u8], value: Bytes) -> bool
        ensures found { result ≡ has name.now self.old }
        ensures fields { self.new ≡ replaced name.now value self.old }
    {
        replace_value(&mut self.fields, name, value)
    }

    /// Drops the fields of this name, and tells how many there were.
    pub fn remove(&mut self, name: &[u8]) -> usize
        ensures count { result ≡ count_by (is_named name.now) self.old }
        ensures fields { self.new ≡ removed name.now self.old }
    {
        let count = self.count(name);
        drop_named(&mut self.fields, name);
        count
    }

    /// Gives each field of the old name the new one, in its place, and tells how many there were.
    pub fn rename(&mut self, alloc: Global, old: &[u8], new: &Name) -> Result<usize, NoMemory>
        ensures count { IfOk result (λ count. count ≡ count_by (is_named old.now) self.old) }
        ensures ok { OnOk result (self.new ≡ renamed old.now new.now self.old) }
        ensures err { OnErr result (self.new ≡ self.old) }
    {
        let count = self.count(old);
        rename_named(&mut self.fields, alloc, old, new, count)?;
        Ok(count)
    }
}

fn type_part(value: &[u8]) -> &[u8]
    ensures { result.now ≡ type_part value.now }
{
    trim_blanks(before_semicolon(value))
}

fn before_semicolon(value: &[u8]) -> &[u8]
    ensures { result.now ≡ before_first (λ b. b == 0x3B) value.now }
{
    &value[..len_before_semicolon(value)]
}

fn len_before_semicolon(value: &[u8]) -> usize
    ensures place { result ≡ position_or_len (λ b. b == 0x3B) value.now }
    ensures within { result ≤ length value.now }
{
    value.iter().take_while(|b| **b != b';').count()
}

fn drop_named(fields: &mut Vec<Header>, name: &[u8])
    ensures { fields.new.items ≡ removed name.now fields.old.items }
{
    fields.retain(|field| !field.name.same(name));
}

fn replace_value(fields: &mut Vec<Header>, name: &[u8], value: Bytes) -> bool
    ensures found { result ≡ has name.now fields.old.items }
    ensures fields { fields.new.items ≡ replaced name.now value fields.old.items }
{
    let first = len_before(fields, name);
    if first == fields.len() {
        return false;
    }
    drop_later(fields, name);
    fields[first].value = value;
    true
}

// How many fields stand before the first one of the name.
fn len_before(fields: &[Header], name: &[u8]) -> usize
    ensures place { result ≡ position_or_len (is_named name.now) fields.now }
    ensures within { result ≤ length fields.now }
{
    fields
        .iter()
        .take_while(|field| !field.name.same(name))
        .count()
}

// Keeps the first field of the name and drops the others of the name.
fn drop_later(fields: &mut Vec<Header>, name: &[u8])
    ensures { fields.new.items ≡ one_changed (is_named name.now) (λ field. field) fields.old.items }
{
    let mut found = false;
    fields.retain(move |field| {
        let named = field.name.same(name);
        let later = found && named;
        found = found || named;
        !later
    });
}

fn rename_named(
    fields: &mut Vec<Header>,
    alloc: Global,
    old: &[u8],
    new: &Name,
    count: usize,
) -> Result<(), NoMemory>
    requires { count ≡ count_by (is_named old.now) fields.old.items }
    ensures ok { OnOk result (fields.new.items ≡ renamed old.now new.now fields.old.items) }
    ensures err { OnErr result (fields.new.items ≡ fields.old.items) }
{
    let mut names = copies(alloc, new, count)?;
    let mut i = 0;
    while i < fields.len() {
        if fields[i].name.same(old) {
            let Some(name) = names.pop() else {
                unreachable!()
            };
            fields[i].name = name;
        }
        i += 1;
    }
    Ok(())
}

fn copies(alloc: Global, name: &Name, count: usize) -> Result<Vec<Name>, NoMemory>
    ensures { IfOk result (λ names. names.items ≡ replicate count name.now) }
{
    let mut names = Vec::with_capacity(alloc, count)?;
    let mut made = 0;
    while made < count {
        names.push(name.try_clone(alloc)?)?;
        made += 1;
    }
    Ok(names)
}

impl PartialEq for Headers {
    ghost eq = { pointwise same_field };

    ghost laws = { lists_per (Prim.search (comparing, rules)) };

    fn eq(&self, other: &Headers) -> bool {
        self.as_slice() == other.as_slice()
    }
}

impl TryClone for Headers {
    fn try_clone(&self, alloc: Global) -> Result<Headers, NoMemory> {
        let mut copy = Headers::with_capacity(alloc, self.len())?;
        for field in self.as_slice() {
            copy.add(
                alloc,
                field.name.try_clone(alloc)?,
                field.value.try_clone(alloc)?,
            )?;
        }
        Ok(copy)
    }
}
