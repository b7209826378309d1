//! The paths of rows.

ghost use Rattle.std.specs.Prelude.{◌≡◌, IsTrue};
ghost use Rattle.kg_rows.specs.Decision.{CanStandUnder, nests};

use case_lines::split;
use kg_entities::{Id, Kind};
use kg_rows::{Parent, Select};
use kg_text::{NoMemory, Text};
use std::alloc::Global;

/// Which rows a path names.
#[derive(Drop)]
pub struct Target {
    pub kind: Kind,
    pub parent: Option<Parent>,
    pub select: Option<Select>,
}

/// The rows that a path names.
pub fn target_of(alloc: Global, path: &str) -> Result<Option<Target>, NoMemory> {
    let (first, rest) = split(path, "/");
    let (word, rest) = split(rest, "/");
    let (lower, last) = split(rest, "/");
    if lower.is_empty() {
        return plain_target(alloc, first, word);
    }
    nested_target(alloc, first, word, lower, last)
}

// All rows of a kind, or one of them.
fn plain_target(alloc: Global, name: &str, word: &str) -> Result<Option<Target>, NoMemory> {
    match kind_named(name) {
        Some(kind) => Ok(Some(Target {
            kind,
            parent: None,
            select: some_selected(alloc, word)?,
        })),
        None => Ok(None),
    }
}

// The same under a row.
fn nested_target(
    alloc: Global,
    upper: &str,
    word: &str,
    lower: &str,
    last: &str,
) -> Result<Option<Target>, NoMemory> {
    match (kind_named(upper), kind_named(lower)) {
        (Some(above), Some(kind)) => {
            let select = selected(alloc, word)?;
            let parent = Some(Parent {
                kind: above,
                select,
            });
            target_under(alloc, kind, parent, last)
        }
        _ => Ok(None),
    }
}

fn target_under(
    alloc: Global,
    kind: Kind,
    parent: Option<Parent>,
    last: &str,
) -> Result<Option<Target>, NoMemory> {
    match some_selected(alloc, last) {
        Ok(select) => Ok(Some(Target {
            kind,
            parent,
            select,
        })),
        Err(NoMemory) => {
            drop(parent); // let go by name: a short proof
            Err(NoMemory)
        }
    }
}

fn some_selected(alloc: Global, word: &str) -> Result<Option<Select>, NoMemory> {
    if word.is_empty() {
        return Ok(None);
    }
    Ok(Some(selected(alloc, word)?))
}

// The row that a word names: by its id where it tells one.
fn selected(alloc: Global, word: &str) -> Result<Select, NoMemory> {
    match Id::parse(word.as_bytes()) {
        Some(id) => Ok(Select::Id(id)),
        None => Ok(Select::Word(Text::from_str(alloc, word)?)),
    }
}

// The kind of this name.
fn kind_named(name: &str) -> Option<Kind> {
    match name {
        "services" => Some(Kind::Service),
        "routes" => Some(Kind::Route),
        "consumers" => Some(Kind::Consumer),
        "key-auth" => Some(Kind::KeyCred),
        "basic-auth" => Some(Kind::BasicCred),
        "acls" => Some(Kind::Acl),
        "plugins" => Some(Kind::Plugin),
        _ => None,
    }
}

/// Can rows of the kind stand there?
pub fn can_stand_under(kind: Kind, parent: &Option<Parent>) -> bool
    ensures { IsTrue result → CanStandUnder kind parent.now }
{
    match parent {
        Some(above) => nests(above.kind, kind),
        None => true,
    }
}

fn nests(upper: Kind, lower: Kind) -> bool
    ensures { result ≡ nests upper lower }
{
    match upper {
        Kind::Service => match lower {
            Kind::Route | Kind::Plugin => true,
            _ => false,
        },
        Kind::Route => match lower {
            Kind::Plugin => true,
            _ => false,
        },
        Kind::Consumer => match lower {
            Kind::KeyCred | Kind::BasicCred | Kind::Acl | Kind::Plugin => true,
            _ => false,
        },
        _ => false,
    }
}
