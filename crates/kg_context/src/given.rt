//! The values that a request has been given.

ghost use Rattle.std.specs.Prelude.{◌≡◌, ◌++◌, ◌∷◌, [], None, IsTrue, OnErr, OnOk, find};
ghost use Rattle.std.specs.Arc.{arc_value};
ghost use Rattle.std.specs.Option.{option_copied};
ghost use Rattle.kg_row_types.specs.Values.{answers_key};
ghost use Rattle.kg_row_types.specs.declared.key.Key.TheVariants.{Cred};
ghost use Rattle.kg_context.specs.Given.{same_key, value_in};

use kg_row_types::key::Key;
use kg_row_types::value::Value;
use kg_text::{List, NoMemory};
use std::alloc::Global;
use std::marker::Model;
use std::sync::Arc;

/// A key with its value. Contracts see the value itself.
#[derive(Drop)]
struct Entry {
    key: Key,
    value: Arc<Value>,
}

impl Model for Entry {
    ghost use Rattle.std.specs.Arc.{arc_value};
    ghost use Rattle.kg_context.specs.Given.{Answer};

    ghost Value = { Answer };

    ghost view = { λ entry. record { key = entry.key; value = arc_value entry.value } };
}

/// The values that a request has been given, each once. Contracts see them with their keys, in the order in
/// which they came.
#[derive(Drop)]
pub struct Given {
    entries: List<Entry>,
}

impl Model for Given {
    ghost use Rattle.std.specs.Prelude.{List as Sequence};
    ghost use Rattle.kg_context.specs.Given.{Answer};

    ghost Value = { Sequence Answer };

    ghost view = { λ given. given.entries };
}

impl Given {
    /// No values. It takes no memory.
    pub fn new(alloc: Global) -> Given
        ensures { result ≡ [] }
    {
        Given {
            entries: List::new(alloc),
        }
    }

    /// The value of a key, where it has been given.
    pub fn get(&self, key: &Key) -> Option<&Value>
        ensures { option_copied result ≡ value_in self.now key.now }
    {
        match self.find(key) {
            Some(entry) => Some(&*entry.value),
            None => None,
        }
    }

    /// The value of the credential with this key, where it has been given.
    pub fn get_cred(&self, key: &str) -> Option<&Value>
        ensures { option_copied result ≡ value_in self.now (Cred key.now) }
    {
        match self.find_cred(key) {
            Some(entry) => Some(&*entry.value),
            None => None,
        }
    }

    fn find(&self, key: &Key) -> Option<&Entry>
        ensures { option_copied result ≡ find (λ answer. same_key answer.key key.now) self.now }
    {
        self.entries
            .as_slice()
            .iter()
            .find(|entry| is_same_key(&entry.key, key))
    }

    fn find_cred(&self, key: &str) -> Option<&Entry>
        ensures { option_copied result ≡ find (λ answer. same_key answer.key (Cred key.now)) self.now }
    {
        self.entries
            .as_slice()
            .iter()
            .find(|entry| is_cred(&entry.key, key))
    }

    /// Adds the value of a key that has none yet.
    pub fn add(&mut self, alloc: Global, key: Key, value: Arc<Value>) -> Result<(), NoMemory>
        requires new { value_in self.old key ≡ None }
        requires fits { IsTrue (answers_key key (arc_value value)) }
        ensures ok { OnOk result (self.new ≡ self.old ++ record { key = key; value = arc_value value } ∷ []) }
        ensures err { OnErr result (self.new ≡ self.old) }
    {
        self.entries.push(Entry { key, value })
    }
}

// Does this ask for the credential with that key?
fn is_cred(asked: &Key, key: &str) -> bool
    ensures { result ≡ same_key asked.now (Cred key.now) }
{
    match asked {
        Key::Cred(text) => text.as_bytes() == key.as_bytes(),
        _ => false,
    }
}

// Do both ask the same?
fn is_same_key(a: &Key, b: &Key) -> bool
    ensures { result ≡ same_key a.now b.now }
{
    match a {
        Key::Cred(a) => match b {
            Key::Cred(b) => a == b,
            _ => false,
        },
        Key::Basic(a) => match b {
            Key::Basic(b) => a == b,
            _ => false,
        },
        Key::Consumer(a) => match b {
            Key::Consumer(b) => *a == *b,
            _ => false,
        },
        Key::Named(a) => match b {
            Key::Named(b) => a == b,
            _ => false,
        },
        Key::Acls(a) => match b {
            Key::Acls(b) => *a == *b,
            _ => false,
        },
    }
}
