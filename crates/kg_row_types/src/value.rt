//! What the rows answer to a key.

ghost use Rattle.std.specs.Prelude.{◌≡◌, IfOk};
ghost use Rattle.kg_row_types.specs.Values.{is_no_value};

use crate::consumer::{BasicCred, Consumer, KeyCred};
use kg_text::{List, NoMemory, Text, TryClone};
use std::alloc::Global;

/// The value of a key.
#[derive(Drop)]
pub enum Value {
    Cred(Option<KeyCred>),
    Basic(Option<BasicCred>),
    Consumer(Option<Consumer>),
    /// A consumer's groups, in byte order.
    Acls(List<Text>),
}

impl Value {
    /// Whether there is no such row, or there are no groups.
    pub fn is_none(&self) -> bool
        ensures { result ≡ is_no_value self.now }
    {
        match self {
            Value::Cred(found) => found.is_none(),
            Value::Basic(found) => found.is_none(),
            Value::Consumer(found) => found.is_none(),
            Value::Acls(groups) => groups.is_empty(),
        }
    }

    /// A copy of the value.
    pub fn copy(&self, alloc: Global) -> Result<Value, NoMemory>
        ensures { IfOk result (λ value. value ≡ self.now) }
    {
        self.try_clone(alloc)
    }
}

impl TryClone for Value {
    fn try_clone(&self, alloc: Global) -> Result<Value, NoMemory> {
        match self {
            Value::Cred(found) => Ok(Value::Cred(found.try_clone(alloc)?)),
            Value::Basic(found) => Ok(Value::Basic(found.try_clone(alloc)?)),
            Value::Consumer(found) => Ok(Value::Consumer(found.try_clone(alloc)?)),
            Value::Acls(groups) => Ok(Value::Acls(groups.try_clone(alloc)?)),
        }
    }
}
