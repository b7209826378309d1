//! Header fields (RFC 9110, section 5).

ghost use Rattle.std.specs.Cmp.Rules.{comparing};
ghost use Rattle.std.proofs.Common.{rules};
ghost use Rattle.kg_message.specs.HeaderLists.{same_field};

use kg_text::{Bytes, Name, NoMemory, TryClone};
use std::alloc::Global;

/// One header field: its name in lower case, and its value without blanks at its ends.
#[derive(Debug, Drop)]
pub struct Header {
    pub name: Name,
    pub value: Bytes,
}

impl TryClone for Header {
    fn try_clone(&self, alloc: Global) -> Result<Header, NoMemory> {
        Ok(Header {
            name: self.name.try_clone(alloc)?,
            value: self.value.try_clone(alloc)?,
        })
    }
}

impl PartialEq for Header {
    ghost eq = { same_field };

    ghost laws = { Prim.search (comparing, rules) };

    fn eq(&self, other: &Header) -> bool {
        self.name == other.name && self.value == other.value
    }
}
