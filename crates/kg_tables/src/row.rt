//! What the rows of each kind have.

ghost use Rattle.std.specs.Prelude.{◌≡◌, ℕ, List, Option, Some, None};
ghost use Rattle.std.specs.Option.{option_copied};
ghost use Rattle.kg_row_types.specs.declared.plugin.Scope.{Scope as References};
ghost use Rattle.kg_tables.specs.Others.{is_other};
ghost use Rattle.kg_tables.specs.References.{no_references, of_consumer, of_service};

use kg_row_types::consumer::{AclRow, BasicCred, Consumer, KeyCred};
use kg_row_types::id::Id;
use kg_row_types::plugin::{PluginRow, Scope};
use kg_row_types::route::Route;
use kg_row_types::service::Service;
use kg_text::Text;

/// What has an id, and may name a service, a route and a consumer.
pub trait Row: Drop {
    ghost number: { Self → ℕ };

    ghost references: { Self → References };

    /// The id of the row.
    fn id(&self) -> Id
        ensures { result ≡ number self.now };

    /// Which service, route and consumer the row names.
    fn references(&self) -> Scope
        ensures { result ≡ references self.now };
}

/// What has up to two texts of its own, by which it is sought and which only one row should have.
pub trait Named: Row {
    ghost name: { Self → Option (List ℕ) };

    ghost alias: { Self → Option (List ℕ) };

    /// The one text: the name, the username or the key.
    fn name(&self) -> Option<&Text>
        ensures { option_copied result ≡ name self.now };

    /// The other text: the custom id of a consumer.
    fn alias(&self) -> Option<&Text>
        ensures { option_copied result ≡ alias self.now };
}

/// Whether this is the id of another row than the one that is left out, if one is.
pub fn is_other(except: Option<Id>, id: Id) -> bool
    ensures { result ≡ is_other except id }
{
    match except {
        Some(old) => id != old,
        None => true,
    }
}

/// Names no row.
pub(crate) fn no_references() -> Scope
    ensures { result ≡ no_references }
{
    Scope {
        service: None,
        route: None,
        consumer: None,
    }
}

fn of_consumer(consumer: Id) -> Scope
    ensures { result ≡ of_consumer consumer }
{
    Scope {
        service: None,
        route: None,
        consumer: Some(consumer),
    }
}

impl Row for Service {
    ghost number = { λ row. row.id };

    ghost references = { λ _. no_references };

    fn id(&self) -> Id {
        self.id
    }

    fn references(&self) -> Scope {
        no_references()
    }
}

impl Row for Route {
    ghost number = { λ row. row.id };

    ghost references = { λ row. of_service row.service };

    fn id(&self) -> Id {
        self.id
    }

    fn references(&self) -> Scope {
        Scope {
            service: Some(self.service),
            route: None,
            consumer: None,
        }
    }
}

impl Row for Consumer {
    ghost number = { λ row. row.id };

    ghost references = { λ _. no_references };

    fn id(&self) -> Id {
        self.id
    }

    fn references(&self) -> Scope {
        no_references()
    }
}

impl Row for KeyCred {
    ghost number = { λ row. row.id };

    ghost references = { λ row. of_consumer row.consumer };

    fn id(&self) -> Id {
        self.id
    }

    fn references(&self) -> Scope {
        of_consumer(self.consumer)
    }
}

impl Row for BasicCred {
    ghost number = { λ row. row.id };

    ghost references = { λ row. of_consumer row.consumer };

    fn id(&self) -> Id {
        self.id
    }

    fn references(&self) -> Scope {
        of_consumer(self.consumer)
    }
}

impl Row for AclRow {
    ghost number = { λ row. row.id };

    ghost references = { λ row. of_consumer row.consumer };

    fn id(&self) -> Id {
        self.id
    }

    fn references(&self) -> Scope {
        of_consumer(self.consumer)
    }
}

impl Row for PluginRow {
    ghost number = { λ row. row.id };

    ghost references = { λ row. row.scope };

    fn id(&self) -> Id {
        self.id
    }

    fn references(&self) -> Scope {
        self.scope
    }
}

impl Named for Service {
    ghost name = { λ row. row.name };

    ghost alias = { λ _. None };

    fn name(&self) -> Option<&Text> {
        self.name.as_ref()
    }

    fn alias(&self) -> Option<&Text> {
        None
    }
}

impl Named for Route {
    ghost name = { λ row. row.name };

    ghost alias = { λ _. None };

    fn name(&self) -> Option<&Text> {
        self.name.as_ref()
    }

    fn alias(&self) -> Option<&Text> {
        None
    }
}

impl Named for Consumer {
    ghost name = { λ row. row.username };

    ghost alias = { λ row. row.custom_id };

    fn name(&self) -> Option<&Text> {
        self.username.as_ref()
    }

    fn alias(&self) -> Option<&Text> {
        self.custom_id.as_ref()
    }
}

impl Named for KeyCred {
    ghost name = { λ row. Some row.key };

    ghost alias = { λ _. None };

    fn name(&self) -> Option<&Text> {
        Some(&self.key)
    }

    fn alias(&self) -> Option<&Text> {
        None
    }
}

impl Named for BasicCred {
    ghost name = { λ row. Some row.username };

    ghost alias = { λ _. None };

    fn name(&self) -> Option<&Text> {
        Some(&self.username)
    }

    fn alias(&self) -> Option<&Text> {
        None
    }
}
