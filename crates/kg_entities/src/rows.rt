//! All rows.

ghost use Rattle.std.specs.Prelude.{◌≡◌, ◌==◌, ◌&&◌, false, find, OnOk, OnErr};
ghost use Rattle.std.specs.Str.{bytes_eq};
ghost use Rattle.std.specs.Option.{option_copied};
ghost use Rattle.kg_row_types.specs.Entities.{kind_of, id_of_row};
ghost use Rattle.kg_row_types.specs.Lookups.{is_text, service_named, route_named, consumer_with_username, consumer_with_custom_id, cred_with_key, cred_with_username, named};
ghost use Rattle.kg_row_types.specs.RowChanges.{has_row, count_of, inserted, updated, removed, without_plugins_of, without_credentials_of};
ghost use Rattle.kg_row_types.specs.RowLists.{no_rows};
ghost use Rattle.kg_row_types.specs.ValidRows.{same_name_and_scope};
ghost use Rattle.kg_tables.specs.Others.{is_other};

use kg_row_types::consumer::{AclRow, BasicCred, Consumer, KeyCred};
use kg_row_types::entity::{Entity, Kind};
use kg_row_types::id::Id;
use kg_row_types::plugin::PluginRow;
use kg_row_types::route::Route;
use kg_row_types::service::Service;
use kg_tables::{NamedTable, PluginTable, RowTable};
use kg_text::{NoMemory, Text, TryClone};
use std::alloc::Global;
use std::marker::Model;

/// All rows. Contracts see a list of each kind, in the order of insertion.
#[derive(Drop)]
pub struct Rows {
    services: NamedTable<Service>,
    routes: NamedTable<Route>,
    consumers: NamedTable<Consumer>,
    key_creds: NamedTable<KeyCred>,
    basic_creds: NamedTable<BasicCred>,
    acls: RowTable<AclRow>,
    plugins: PluginTable,
}

impl Model for Rows {
    ghost use Rattle.kg_row_types.specs.RowLists.{RowLists};

    ghost Value = { RowLists };

    ghost view = { λ rows. record { services = rows.services; routes = rows.routes; consumers = rows.consumers; key_creds = rows.key_creds; basic_creds = rows.basic_creds; acls = rows.acls; plugins = rows.plugins } };
}

impl Rows {
    /// No rows. It takes no memory.
    pub fn new(alloc: Global) -> Rows
        ensures { result ≡ no_rows }
    {
        Rows {
            services: NamedTable::new(alloc),
            routes: NamedTable::new(alloc),
            consumers: NamedTable::new(alloc),
            key_creds: NamedTable::new(alloc),
            basic_creds: NamedTable::new(alloc),
            acls: RowTable::new(alloc),
            plugins: PluginTable::new(alloc),
        }
    }

    pub fn services(&self) -> &RowTable<Service>
        ensures { result.now ≡ self.now.services }
    {
        self.services.table()
    }

    pub fn routes(&self) -> &RowTable<Route>
        ensures { result.now ≡ self.now.routes }
    {
        self.routes.table()
    }

    pub fn consumers(&self) -> &RowTable<Consumer>
        ensures { result.now ≡ self.now.consumers }
    {
        self.consumers.table()
    }

    pub fn key_creds(&self) -> &RowTable<KeyCred>
        ensures { result.now ≡ self.now.key_creds }
    {
        self.key_creds.table()
    }

    pub fn basic_creds(&self) -> &RowTable<BasicCred>
        ensures { result.now ≡ self.now.basic_creds }
    {
        self.basic_creds.table()
    }

    pub fn acls(&self) -> &RowTable<AclRow>
        ensures { result.now ≡ self.now.acls }
    {
        &self.acls
    }

    pub fn plugins(&self) -> &RowTable<PluginRow>
        ensures { result.now ≡ self.now.plugins }
    {
        self.plugins.table()
    }

    /// Whether there is a row of this kind and id.
    pub fn contains(&self, kind: Kind, id: Id) -> bool
        ensures { result ≡ has_row kind id self.now }
    {
        match kind {
            Kind::Service => self.services.table().contains(id),
            Kind::Route => self.routes.table().contains(id),
            Kind::Consumer => self.consumers.table().contains(id),
            Kind::KeyCred => self.key_creds.table().contains(id),
            Kind::BasicCred => self.basic_creds.table().contains(id),
            Kind::Acl => self.acls.contains(id),
            Kind::Plugin => self.plugins.table().contains(id),
        }
    }

    /// How many rows of this kind there are.
    pub fn count(&self, kind: Kind) -> usize
        ensures { result ≡ count_of kind self.now }
    {
        match kind {
            Kind::Service => self.services.table().len(),
            Kind::Route => self.routes.table().len(),
            Kind::Consumer => self.consumers.table().len(),
            Kind::KeyCred => self.key_creds.table().len(),
            Kind::BasicCred => self.basic_creds.table().len(),
            Kind::Acl => self.acls.len(),
            Kind::Plugin => self.plugins.table().len(),
        }
    }

    /// The first service with this name.
    pub fn service_named(&self, text: &Text) -> Option<&Service>
        ensures { option_copied result ≡ service_named text.now self.now.services }
    {
        self.services.with_name(text)
    }

    /// The first route with this name.
    pub fn route_named(&self, text: &Text) -> Option<&Route>
        ensures { option_copied result ≡ route_named text.now self.now.routes }
    {
        self.routes.with_name(text)
    }

    /// The first consumer with this username.
    pub fn consumer_with_username(&self, text: &Text) -> Option<&Consumer>
        ensures { option_copied result ≡ consumer_with_username text.now self.now.consumers }
    {
        self.consumers.with_name(text)
    }

    /// The first consumer with this custom id.
    pub fn consumer_with_custom_id(&self, text: &Text) -> Option<&Consumer>
        ensures { option_copied result ≡ consumer_with_custom_id text.now self.now.consumers }
    {
        self.consumers.with_alias(text)
    }

    /// The consumer whose printed id this is, else the first one with this username.
    pub fn consumer_named(&self, text: &Text) -> Option<&Consumer>
        ensures { option_copied result ≡ named text.now self.now.consumers }
    {
        if let Some(id) = Id::of_printed(text.as_bytes()) {
            if let Some(found) = self.consumers.table().get(id) {
                return Some(found);
            }
        }
        self.consumer_with_username(text)
    }

    /// The first credential with this key.
    pub fn cred_with_key(&self, text: &Text) -> Option<&KeyCred>
        ensures { option_copied result ≡ cred_with_key text.now self.now.key_creds }
    {
        self.key_creds.with_name(text)
    }

    /// The first credential with this username.
    pub fn cred_with_username(&self, text: &Text) -> Option<&BasicCred>
        ensures { option_copied result ≡ cred_with_username text.now self.now.basic_creds }
    {
        self.basic_creds.with_name(text)
    }

    /// The first service of another id, where one is told, with this name.
    pub fn other_service_named(&self, except: Option<Id>, text: &Text) -> Option<&Service>
        ensures { option_copied result ≡ find (λ row. is_other except row.id && is_text text.now row.name) self.now.services }
    {
        self.services.other_with_name(except, text)
    }

    /// The first route of another id, where one is told, with this name.
    pub fn other_route_named(&self, except: Option<Id>, text: &Text) -> Option<&Route>
        ensures { option_copied result ≡ find (λ row. is_other except row.id && is_text text.now row.name) self.now.routes }
    {
        self.routes.other_with_name(except, text)
    }

    /// The first consumer of another id, where one is told, with this username.
    pub fn other_with_username(&self, except: Option<Id>, text: &Text) -> Option<&Consumer>
        ensures { option_copied result ≡ find (λ row. is_other except row.id && is_text text.now row.username) self.now.consumers }
    {
        self.consumers.other_with_name(except, text)
    }

    /// The first consumer of another id, where one is told, with this custom id.
    pub fn other_with_custom_id(&self, except: Option<Id>, text: &Text) -> Option<&Consumer>
        ensures { option_copied result ≡ find (λ row. is_other except row.id && is_text text.now row.custom_id) self.now.consumers }
    {
        self.consumers.other_with_alias(except, text)
    }

    /// The first credential of another id, where one is told, with this key.
    pub fn other_with_key(&self, except: Option<Id>, text: &Text) -> Option<&KeyCred>
        ensures { option_copied result ≡ find (λ row. is_other except row.id && bytes_eq row.key text.now) self.now.key_creds }
    {
        self.key_creds.other_with_name(except, text)
    }

    /// The first credential of another id, where one is told, with this username.
    pub fn other_with_login(&self, except: Option<Id>, text: &Text) -> Option<&BasicCred>
        ensures { option_copied result ≡ find (λ row. is_other except row.id && bytes_eq row.username text.now) self.now.basic_creds }
    {
        self.basic_creds.other_with_name(except, text)
    }

    /// The first plugin of another id, where one is told, with the name and the scope of this one.
    pub fn other_like(&self, except: Option<Id>, plugin: &PluginRow) -> Option<&PluginRow>
        ensures { option_copied result ≡ find (λ other. is_other except other.id && same_name_and_scope other plugin.now) self.now.plugins }
    {
        self.plugins.other_like(except, plugin)
    }

    /// The first membership of this group.
    pub fn acl_with_group(&self, text: &Text) -> Option<&AclRow>
        ensures { option_copied result ≡ find (λ row. bytes_eq row.group text.now) self.now.acls }
    {
        self.acls.walk().find(|row| row.group == *text)
    }

    /// Adds a copy of a row at the end of the list of its kind.
    pub fn insert(&mut self, alloc: Global, row: &Entity) -> Result<(), NoMemory>
        requires new { has_row (kind_of row.now) (id_of_row row.now) self.old ≡ false }
        ensures ok { OnOk result (self.new ≡ inserted row.now self.old) }
        ensures err { OnErr result (self.new ≡ self.old) }
    {
        match row {
            Entity::Service(row) => self.services.push(alloc, row.try_clone(alloc)?),
            Entity::Route(row) => self.routes.push(alloc, row.try_clone(alloc)?),
            Entity::Consumer(row) => self.consumers.push(alloc, row.try_clone(alloc)?),
            Entity::KeyCred(row) => self.key_creds.push(alloc, row.try_clone(alloc)?),
            Entity::BasicCred(row) => self.basic_creds.push(alloc, row.try_clone(alloc)?),
            Entity::Acl(row) => self.acls.push(row.try_clone(alloc)?),
            Entity::Plugin(row) => self.plugins.push(row.try_clone(alloc)?),
        }
    }

    /// Puts a copy of a row in the place of the row of its kind and id, if there is one.
    pub fn replace(&mut self, alloc: Global, row: &Entity) -> Result<(), NoMemory>
        ensures ok { OnOk result (self.new ≡ updated row.now self.old) }
        ensures err { OnErr result (self.new ≡ self.old) }
    {
        match row {
            Entity::Service(row) => self.services.replace(alloc, row.try_clone(alloc)?),
            Entity::Route(row) => self.routes.replace(alloc, row.try_clone(alloc)?),
            Entity::Consumer(row) => self.consumers.replace(alloc, row.try_clone(alloc)?),
            Entity::KeyCred(row) => self.key_creds.replace(alloc, row.try_clone(alloc)?),
            Entity::BasicCred(row) => self.basic_creds.replace(alloc, row.try_clone(alloc)?),
            Entity::Acl(row) => {
                // let go by name: a short proof
                drop(self.acls.replace(row.try_clone(alloc)?)?);
                Ok(())
            }
            Entity::Plugin(row) => self.plugins.replace(row.try_clone(alloc)?),
        }
    }

    /// Takes out the row of this kind and id, and nothing else.
    pub fn remove(&mut self, kind: Kind, id: Id)
        ensures { self.new ≡ removed kind id self.old }
    {
        match kind {
            Kind::Service => self.services.remove(id),
            Kind::Route => self.routes.remove(id),
            Kind::Consumer => self.consumers.remove(id),
            Kind::KeyCred => self.key_creds.remove(id),
            Kind::BasicCred => self.basic_creds.remove(id),
            Kind::Acl => drop(self.acls.remove(id)),
            Kind::Plugin => self.plugins.remove(id),
        }
    }

    /// Takes out the plugins whose scope names the row of this kind and id.
    pub fn remove_plugins_of(&mut self, kind: Kind, id: Id)
        ensures { self.new ≡ without_plugins_of kind id self.old }
    {
        self.plugins.remove_of(kind, id);
    }

    /// Takes out the credentials and the groups of a consumer.
    pub fn remove_credentials_of(&mut self, consumer: Id)
        ensures { self.new ≡ without_credentials_of consumer self.old }
    {
        self.key_creds.remove_of(Kind::Consumer, consumer);
        self.basic_creds.remove_of(Kind::Consumer, consumer);
        self.acls.remove_of(Kind::Consumer, consumer);
    }
}
