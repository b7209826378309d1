//! The two kinds of generation.

ghost use Rattle.std.specs.Prelude.{◌≡◌, All, IfOk, IsTrue, option_map};
ghost use Rattle.std.specs.Arc.{arc_value};
ghost use Rattle.std.specs.Option.{option_copied};
ghost use Rattle.kg_row_types.specs.ValidRows.{IsValidPlugin, IsValidRoute};
ghost use Rattle.kg_row_types.specs.Values.{PluginRows, RouterRows};
ghost use Rattle.kg_router.specs.RouterRows.{HasDistinctRoutes};
ghost use Rattle.kg_generation.specs.Generations.{built_from, is_of_kind, plugins_of, router_of};

use kg_plugin_table::PluginGen;
use kg_router::RouterGen;
use kg_row_types::key::GenKey;
use kg_row_types::plugin::PluginRow;
use kg_row_types::route::Route;
use kg_row_types::service::Service;
use kg_text::{List, NoMemory};
use std::alloc::Global;
use std::sync::Arc;

/// The rows of one revision that are read as a whole, compiled.
#[derive(Drop)]
pub enum Gen {
    /// The services and the routes.
    Router(Arc<RouterGen>),
    /// The plugin rows.
    Plugins(Arc<PluginGen>),
}

impl Gen {
    /// A generation of copies of these services and routes. The routes are valid and have distinct ids. A pattern that
    /// is too big to compile counts as want of memory.
    pub fn of_router_rows(
        alloc: Global,
        rev: u64,
        services: &List<Service>,
        routes: &List<Route>,
    ) -> Result<Gen, NoMemory>
        requires valid { All IsValidRoute routes.now }
        requires distinct { HasDistinctRoutes routes.now }
        ensures rows { IfOk result (λ gen. built_from gen ≡ RouterRows services.now routes.now) }
    {
        let router = RouterGen::build(alloc, rev, services, routes)?;
        Ok(Gen::Router(Arc::new(alloc, router)?))
    }

    /// A generation of copies of these plugin rows. They are valid.
    pub fn of_plugin_rows(alloc: Global, rev: u64, rows: &List<PluginRow>) -> Result<Gen, NoMemory>
        requires valid { All IsValidPlugin rows.now }
        ensures rows { IfOk result (λ gen. built_from gen ≡ PluginRows rows.now) }
    {
        let plugins = PluginGen::build(alloc, rev, rows)?;
        Ok(Gen::Plugins(Arc::new(alloc, plugins)?))
    }

    /// Which of the two it is.
    pub fn kind(&self) -> GenKey
        ensures { IsTrue (is_of_kind result self.now) }
    {
        match self {
            Gen::Router(_) => GenKey::Router,
            Gen::Plugins(_) => GenKey::Plugins,
        }
    }

    /// The services and routes, where it has them.
    pub fn router(&self) -> Option<&Arc<RouterGen>>
        ensures { option_map (λ router. arc_value router) (option_copied result) ≡ router_of self.now }
    {
        match self {
            Gen::Router(router) => Some(router),
            Gen::Plugins(_) => None,
        }
    }

    /// The plugin rows, where it has them.
    pub fn plugins(&self) -> Option<&Arc<PluginGen>>
        ensures { option_map (λ plugins. arc_value plugins) (option_copied result) ≡ plugins_of self.now }
    {
        match self {
            Gen::Router(_) => None,
            Gen::Plugins(plugins) => Some(plugins),
        }
    }
}
