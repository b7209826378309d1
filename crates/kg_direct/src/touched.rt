//! Whether a plugin runs for a request.

ghost use Rattle.std.specs.Prelude.{◌≡◌, is_some};
ghost use Rattle.kg_plugin_table.specs.Precedence.{chosen_row};
ghost use Rattle.kg_router.specs.Found.{choice_at};
ghost use Rattle.kg_direct.specs.Untouched.{is_touched, route_scope};

use kg_plugin_table::PluginGen;
use kg_router::Choice;
use kg_row_types::plugin::{PluginName, Scope};

// All plugins, in the order of their priorities.
const PLUGINS: [PluginName; 10] = [
    PluginName::Cors,
    PluginName::KeyAuth,
    PluginName::BasicAuth,
    PluginName::IpRestriction,
    PluginName::RequestSizeLimiting,
    PluginName::Acl,
    PluginName::RateLimiting,
    PluginName::RequestTransformer,
    PluginName::ResponseTransformer,
    PluginName::RequestTermination,
];

/// Does a plugin run for a request at this choice, before its consumer is known? It takes no memory, and without
/// rows it looks at nothing.
pub fn is_touched(plugins: &PluginGen, choice: &Choice<'_>) -> bool
    ensures { result ≡ is_touched plugins.now.rows (choice_at choice.now) }
{
    if plugins.rows().is_empty() {
        return false;
    }
    let scope = route_scope(choice);
    PLUGINS.iter().any(|name| runs(plugins, *name, &scope))
}

fn runs(plugins: &PluginGen, name: PluginName, scope: &Scope) -> bool
    ensures { result ≡ is_some (chosen_row plugins.now.rows name scope.now) }
{
    match plugins.choose(name, scope) {
        Some(_) => true,
        None => false,
    }
}

fn route_scope(choice: &Choice<'_>) -> Scope
    ensures { result ≡ route_scope (choice_at choice.now) }
{
    Scope {
        service: Some(choice.service.id),
        route: Some(choice.route.id),
        consumer: None,
    }
}
