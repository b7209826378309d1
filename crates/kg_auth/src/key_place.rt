//! Where a request's key stands.

ghost use Rattle.std.specs.Prelude.{◌≡◌, Option, find, option_map};
ghost use Rattle.std.specs.Option.{option_copied};
ghost use Rattle.kg_auth.specs.KeyPlaces.{is_used, key_place, place_at, places_of, values_at, without_values};
ghost use Rattle.kg_auth.specs.Single.{single};

use crate::single::{single_pair_value, single_value};
use kg_context::{ReqCtx, has_pair, remove_pairs};
use kg_row_types::config::KeyAuth;
use kg_text::Text;

/// Where a key may stand.
#[derive(Clone, Copy)]
pub enum Place<'a> {
    /// In the client's fields of this name.
    Fields(&'a Text),
    /// In the query's pairs of this name.
    Pairs(&'a Text),
}

/// The first place at which something stands, name by name.
pub fn key_place<'a>(config: &'a KeyAuth, ctx: &ReqCtx) -> Option<Place<'a>>
    ensures { option_map place_at result ≡ key_place config.now ctx.now }
{
    for name in config.key_names.as_slice() {
        if let Some(place) = place_of(config, name, ctx) {
            return Some(place);
        }
    }
    None
}

fn place_of<'a>(config: &KeyAuth, name: &'a Text, ctx: &ReqCtx) -> Option<Place<'a>>
    ensures { option_map place_at result ≡ find (is_used ctx.now) (places_of config.now name.now) }
{
    if config.key_in_header && ctx.request.headers.has(name.as_bytes()) {
        Some(Place::Fields(name))
    } else if config.key_in_query && has_pair(&ctx.query, name.as_bytes()) {
        Some(Place::Pairs(name))
    } else {
        None
    }
}

/// The value at a place, where there is just one.
pub fn single_at<'a>(place: &Place<'_>, ctx: &'a ReqCtx) -> Option<&'a [u8]>
    ensures { option_copied result ≡ single (values_at ctx.now (place_at place.now)) }
{
    match place {
        Place::Fields(name) => single_value(&ctx.request.headers, name.as_bytes()),
        Place::Pairs(name) => single_pair_value(&ctx.query, name.as_bytes()),
    }
}

/// Hides from the upstream what stands at a place.
pub fn hide(place: &Place<'_>, ctx: &mut ReqCtx)
    ensures { ctx.new ≡ without_values (place_at place.now) ctx.old }
{
    match place {
        Place::Fields(name) => {
            ctx.headers.remove(name.as_bytes());
        }
        Place::Pairs(name) => remove_pairs(&mut ctx.query, name.as_bytes()),
    }
}
