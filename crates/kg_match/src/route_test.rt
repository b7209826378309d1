//! The test of one route.

ghost use Rattle.std.specs.Prelude.{◌≡◌, ◌&&◌, ℕ, Err, IfOk, IsTrue, None, OnErr, OnOk, Some};
ghost use Rattle.kg_text.specs.Hosts.{host_part};
ghost use Rattle.kg_match.specs.Fits.{fits_but_path, match_of};
ghost use Rattle.kg_match.specs.RoutePaths.{bad_pattern_of, has_regex_path};
ghost use Rattle.kg_match.specs.declared.error.BuildError.TheVariants.{BadPattern as IsBad};

use crate::error::BuildError;
use crate::header::headers_fit;
use crate::host::hosts_fit;
use crate::method::methods_fit;
use crate::path::{compile, cut_where_fits};
use crate::pattern::PathPattern;
use kg_message::Request;
use kg_row_types::route::Route;
use kg_text::{NoMemory, TryClone, host_part};
use std::alloc::Global;
use std::marker::Model;

/// A route, ready to be tested against requests. Contracts see the route.
#[derive(Drop)]
pub struct RouteTest {
    route: Route,
    patterns: Vec<PathPattern>,
}

impl Model for RouteTest {
    ghost use Rattle.std.specs.Prelude.{◌≡◌};
    ghost use Rattle.kg_row_types.specs.declared.route.Route.{Route as ARoute};
    ghost use Rattle.kg_match.specs.RoutePaths.{patterns_of};

    ghost Value = { ARoute };

    ghost view = { λ test. test.route };

    ghost invariant = { λ test. test.patterns.items ≡ patterns_of test.route.paths };
}

impl RouteTest {
    /// A copy of the route, with its patterns compiled. `BadPattern` tells the first path whose
    /// pattern is none.
    pub fn build(alloc: Global, route: &Route) -> Result<RouteTest, BuildError>
        ensures value { IfOk result (λ test. test ≡ route.now) }
        ensures ok { OnOk result (bad_pattern_of route.now.paths ≡ None) }
        ensures bad { (index : ℕ) → result ≡ Err (IsBad index) → bad_pattern_of route.now.paths ≡ Some index }
    {
        let patterns = compile(alloc, route.paths.as_slice())?;
        let route = route.try_clone(alloc)?;
        Ok(RouteTest { route, patterns })
    }

    /// The route.
    pub fn route(&self) -> &Route
        ensures { result.now ≡ self.now }
    {
        &self.route
    }

    /// How many bytes of the request's path the route takes, if the request fits it. It takes
    /// memory only for regex paths, and where all else fits.
    pub fn matches(&self, alloc: Global, request: &Request) -> Result<Option<usize>, NoMemory>
        ensures cut { IfOk result (λ cut. cut ≡ match_of self.now request.now) }
        ensures err { OnErr result (IsTrue (has_regex_path self.now && fits_but_path self.now request.now)) }
    {
        self.matches_at(alloc, host_part(request.host.as_slice()), request)
    }

    /// As `matches`, where the host part of the request was cut out before, once for many routes.
    pub fn matches_at(
        &self,
        alloc: Global,
        host: &[u8],
        request: &Request,
    ) -> Result<Option<usize>, NoMemory>
        requires { host.now ≡ host_part request.now.host }
        ensures cut { IfOk result (λ cut. cut ≡ match_of self.now request.now) }
        ensures err { OnErr result (IsTrue (has_regex_path self.now && fits_but_path self.now request.now)) }
    {
        if !fits_but_path(&self.route, host, request) {
            return Ok(None);
        }
        let paths = self.route.paths.as_slice();
        cut_where_fits(alloc, paths, self.patterns.as_slice(), &request.path)
    }
}

fn fits_but_path(route: &Route, host: &[u8], request: &Request) -> bool
    requires { host.now ≡ host_part request.now.host }
    ensures { result ≡ fits_but_path route.now request.now }
{
    methods_fit(route.methods.as_slice(), request.method.as_slice())
        && hosts_fit(route.hosts.as_slice(), host)
        && headers_fit(route.headers.as_slice(), request.headers.as_slice())
}
