//! Whether a route takes a request.

use crate::request::{Asked, set_request};
use crate::shape::{blank_route, put_tests, put_texts};
use case_lines::{Args, put};
use kg_match::{BuildError, RouteTest};
use kg_message::Request;
use kg_row_types::route::Route;
use kg_text::NoMemory;
use std::alloc::Global;

/// Adds, of a route with these methods, hosts, names of headers and paths, how many bytes of the path it takes
/// of a GET with this host, these fields and this path. Each header is asked for with the values `On` and `yes`.
pub fn put_fits(
    alloc: Global,
    out: &mut String,
    request: &mut Request,
    args: &Args,
) -> Result<(), NoMemory> {
    let asked = Asked {
        method: "GET",
        host: args.at(4),
        fields: args.text(5),
        path: args.text(6),
    };
    set_request(alloc, request, asked)?;
    let mut route = blank_route(alloc);
    let told = put_built(alloc, out, request, &mut route, args);
    drop(route);
    told
}

fn put_built(
    alloc: Global,
    out: &mut String,
    request: &Request,
    route: &mut Route,
    args: &Args,
) -> Result<(), NoMemory> {
    put_texts(alloc, &mut route.methods, args.text(0))?;
    put_texts(alloc, &mut route.hosts, args.text(1))?;
    put_tests(alloc, &mut route.headers, args.text(2))?;
    put_texts(alloc, &mut route.paths, args.text(3))?;
    match RouteTest::build(alloc, route) {
        Ok(test) => {
            let cut = test.matches(alloc, request);
            drop(test);
            put_cut(out, cut?)
        }
        Err(BuildError::BadPattern { index }) => put_bad(out, index),
        Err(BuildError::NoMemory) => put(out, "no memory"),
    }
}

fn put_cut(out: &mut String, cut: Option<usize>) -> Result<(), NoMemory> {
    match cut {
        Some(cut) => {
            write!(out, "{cut}")?;
            Ok(())
        }
        None => put(out, "no"),
    }
}

fn put_bad(out: &mut String, index: usize) -> Result<(), NoMemory> {
    write!(out, "bad pattern {index}")?;
    Ok(())
}
