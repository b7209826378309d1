//! Which of two routes comes first.

use crate::shape::{blank_route, put_texts, set_shape};
use case_lines::{Args, put};
use kg_router::compare_routes;
use kg_row_types::route::Route;
use kg_text::NoMemory;
use std::alloc::Global;
use std::cmp::Ordering;

/// Adds whether the route of the first shape comes before or after that of the second. Both ask for GET.
pub fn put_order(alloc: Global, out: &mut String, args: &Args) -> Result<(), NoMemory> {
    let mut first = blank_route(alloc);
    let mut second = blank_route(alloc);
    let order = order_of(alloc, &mut first, &mut second, args);
    drop(first);
    drop(second);
    put(out, order?)
}

fn order_of(
    alloc: Global,
    first: &mut Route,
    second: &mut Route,
    args: &Args,
) -> Result<&'static str, NoMemory> {
    set_route(alloc, first, args.text(0))?;
    set_route(alloc, second, args.text(1))?;
    Ok(match compare_routes(first, second) {
        Ordering::Less => "before",
        Ordering::Equal => "equal",
        Ordering::Greater => "after",
    })
}

fn set_route(alloc: Global, route: &mut Route, shape: &str) -> Result<(), NoMemory> {
    put_texts(alloc, &mut route.methods, "GET")?;
    set_shape(alloc, route, shape)
}
