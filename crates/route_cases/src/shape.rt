//! Routes as lines write them.

use crate::ids::drawn;
use kg_row_types::id::Id;
use kg_row_types::route::{HeaderTest, Route};
use kg_text::{List, Name, NoMemory, Text, TextError};
use std::alloc::Global;

/// A route that asks for nothing.
pub fn blank_route(alloc: Global) -> Route {
    Route {
        id: Id::from_drawn([0; 16]),
        name: None,
        service: Id::from_drawn([1; 16]),
        https: true,
        methods: List::new(alloc),
        hosts: List::new(alloc),
        paths: List::new(alloc),
        headers: List::new(alloc),
        regex_priority: 0,
        strip_path: true,
        preserve_host: false,
        created_at: 0,
        updated_at: 0,
    }
}

/// Gives a route the id, the hosts, the headers, the paths, the priority and the time of a shape.
pub fn set_shape(alloc: Global, route: &mut Route, text: &str) -> Result<(), NoMemory> {
    let (id, rest) = word(text);
    let (hosts, rest) = word(rest);
    let (headers, rest) = word(rest);
    let (paths, rest) = word(rest);
    let (priority, created_at) = word(rest);
    route.id = drawn(id);
    route.regex_priority = priority.parse().unwrap_or(0);
    route.created_at = created_at.parse().unwrap_or(0);
    put_texts(alloc, &mut route.hosts, hosts)?;
    put_tests(alloc, &mut route.headers, headers)?;
    put_texts(alloc, &mut route.paths, paths)
}

// The first word, or nothing for `-`, and what stands behind it.
fn word(text: &str) -> (&str, &str) {
    match text.split_once(' ') {
        Some(("-", rest)) => ("", rest),
        Some((first, rest)) => (first, rest),
        None => (text, ""),
    }
}

/// Adds the texts, with a comma between two.
pub fn put_texts(alloc: Global, list: &mut List<Text>, texts: &str) -> Result<(), NoMemory> {
    for text in texts.split(',') {
        if !text.is_empty() {
            list.push(Text::from_str(alloc, text)?)?;
        }
    }
    Ok(())
}

/// Adds the headers of these names, each with the values `On` and `yes`.
pub fn put_tests(alloc: Global, tests: &mut List<HeaderTest>, names: &str) -> Result<(), NoMemory> {
    for name in names.split(',') {
        if !name.is_empty() {
            put_test(alloc, tests, name)?;
        }
    }
    Ok(())
}

fn put_test(alloc: Global, tests: &mut List<HeaderTest>, name: &str) -> Result<(), NoMemory> {
    let mut values = List::new(alloc);
    put_texts(alloc, &mut values, "On,yes")?;
    match Name::of(alloc, name.as_bytes()) {
        Ok(name) => tests.push(HeaderTest { name, values }),
        Err(TextError::Bad { .. }) => Ok(()),
        Err(TextError::NoMemory) => Err(NoMemory),
    }
}
