//! The arguments of a line.

use crate::escape::bytes_of;
use kg_text::{Bytes, List, NoMemory};
use std::alloc::Global;
use std::str::from_utf8;

// How many arguments a line has at most.
const MOST: usize = 8;

/// The arguments of a line, in their order.
#[derive(Drop)]
pub struct Args {
    all: List<Bytes>,
}

impl Args {
    /// Is there an argument at this place, counted from 0?
    pub fn has(&self, index: usize) -> bool {
        index < self.all.len()
    }

    /// The argument at a place; nothing where there is none.
    pub fn at(&self, index: usize) -> &[u8] {
        match self.all.get(index) {
            Some(bytes) => bytes.as_slice(),
            None => b"",
        }
    }

    /// The same as a text; nothing where it is none.
    pub fn text(&self, index: usize) -> &str {
        from_utf8(self.at(index)).unwrap_or("")
    }

    /// The same as a number; 0 where it is none.
    pub fn number(&self, index: usize) -> usize {
        self.text(index).parse().unwrap_or(0)
    }
}

/// The arguments that a text has, each but the first after ` | `.
pub fn args_of(alloc: Global, text: &str) -> Result<Args, NoMemory> {
    let mut all = List::new(alloc);
    let mut rest = Some(text);
    for _ in 0..MOST {
        match rest {
            Some(more) => rest = put_arg(alloc, &mut all, more)?,
            None => {}
        }
    }
    Ok(Args { all })
}

// Adds the first argument, and answers what stands behind it.
fn put_arg<'a>(
    alloc: Global,
    all: &mut List<Bytes>,
    text: &'a str,
) -> Result<Option<&'a str>, NoMemory> {
    match text.split_once(" | ") {
        Some((first, rest)) => {
            all.push(bytes_of(alloc, first)?)?;
            Ok(Some(rest))
        }
        None => {
            all.push(bytes_of(alloc, text)?)?;
            Ok(None)
        }
    }
}

/// The numbers of a text, with a comma between two.
pub fn numbers_of(alloc: Global, text: &str) -> Result<List<u64>, NoMemory> {
    let mut numbers = List::new(alloc);
    for number in text.split(',') {
        match number.parse() {
            Ok(number) => numbers.push(number)?,
            Err(_) => {}
        }
    }
    Ok(numbers)
}
