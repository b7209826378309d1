//! The words that the program was given.

use kg_text::{List, NoMemory, Text};
use std::env;
use std::io::ErrorKind;

/// The words after the program's name, or why they could not be had.
#[derive(Drop)]
pub enum Words {
    These(List<Text>),
    /// A word isn't UTF-8.
    NotText,
    NoMemory,
}

/// The words that the program was given.
pub fn words_of(rt: &HostRuntime) -> Words {
    match env::args(rt) {
        Ok(args) => match texts(rt, args) {
            Ok(words) => Words::These(words),
            Err(NoMemory) => Words::NoMemory,
        },
        Err(e) if e.kind() == ErrorKind::OutOfMemory => Words::NoMemory,
        Err(_) => Words::NotText,
    }
}

// The words without the first one, which names the program.
fn texts(rt: &HostRuntime, args: env::Args) -> Result<List<Text>, NoMemory> {
    let mut words = List::new(rt.alloc());
    for word in args.skip(1) {
        words.push(Text::from_string(word))?;
    }
    Ok(words)
}
