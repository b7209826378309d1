//! Texts that are written once and stand many times.

use kg_text::NoMemory;
use std::alloc::Global;

/// The text with each `\{TEXT*N}` as N times the text.
pub fn with_repeats(alloc: Global, text: &str) -> Result<String, NoMemory> {
    let mut out = String::new(alloc);
    put_all(&mut out, text)?;
    Ok(out)
}

fn put_all(out: &mut String, text: &str) -> Result<(), NoMemory> {
    let mut rest = text;
    for _ in 0..text.len() {
        match rest.split_once("\\{") {
            Some((front, behind)) => {
                out.push_str(front)?;
                rest = put_repeat(out, behind)?;
            }
            None => {
                out.push_str(rest)?;
                return Ok(());
            }
        }
    }
    Ok(())
}

// Adds the text of `TEXT*N}` N times, and answers what stands behind it.
fn put_repeat<'a>(out: &mut String, text: &'a str) -> Result<&'a str, NoMemory> {
    match text.split_once('}') {
        Some((inner, rest)) => {
            put_times(out, inner)?;
            Ok(rest)
        }
        None => Ok(text),
    }
}

fn put_times(out: &mut String, inner: &str) -> Result<(), NoMemory> {
    match inner.rsplit_once('*') {
        Some((text, number)) => {
            let count: usize = number.parse().unwrap_or(0);
            for _ in 0..count {
                out.push_str(text)?;
            }
            Ok(())
        }
        None => Ok(()),
    }
}
