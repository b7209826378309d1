//! The bytes that the signs of an argument stand for.

use crate::repeat::with_repeats;
use kg_text::{Bytes, NoMemory};
use std::alloc::Global;

// What the letters behind a backslash stand for.
const SIGNS: [(char, &[u8]); 5] = [
    ('r', b"\r"),
    ('n', b"\n"),
    ('t', b"\t"),
    ('\\', b"\\"),
    ('e', b""),
];

/// The bytes that an argument stands for.
pub fn bytes_of(alloc: Global, text: &str) -> Result<Bytes, NoMemory> {
    let repeated = with_repeats(alloc, text)?;
    let mut out = Bytes::new(alloc);
    put_bytes(&mut out, repeated.as_str())?;
    Ok(out)
}

fn put_bytes(out: &mut Bytes, text: &str) -> Result<(), NoMemory> {
    let mut rest = text;
    for _ in 0..text.len() {
        match rest.split_once('\\') {
            Some((front, behind)) => {
                out.extend_from_slice(front.as_bytes())?;
                rest = put_sign(out, behind)?;
            }
            None => return out.extend_from_slice(rest.as_bytes()),
        }
    }
    Ok(())
}

// Adds the byte of the sign, and answers what stands behind it.
fn put_sign<'a>(out: &mut Bytes, text: &'a str) -> Result<&'a str, NoMemory> {
    for (letter, bytes) in SIGNS {
        match text.strip_prefix(letter) {
            Some(rest) => {
                out.extend_from_slice(bytes)?;
                return Ok(rest);
            }
            None => {}
        }
    }
    put_number(out, text)
}

// The byte of a number, as `xFF;`.
fn put_number<'a>(out: &mut Bytes, text: &'a str) -> Result<&'a str, NoMemory> {
    match text.split_once(';') {
        Some((number, rest)) => {
            out.push(byte_of(number))?;
            Ok(rest)
        }
        None => Ok(text),
    }
}

fn byte_of(text: &str) -> u8 {
    match text.strip_prefix('x') {
        Some(digits) => u8::from_str_radix(digits, 16).unwrap_or(b'?'),
        None => b'?',
    }
}
