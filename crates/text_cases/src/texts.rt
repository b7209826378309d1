//! Paths, names, hosts and queries.

use case_lines::{Args, put, put_bytes, put_truth, put_unknown};
use kg_text::{
    Bytes, Name, NoMemory, Pair, TextError, host_of, host_part, into_normal_form, is_host,
    is_lower_case_of, is_normal, is_path, is_token, normalise, query_pairs, query_text,
};
use std::alloc::Global;

pub fn put_path_answer(
    alloc: Global,
    out: &mut String,
    call: &str,
    args: &Args,
) -> Result<(), NoMemory> {
    match call {
        "normal" => put_normal(alloc, out, args.at(0)),
        "of" => put_own_normal(alloc, out, args.at(0)),
        "is_normal" => put_truth(out, is_normal(args.at(0))),
        "is_path" => put_truth(out, is_path(args.at(0))),
        _ => put_unknown(out),
    }
}

fn put_normal(alloc: Global, out: &mut String, path: &[u8]) -> Result<(), NoMemory> {
    match normalise(alloc, path) {
        Ok(text) => put_bytes(out, text.as_bytes()),
        Err(error) => put_refused(out, error),
    }
}

// The normal form of a path that isn't copied where it is its own.
fn put_own_normal(alloc: Global, out: &mut String, path: &[u8]) -> Result<(), NoMemory> {
    if !is_path(path) {
        return put(out, "no path");
    }
    let text = into_normal_form(alloc, Bytes::from_slice(alloc, path)?)?;
    put_bytes(out, text.as_bytes())
}

fn put_refused(out: &mut String, error: TextError) -> Result<(), NoMemory> {
    match error {
        TextError::Bad { .. } => {
            write!(out, "{error}")?;
            Ok(())
        }
        TextError::NoMemory => Err(NoMemory),
    }
}

pub fn put_name_answer(
    alloc: Global,
    out: &mut String,
    call: &str,
    args: &Args,
) -> Result<(), NoMemory> {
    match call {
        "of" => put_name(alloc, out, args.at(0)),
        "same" => put_same(alloc, out, args.at(0), args.at(1)),
        "is_token" => put_truth(out, is_token(args.at(0))),
        "is_lower_case_of" => put_truth(out, is_lower_case_of(args.at(0), args.at(1))),
        "no_memory" => put_errors(out),
        _ => put_unknown(out),
    }
}

fn put_name(alloc: Global, out: &mut String, raw: &[u8]) -> Result<(), NoMemory> {
    match Name::of(alloc, raw) {
        Ok(name) => put(out, name.as_str()),
        Err(error) => put_refused(out, error),
    }
}

// Whether the second is the name that the first spells, and whether both are equal names.
fn put_same(alloc: Global, out: &mut String, first: &[u8], second: &[u8]) -> Result<(), NoMemory> {
    match Name::of(alloc, first) {
        Ok(name) => put_truth(out, name.same(second) && is_equal(alloc, &name, second)?),
        Err(error) => put_refused(out, error),
    }
}

fn is_equal(alloc: Global, name: &Name, raw: &[u8]) -> Result<bool, NoMemory> {
    if !is_token(raw) {
        return Ok(false);
    }
    Ok(*name == Name::of_token(alloc, raw)?)
}

// How the errors of want of memory are told.
fn put_errors(out: &mut String) -> Result<(), NoMemory> {
    write!(out, "{}, {}", TextError::NoMemory, NoMemory)?;
    Ok(())
}

pub fn put_host_answer(
    alloc: Global,
    out: &mut String,
    call: &str,
    args: &Args,
) -> Result<(), NoMemory> {
    match call {
        "of" => put_bytes(out, host_of(alloc, args.at(0))?.as_slice()),
        "part" => put_bytes(out, host_part(args.at(0))),
        "is_host" => put_truth(out, is_host(args.at(0))),
        _ => put_unknown(out),
    }
}

pub fn put_query_answer(
    alloc: Global,
    out: &mut String,
    call: &str,
    args: &Args,
) -> Result<(), NoMemory> {
    match call {
        "written" => put_written(alloc, out, args.at(0)),
        "pairs" => put_pairs(alloc, out, args.at(0)),
        _ => put_unknown(out),
    }
}

// The text that is written for the pairs that are read.
fn put_written(alloc: Global, out: &mut String, query: &[u8]) -> Result<(), NoMemory> {
    let pairs = query_pairs(alloc, query)?;
    let text = query_text(alloc, &pairs)?;
    put_bytes(out, text.as_slice())
}

fn put_pairs(alloc: Global, out: &mut String, query: &[u8]) -> Result<(), NoMemory> {
    let pairs = query_pairs(alloc, query)?;
    for pair in pairs.as_slice() {
        put_pair(out, pair)?;
    }
    Ok(())
}

fn put_pair(out: &mut String, pair: &Pair) -> Result<(), NoMemory> {
    write!(out, "[{}={}]", pair.name.as_str(), pair.value.as_str())?;
    Ok(())
}
