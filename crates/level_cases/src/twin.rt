//! Each level beside lists that are searched whole, over calls that are drawn.

use crate::dice::Dice;
use crate::draw::{put_local_call, put_table_call};
use crate::local::put_local_answer;
use crate::plain_level::PlainLevel;
use crate::plain_table::{Lives, PlainTable};
use crate::table::Node;
use crate::words::part;
use case_lines::{Args, put, put_unknown};
use kg_level1::Local;
use kg_text::{NoMemory, Text};
use std::alloc::Global;

// Few, so that entries are dropped for want of room.
const ROOM: u32 = 4;

const LIVES: Lives = Lives {
    ttl: 9,
    neg_ttl: 3,
    stale: 5,
};

/// Adds the first call whose answer isn't that of the lists, with both answers.
pub fn put_twin(alloc: Global, out: &mut String, args: &Args) -> Result<(), NoMemory> {
    let mut dice = Dice::new(part(args, 1, 0));
    let calls = part(args, 2, 0);
    match args.text(0) {
        "local" => put_local_twin(alloc, out, &mut dice, calls),
        "table" => put_table_twin(alloc, out, &mut dice, calls),
        _ => put_unknown(out),
    }
}

fn put_local_twin(
    alloc: Global,
    out: &mut String,
    dice: &mut Dice,
    calls: u64,
) -> Result<(), NoMemory> {
    let mut level = Local::new(alloc, ROOM, 2)?;
    let mut plain = PlainLevel::new(alloc, ROOM, 2);
    for _ in 0..calls {
        if has_local_difference(alloc, out, dice, &mut level, &mut plain)? {
            return Ok(());
        }
    }
    put(out, "no difference")
}

fn has_local_difference(
    alloc: Global,
    out: &mut String,
    dice: &mut Dice,
    level: &mut Local<Text, Text>,
    plain: &mut PlainLevel,
) -> Result<bool, NoMemory> {
    let (mut call, mut real, mut other) = (
        String::new(alloc),
        String::new(alloc),
        String::new(alloc),
    );
    put_local_call(&mut call, dice, level.pos())?;
    put_local_answer(alloc, &mut real, level, call.as_str())?;
    plain.put_call(&mut other, call.as_str())?;
    put_difference(out, call.as_str(), real.as_str(), other.as_str())
}

fn put_table_twin(
    alloc: Global,
    out: &mut String,
    dice: &mut Dice,
    calls: u64,
) -> Result<(), NoMemory> {
    let mut node = Node::new(alloc, ROOM, 2, LIVES)?;
    let told = put_table_differences(alloc, out, dice, &mut node, calls);
    node.close();
    told
}

fn put_table_differences(
    alloc: Global,
    out: &mut String,
    dice: &mut Dice,
    node: &mut Node,
    calls: u64,
) -> Result<(), NoMemory> {
    let mut plain = PlainTable::new(alloc, ROOM, 2, LIVES);
    for _ in 0..calls {
        if has_table_difference(alloc, out, dice, node, &mut plain)? {
            return Ok(());
        }
    }
    put(out, "no difference")
}

fn has_table_difference(
    alloc: Global,
    out: &mut String,
    dice: &mut Dice,
    node: &mut Node,
    plain: &mut PlainTable,
) -> Result<bool, NoMemory> {
    let (mut call, mut real, mut other) = (
        String::new(alloc),
        String::new(alloc),
        String::new(alloc),
    );
    put_table_call(&mut call, dice, node.pos())?;
    node.put_answer(alloc, &mut real, call.as_str())?;
    plain.put_call(&mut other, call.as_str())?;
    put_difference(out, call.as_str(), real.as_str(), other.as_str())
}

fn put_difference(out: &mut String, call: &str, real: &str, plain: &str) -> Result<bool, NoMemory> {
    if real == plain {
        return Ok(false);
    }
    write!(out, "{call}: {real}, by the lists {plain}")?;
    Ok(true)
}
