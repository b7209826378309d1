//! A list of numbers.

use case_lines::{Args, put_known, put_unknown};
use kg_text::{List, NoMemory};

pub fn put_list_answer(
    out: &mut String,
    list: &mut List<u32>,
    call: &str,
    args: &Args,
) -> Result<(), NoMemory> {
    match call {
        "push" => list.push(number(args, 0))?,
        "set" => set(list, args.number(0), number(args, 1)),
        "drop" => drop_each(list, number(args, 0)),
        "get" => return put_item(out, list.get(args.number(0)).copied()),
        "pop" => return put_item(out, list.pop()),
        _ => return put_unknown(out),
    }
    put_all(out, list)
}

fn number(args: &Args, index: usize) -> u32 {
    args.text(index).parse().unwrap_or(0)
}

fn set(list: &mut List<u32>, index: usize, item: u32) {
    if index < list.len() {
        list.set(index, item);
    }
}

fn drop_each(list: &mut List<u32>, dropped: u32) {
    list.retain(|item| *item != dropped);
}

fn put_item(out: &mut String, item: Option<u32>) -> Result<(), NoMemory> {
    put_known(out, item.map(u64::from))
}

fn put_all(out: &mut String, list: &List<u32>) -> Result<(), NoMemory> {
    write!(out, "{} of {:?}", list.len(), list.as_slice())?;
    Ok(())
}
