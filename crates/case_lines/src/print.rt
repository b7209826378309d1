//! What a case gives, as it is printed.

use kg_text::NoMemory;

// The longest value that is printed whole, in bytes.
const LONGEST: usize = 60;

/// Adds a text as it is.
pub fn put(out: &mut String, text: &str) -> Result<(), NoMemory> {
    out.push_str(text)?;
    Ok(())
}

/// Adds a number.
pub fn put_number(out: &mut String, number: u64) -> Result<(), NoMemory> {
    write!(out, "{number}")?;
    Ok(())
}

/// Adds `yes` or `no`.
pub fn put_truth(out: &mut String, holds: bool) -> Result<(), NoMemory> {
    put(out, if holds { "yes" } else { "no" })
}

/// Adds what a call gives that isn't there.
pub fn put_unknown(out: &mut String) -> Result<(), NoMemory> {
    put(out, "no such call")
}

/// Adds bytes with the signs of a line.
pub fn put_bytes(out: &mut String, bytes: &[u8]) -> Result<(), NoMemory> {
    for byte in bytes {
        put_byte(out, *byte)?;
    }
    Ok(())
}

fn put_byte(out: &mut String, byte: u8) -> Result<(), NoMemory> {
    match byte {
        b'\r' => put(out, "\\r"),
        b'\n' => put(out, "\\n"),
        b'\t' => put(out, "\\t"),
        b'\\' => put(out, "\\\\"),
        0x20..=0x7E => put_plain(out, byte),
        _ => put_hex(out, byte),
    }
}

fn put_plain(out: &mut String, byte: u8) -> Result<(), NoMemory> {
    out.push(char::from(byte))?;
    Ok(())
}

fn put_hex(out: &mut String, byte: u8) -> Result<(), NoMemory> {
    write!(out, "\\x{byte:02X};")?;
    Ok(())
}

/// Adds bytes; of more than 60 of them only the number.
pub fn put_value(out: &mut String, value: &[u8]) -> Result<(), NoMemory> {
    if value.len() > LONGEST {
        write!(out, "{} bytes", value.len())?;
        return Ok(());
    }
    put_bytes(out, value)
}

/// Adds the bytes that were found, or `none`.
pub fn put_found(out: &mut String, found: Option<&[u8]>) -> Result<(), NoMemory> {
    match found {
        Some(bytes) => put_bytes(out, bytes),
        None => put(out, "none"),
    }
}

/// Adds the number that is known, or `none`.
pub fn put_known(out: &mut String, known: Option<u64>) -> Result<(), NoMemory> {
    match known {
        Some(number) => put_number(out, number),
        None => put(out, "none"),
    }
}
