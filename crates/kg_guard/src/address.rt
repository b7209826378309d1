//! Blocks of IPv4 addresses, compared as numbers.

ghost use Rattle.std.specs.Prelude.{◌≡◌, ◌≤◌, ◌==◌, ◌||◌, IsTrue, drop, if◌then◌else◌, length};
ghost use Rattle.std.specs.Str.Parse.{digits_value};
ghost use Rattle.kg_row_types.specs.ConfigTexts.{is_decimal_within, is_ipv4, is_ipv4_block};
ghost use Rattle.kg_guard.specs.Addresses.{address_number, block_bits, block_number, is_in_block, octets_of, share_bits};

use kg_field_rules::parts::{number_of, split_before};

// How many bits an address has.
const ADDRESS_BITS: u32 = 32;

/// Is the address one of the block?
pub fn is_in_block(address: [u8; 4], block: &[u8]) -> bool
    requires { IsTrue (is_ipv4_block block.now) }
    ensures { result ≡ is_in_block address block.now }
{
    share_bits(
        block_bits(block),
        address_number(address),
        block_number(block),
    )
}

// Do the two numbers of 32 bits share so many leading bits?
fn share_bits(bits: u32, a: u32, b: u32) -> bool
    requires { bits ≤ 32 }
    ensures { result ≡ share_bits bits a b }
{
    let size = 1_u64 << (ADDRESS_BITS - bits);
    u64::from(a) / size == u64::from(b) / size
}

// The number of an address: its octets, the first one highest.
fn address_number(octets: [u8; 4]) -> u32
    ensures { result ≡ address_number octets }
{
    let [first, second, third, fourth] = octets;
    ((u32::from(first) * 256 + u32::from(second)) * 256 + u32::from(third)) * 256
        + u32::from(fourth)
}

// The address of a block: what stands before the `/`.
fn block_number(block: &[u8]) -> u32
    requires { IsTrue (is_ipv4_block block.now) }
    ensures { result ≡ block_number block.now }
{
    dotted_number(split_before(b'/', block).0)
}

// The number of an address in dotted decimal.
fn dotted_number(text: &[u8]) -> u32
    requires { IsTrue (is_ipv4 text.now) }
    ensures { result ≡ address_number (octets_of text.now) }
{
    let mut number = 0;
    let mut rest = text;
    loop {
        let (part, behind) = split_before(b'.', rest);
        number = number * 256 + decimal(255, part);
        match behind {
            [] => return number,
            [_, more @ ..] => rest = more,
        }
    }
}

// How many leading bits a block's addresses share.
fn block_bits(block: &[u8]) -> u32
    requires { IsTrue (is_ipv4_block block.now) }
    ensures value { result ≡ block_bits block.now }
    ensures within { result ≤ 32 }
{
    bits_of(split_before(b'/', block).1)
}

// The number behind a `/`, or all bits where nothing stands there.
fn bits_of(behind: &[u8]) -> u32
    requires { IsTrue (length behind.now == 0 || is_decimal_within 32 (drop 1 behind.now)) }
    ensures value { result ≡ (if length behind.now == 0 then 32 else digits_value 10 (drop 1 behind.now)) }
    ensures within { result ≤ 32 }
{
    match behind {
        [] => ADDRESS_BITS,
        [_, digits @ ..] => decimal(32, digits),
    }
}

// The number that decimal digits tell, where that is at most `most`.
fn decimal(most: u16, digits: &[u8]) -> u32
    requires { IsTrue (is_decimal_within most digits.now) }
    ensures value { result ≡ digits_value 10 digits.now }
    ensures within { result ≤ most }
{
    match number_of(digits) {
        Some(number) => u32::from(number),
        None => unreachable!(),
    }
}
