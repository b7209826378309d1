//! Lines of cases, as the test programs read them, and how they print what a case gives.
//!
//! A line is a subject and a call, and then arguments, each after ` | `. In an argument `\r`, `\n`, `\t` and
//! `\\` stand for one byte, `\xFF;` for the byte of that number, `\e` for nothing, and `\{TEXT*N}` for N times
//! the text. What is printed has the same signs.
#![tactic(auto)]

mod args;
mod escape;
mod line;
mod print;
mod repeat;

pub use crate::args::{Args, args_of, numbers_of};
pub use crate::line::{Line, line_of, split};
pub use crate::print::{
    put, put_bytes, put_found, put_known, put_number, put_truth, put_unknown, put_value,
};
