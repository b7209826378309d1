//! The parts of a line.

/// A line of a case, in its parts.
#[derive(Clone, Copy)]
pub struct Line<'a> {
    /// What the case is about.
    pub subject: &'a str,
    /// What is called.
    pub call: &'a str,
    /// The arguments, each but the first after ` | `.
    pub rest: &'a str,
}

/// The parts of a line.
pub fn line_of(text: &str) -> Line<'_> {
    let (head, rest) = split(text, " | ");
    let (subject, call) = split(head, " ");
    Line {
        subject,
        call,
        rest,
    }
}

/// What stands before and behind the first such mark: all and nothing where there is none.
pub fn split<'a>(text: &'a str, mark: &'static str) -> (&'a str, &'a str) {
    match text.split_once(mark) {
        Some((front, rest)) => (front, rest),
        None => (text, ""),
    }
}
