//! The dry run: a declaration and requests on one stream, the replies on another.

ghost use Rattle.std.specs.Prelude.{◌≡◌, ◌⊎◌, ◌↔◌, ℕ, List as Sequence, ◌∷◌, ◌++◌, length, Err, Some, IsTrue, IfErr, IfOk, OnOk};
ghost use Rattle.kg_outside.specs.Causes.{Rose};
ghost use Rattle.kg_declare.specs.Histories.{AreInsertions};
ghost use Rattle.kg_row_values.specs.Rows.{rows_after};
ghost use Rattle.kg_plain.specs.Answered.{AnswersAll, AnswersFront};
ghost use Rattle.kg_plain.specs.Fronts.{IsFront};
ghost use Rattle.kg_lone.specs.DryRun.{IsCutShort, IsDryWords, IsExit, IsWhole};
ghost use Rattle.kg_lone.specs.DryText.{IsCutText, IsDryText, IsEndOf, WritesFront, WritesText, exit_of, most_rows, status_of};
ghost use Rattle.kg_lone.specs.FirstLine.{after_line};
ghost use Rattle.kg_lone.specs.InsertedRows.{gateway_rows};

use crate::commands::first_commands;
use crate::rows::gateway_of;
use crate::status::{BROKEN, DONE, OTHER_WORDS, OUT_OF_MEMORY, READ_FAULT, WRITE_FAULT};
use kg_outside::{Clock, Ids, Sink, Source};
use kg_plain::{End, Gateway, Stop, answer_all};
use kg_rows::Command;
use kg_text::{List, NoMemory, Text};
use std::alloc::Global;

// How many rows of a kind a declaration may have.
const MOST_ROWS: u32 = 100_000;

// Answers the requests behind a declaration by its rows. An error is the status of what cut it short.
fn answered<S: Source, K: Sink, T: Clock>(
    alloc: Global,
    commands: List<Command>,
    source: &mut S,
    sink: &mut K,
    clock: &mut T,
) -> Result<End, u8>
    requires rows { AreInsertions most_rows commands }
    ensures ok { IfOk result (AnswersAll (gateway_rows (rows_after commands) (length commands)) (T.reads clock.old clock.new) (S.left source.old) (K.written sink.old) (K.written sink.new)) }
    ensures err { IfErr result (λ status. IsCutShort status
        × AnswersFront (gateway_rows (rows_after commands) (length commands)) (T.reads clock.old clock.new) (S.left source.old) (K.written sink.old) (K.written sink.new)) }
    ensures kept { OnOk result ((S.faults source.new ≡ S.faults source.old) × (K.faults sink.new ≡ K.faults sink.old)) }
    ensures read { result ≡ Err 4 → Rose (S.faults source.old) (S.faults source.new) }
    ensures write { result ≡ Err 5 → Rose (K.faults sink.old) (K.faults sink.new) }
{
    match gateway_of(alloc, commands) {
        Ok(gateway) => answered_by(alloc, gateway, source, sink, clock),
        Err(NoMemory) => Err(OUT_OF_MEMORY),
    }
}

// Answers the requests of the source.
fn answered_by<S: Source, K: Sink, T: Clock>(
    alloc: Global,
    gateway: Gateway,
    source: &mut S,
    sink: &mut K,
    clock: &mut T,
) -> Result<End, u8>
    ensures ok { IfOk result (AnswersAll gateway (T.reads clock.old clock.new) (S.left source.old) (K.written sink.old) (K.written sink.new)) }
    ensures err { IfErr result (λ status. IsCutShort status
        × AnswersFront gateway (T.reads clock.old clock.new) (S.left source.old) (K.written sink.old) (K.written sink.new)) }
    ensures kept { OnOk result ((S.faults source.new ≡ S.faults source.old) × (K.faults sink.new ≡ K.faults sink.old)) }
    ensures read { result ≡ Err 4 → Rose (S.faults source.old) (S.faults source.new) }
    ensures write { result ≡ Err 5 → Rose (K.faults sink.old) (K.faults sink.new) }
{
    let end = answer_all(alloc, &gateway, source, sink, clock);
    // let go by name: a short proof
    drop(gateway);
    match end {
        Ok(end) => Ok(end),
        Err(Stop::ReadFault) => Err(READ_FAULT),
        Err(Stop::WriteFault) => Err(WRITE_FAULT),
        Err(Stop::NoMemory) => Err(OUT_OF_MEMORY),
    }
}

// The run of the one command that there is.
fn dry<S: Source, K: Sink, T: Clock, I: Ids>(
    alloc: Global,
    source: &mut S,
    sink: &mut K,
    clock: &mut T,
    ids: &mut I,
) -> Result<End, u8>
    ensures statuses { IsWhole (exit_of result) ⊎ IsCutShort (exit_of result) }
    ensures whole { IsWhole (exit_of result) → (bytes : Sequence ℕ) → S.left source.old ≡ Some bytes
        → WritesText (I.draws ids.old ids.new) (T.reads clock.old clock.new) bytes (K.written sink.old) (K.written sink.new) (exit_of result) }
    ensures front { IsCutShort (exit_of result) → (bytes : Sequence ℕ) → S.left source.old ≡ Some bytes
        → WritesFront (I.draws ids.old ids.new) (T.reads clock.old clock.new) bytes (K.written sink.old) (K.written sink.new) }
    ensures end { (bytes : Sequence ℕ) → S.left source.old ≡ Some bytes → IfOk result (IsEndOf (after_line bytes)) }
    ensures kept { IsWhole (exit_of result) → (S.faults source.new ≡ S.faults source.old) × (K.faults sink.new ≡ K.faults sink.old) }
    ensures read { exit_of result ≡ 4 → Rose (S.faults source.old) (S.faults source.new) }
    ensures write { exit_of result ≡ 5 → Rose (K.faults sink.old) (K.faults sink.new) }
{
    let now = clock.now();
    match first_commands(alloc, source, sink, ids, now, MOST_ROWS) {
        Ok(commands) => answered(alloc, commands, source, sink, clock),
        Err(status) => Err(status),
    }
}

fn is_dry(words: &List<Text>) -> bool
    ensures { IsTrue result ↔ IsDryWords words.now }
{
    match words.as_slice() {
        [word] => is_same(word, "dry"),
        _ => false,
    }
}

fn is_same(word: &Text, name: &str) -> bool
    ensures { IsTrue result ↔ (word.now ≡ name.now) }
{
    word.as_str() == name
}

/// Runs the command that the words name, and answers the exit status.
///
/// `dry` reads a declaration in the first line of the source and then requests, and writes the reply to
/// each, up to the first that asks for the end of the connection or the thousandth. A message that is
/// refused before is answered with 400, and no more is read. The status is 0 where the source ended between
/// two messages, the end was asked for or a thousand were answered, 3 where the declaration was refused,
/// and 7 where a message was refused or the source ended inside one. Other words are 2. A run that was cut
/// short is 4 by a fault of the source, 5 by one of the sink, and 6 for want of memory.
pub fn run<S: Source, K: Sink, T: Clock, I: Ids>(
    alloc: Global,
    words: &List<Text>,
    source: &mut S,
    sink: &mut K,
    clock: &mut T,
    ids: &mut I,
) -> u8
    ensures statuses { IsExit result }

    // Other words: nothing is read or written.
    ensures words { (result ≡ 2) ↔ (¬ (IsDryWords words.now)) }
    ensures untouched { result ≡ 2 → (source.new ≡ source.old) × (sink.new ≡ sink.old) × (clock.new ≡ clock.old) × (ids.new ≡ ids.old) }

    // The whole text; or, where the run was cut short, what it had come to: in the first line nothing or a
    // front of the refusal, and behind it whole replies and a front of what comes next.
    ensures whole { IsWhole result → (bytes : Sequence ℕ) → S.left source.old ≡ Some bytes
        → WritesText (I.draws ids.old ids.new) (T.reads clock.old clock.new) bytes (K.written sink.old) (K.written sink.new) result }
    ensures front { IsCutShort result → (bytes : Sequence ℕ) → S.left source.old ≡ Some bytes
        → WritesFront (I.draws ids.old ids.new) (T.reads clock.old clock.new) bytes (K.written sink.old) (K.written sink.new) }

    // A fault is told exactly where the environment failed.
    ensures kept { IsWhole result → (S.faults source.new ≡ S.faults source.old) × (K.faults sink.new ≡ K.faults sink.old) }
    ensures read { result ≡ 4 → Rose (S.faults source.old) (S.faults source.new) }
    ensures write { result ≡ 5 → Rose (K.faults sink.old) (K.faults sink.new) }
{
    match run_to_end(alloc, words, source, sink, clock, ids) {
        Ok(end) => exit_status(end),
        Err(status) => status,
    }
}

/// As `run`, but it also tells how the answering of the requests ended, where it came to an end. An error is the
/// exit status of a run that did not: other words, a refused declaration, or what cut it short.
pub fn run_to_end<S: Source, K: Sink, T: Clock, I: Ids>(
    alloc: Global,
    words: &List<Text>,
    source: &mut S,
    sink: &mut K,
    clock: &mut T,
    ids: &mut I,
) -> Result<End, u8>
    ensures statuses { IsExit (exit_of result) }

    // Other words: nothing is read or written.
    ensures words { (exit_of result ≡ 2) ↔ (¬ (IsDryWords words.now)) }
    ensures untouched { exit_of result ≡ 2 → (source.new ≡ source.old) × (sink.new ≡ sink.old) × (clock.new ≡ clock.old) × (ids.new ≡ ids.old) }

    // The whole text; or, where the run was cut short, what it had come to: in the first line nothing or a
    // front of the refusal, and behind it whole replies and a front of what comes next.
    ensures whole { IsWhole (exit_of result) → (bytes : Sequence ℕ) → S.left source.old ≡ Some bytes
        → WritesText (I.draws ids.old ids.new) (T.reads clock.old clock.new) bytes (K.written sink.old) (K.written sink.new) (exit_of result) }
    ensures front { IsCutShort (exit_of result) → (bytes : Sequence ℕ) → S.left source.old ≡ Some bytes
        → WritesFront (I.draws ids.old ids.new) (T.reads clock.old clock.new) bytes (K.written sink.old) (K.written sink.new) }

    // A fault is told exactly where the environment failed.
    ensures kept { IsWhole (exit_of result) → (S.faults source.new ≡ S.faults source.old) × (K.faults sink.new ≡ K.faults sink.old) }
    ensures read { exit_of result ≡ 4 → Rose (S.faults source.old) (S.faults source.new) }
    ensures write { exit_of result ≡ 5 → Rose (K.faults sink.old) (K.faults sink.new) }

    // The end that it came to.
    ensures end { (bytes : Sequence ℕ) → S.left source.old ≡ Some bytes → IfOk result (IsEndOf (after_line bytes)) }
{
    if is_dry(words) {
        dry(alloc, source, sink, clock, ids)
    } else {
        Err(OTHER_WORDS)
    }
}

/// The exit status of a run that came to this end: 7 where a message was refused or cut off, else 0.
pub fn exit_status(end: End) -> u8
    ensures { result ≡ status_of end }
{
    match end {
        End::Closed => DONE,
        End::Asked => DONE,
        End::Spent => DONE,
        End::Bad { at: _ } => BROKEN,
        End::Cut { have: _ } => BROKEN,
    }
}

/// What a run writes is determined by the bytes, the ids that were drawn and the times that were read, and so
/// is its status.
pub fn one_text()
    ensures status { (bytes : Sequence ℕ) (drawn : Sequence (Sequence ℕ)) (times : Sequence ℕ) (status : ℕ) (text : Sequence ℕ) (code : ℕ) (other : Sequence ℕ)
        → IsDryText bytes drawn times status text → IsDryText bytes drawn times code other → status ≡ code }
    ensures text { (bytes : Sequence ℕ) (drawn : Sequence (Sequence ℕ)) (times : Sequence ℕ) (status : ℕ) (text : Sequence ℕ) (code : ℕ) (other : Sequence ℕ)
        → IsDryText bytes drawn times status text → IsDryText bytes drawn times code other → text ≡ other }
{}

/// What a run that was cut short wrote is a front of what it writes when it goes on: with further ids drawn and
/// further times read.
pub fn cut_text_goes_on()
    ensures { (bytes : Sequence ℕ) (drawn : Sequence (Sequence ℕ)) (times : Sequence ℕ) (front : Sequence ℕ)
        → IsCutText bytes drawn times front
        → (more : Sequence (Sequence ℕ)) (later : Sequence ℕ) (status : ℕ) (text : Sequence ℕ)
        → IsDryText bytes (drawn ++ more) (times ++ later) status text → IsFront front text }
{}
