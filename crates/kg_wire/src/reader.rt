//! Reading the requests of a connection, one after another.

ghost use Rattle.std.specs.Prelude.{◌≡◌, ◌≤◌, ◌<◌, ◌+◌, List, ℕ, [], ◌++◌, Some, None, Ok, Err, IsTrue, IfOk, OnOk, IfErr, OnErr, IsErrOf, length, take, drop};
ghost use Rattle.httparse.specs.Grammar.{HasNoRequest};
ghost use Rattle.kg_outside.specs.Causes.{Rose};
ghost use Rattle.kg_outside.specs.Moves.{with_front};
ghost use Rattle.kg_wire.specs.Messages.{most_head, BeginsNoRequest, Message, print_message, request_of, request_with, IsRequest};
ghost use Rattle.kg_wire.specs.Reading.{Counts, Grows, Takes, Gives, Ends, IsUnlessPrevented, RefusesUnlessPrevented};
ghost use Rattle.kg_wire.specs.Refusals.{IsBad, IsCut};
ghost use Rattle.kg_wire.specs.Targets.{is_target};
ghost use Rattle.kg_wire.specs.ReadingSteps.{Fills, FillsHead, FindsHead, FindsStart, IsOpen, IsStart, error_of};
ghost use Rattle.kg_wire.specs.declared.reader.ReadError.{ReadError as AnError};
ghost use Rattle.kg_wire.specs.declared.reader.ReadError.TheVariants.{NoMemory as OutOfMemory};

use crate::checks::body_len;
use crate::head::{Head, copy_head, make_request};
use crate::head_end::has_head_end;
use crate::held::{FillError, Held};
use crate::judge::{FIRST_FIELDS, Judged, MOST_HEAD, judge};
use httparse::spans::{EMPTY_HEADER_SPAN, HeaderSpan, RequestSpans};
use kg_message::Request;
use kg_outside::Source;
use kg_text::{Bytes, NoMemory};
use std::alloc::Global;
use std::marker::Model;

/// The length of the longest body, in bytes.
pub const MOST_BODY: u64 = 8_388_608;

/// Why the next request of a connection could not be had. Each later call answers the same.
#[derive(Clone, Copy, Debug, PartialEq, Eq, Hash)]
pub enum ReadError {
    /// No request begins here, whatever follows. `at` counts the bytes of the requests before.
    Bad { at: u64 },
    /// The head is longer than 65,536 bytes. It isn't answered yet: `Bad` is.
    HeadTooLarge,
    /// The body is longer than 8,388,608 bytes. It isn't answered yet: `Bad` is.
    BodyTooLarge,
    /// The source ended inside a request, of which there are `have` bytes.
    Cut { have: u64 },
    /// The source failed, where no whole request was held.
    ReadFault,
    /// There was no memory. Bytes may be lost.
    NoMemory,
}

impl From<FillError> for ReadError {
    ghost from_gives = { λ f e. e ≡ error_of f };

    fn from(error: FillError) -> ReadError {
        match error {
            FillError::Fault => ReadError::ReadFault,
            FillError::NoMemory => ReadError::NoMemory,
        }
    }
}

impl From<NoMemory> for ReadError {
    ghost from_gives = { λ _ e. e ≡ OutOfMemory };

    fn from(_: NoMemory) -> ReadError {
        ReadError::NoMemory
    }
}

/// The start of a message: its head, which passes all checks.
#[derive(Drop)]
pub struct Start {
    pub head: Head,
    /// In bytes.
    pub head_len: usize,
    /// Of the head and the body, in bytes.
    pub message_len: usize,
}

/// Reads the requests of a connection, one after another. Contracts see what it holds, where it is,
/// the error that it ended with, and the client's address.
#[derive(Drop)]
pub struct Reader {
    held: Held,
    // Where the fields of a head are put.
    room: Vec<HeaderSpan>,
    at: u64,
    error: Option<ReadError>,
    address: [u8; 4],
}

impl Model for Reader {
    ghost use Rattle.kg_wire.specs.Reading.{ReaderState};

    ghost Value = { ReaderState };

    ghost view = { λ r. record { held = r.held; at = r.at; error = r.error; address = r.address } };
}

impl Reader {
    /// A reader at the beginning of a connection. `address` is the client's IPv4 address.
    pub fn new(alloc: Global, address: [u8; 4]) -> Result<Reader, NoMemory>
        ensures { IfOk result (λ reader. reader ≡ record { held = []; at = 0; error = None; address = address }) }
    {
        Ok(Reader {
            held: Held::new(alloc),
            room: vec![in alloc; EMPTY_HEADER_SPAN; FIRST_FIELDS]?,
            at: 0,
            error: None,
            address,
        })
    }

    /// Reads the next request. `None` is the end of the connection: the source ended where no request
    /// had begun. A request is answered as soon as it is whole: nothing behind it is read. After an error each
    /// later call answers the same and reads nothing.
    pub fn next_request<S: Source>(
        &mut self,
        alloc: Global,
        source: &mut S,
    ) -> Result<Option<Request>, ReadError>
        ensures ok { IfOk result (Gives self.old self.new (S.left source.old) (S.left source.new)) }
        ensures err { self.old.error ≡ None → IfErr result (Ends self.old.at self.old.held self.new.held (S.left source.old) (S.left source.new)) }
        ensures reads { (m : Message) (rest : List ℕ) → self.old.error ≡ None → IsRequest m
            → with_front self.old.held (S.left source.old) ≡ Some (print_message m ++ rest)
            → IsUnlessPrevented result (Some (request_of self.old.address m)) }
        ensures ended { self.old.error ≡ None → with_front self.old.held (S.left source.old) ≡ Some [] → IsUnlessPrevented result None }
        ensures bad { (rest : List ℕ) → self.old.error ≡ None → with_front self.old.held (S.left source.old) ≡ Some rest
            → IsBad rest → RefusesUnlessPrevented result (AnError.Bad self.old.at) }
        ensures cut { (rest : List ℕ) → self.old.error ≡ None → with_front self.old.held (S.left source.old) ≡ Some rest
            → IsCut rest → RefusesUnlessPrevented result (AnError.Cut (length rest)) }

        // Nothing is read where the answer is held: a whole request, or what is refused.
        ensures whole { (m : Message) (rest : List ℕ) → self.old.error ≡ None → IsRequest m → self.old.held ≡ print_message m ++ rest
            → source.new ≡ source.old }
        ensures refused { self.old.error ≡ None → IsBad self.old.held → source.new ≡ source.old }

        // After an error.
        ensures again { (e : AnError) → self.old.error ≡ Some e → (result ≡ Err e) × (self.new ≡ self.old) × (source.new ≡ source.old) }
        ensures stays { IfErr result (λ e. self.new.error ≡ Some e) }
        ensures fresh { OnOk result (self.new.error ≡ None) }
        ensures address { self.new.address ≡ self.old.address }
        ensures kept { OnOk result (S.faults source.new ≡ S.faults source.old) }
        ensures beside { S.beside source.new ≡ S.beside source.old }
        ensures read { self.old.error ≡ None → IsErrOf result AnError.ReadFault → Rose (S.faults source.old) (S.faults source.new) }
        ensures counts { self.old.error ≡ None → IfErr result (Counts (S.faults source.old) (S.faults source.new)) }
        ensures later { S.faults source.old ≤ S.faults source.new }
    {
        if let Some(error) = self.error {
            return Err(error);
        }
        let result = self.read(alloc, source);
        if let Err(error) = result {
            self.error = Some(error);
        }
        result
    }

    // As `next_request` where no error was told before, which is noted there, once for all ends.
    fn read<S: Source>(
        &mut self,
        alloc: Global,
        source: &mut S,
    ) -> Result<Option<Request>, ReadError>
        ensures ok { IfOk result (Gives self.old self.new (S.left source.old) (S.left source.new)) }
        ensures err { IfErr result (Ends self.old.at self.old.held self.new.held (S.left source.old) (S.left source.new)) }
        ensures error { self.new.error ≡ self.old.error }
        ensures address { self.new.address ≡ self.old.address }
        ensures kept { OnOk result (S.faults source.new ≡ S.faults source.old) }
        ensures beside { S.beside source.new ≡ S.beside source.old }
        ensures counts { IfErr result (Counts (S.faults source.old) (S.faults source.new)) }
        ensures whole { (m : Message) (rest : List ℕ) → IsRequest m → self.old.held ≡ print_message m ++ rest → source.new ≡ source.old }
        ensures refused { IsBad self.old.held → source.new ≡ source.old }
    {
        match next_head(alloc, source, &mut self.held, &mut self.room, self.at)? {
            Some(start) => Ok(Some(self.take_request(alloc, source, start)?)),
            None => Ok(None),
        }
    }

    // Takes the message that begins here, once all of it is held.
    fn take_request<S: Source>(
        &mut self,
        alloc: Global,
        source: &mut S,
        start: Start,
    ) -> Result<Request, ReadError>
        requires { IsStart self.old.held start }
        ensures ok { IfOk result (Takes self.old self.new (S.left source.old) (S.left source.new)) }
        ensures err { IfErr result (Ends self.old.at self.old.held self.new.held (S.left source.old) (S.left source.new)) }
        ensures error { self.new.error ≡ self.old.error }
        ensures address { self.new.address ≡ self.old.address }
        ensures kept { OnOk result (S.faults source.new ≡ S.faults source.old) }
        ensures beside { S.beside source.new ≡ S.beside source.old }
        ensures counts { IfErr result (Counts (S.faults source.old) (S.faults source.new)) }
        ensures unread { start.message_len ≤ length self.old.held → source.new ≡ source.old }
    {
        match fill_message(source, &mut self.held, &start, self.at) {
            Ok(()) => Ok(self.take_held(alloc, start)?),
            Err(error) => {
                drop(start); // let go by name, with no `?` beside it: a short proof
                Err(error)
            }
        }
    }

    // Takes the message that begins here, all of which is held.
    fn take_held(&mut self, alloc: Global, start: Start) -> Result<Request, NoMemory>
        requires lens { (start.head_len ≤ start.message_len) × (start.message_len ≤ length self.old.held) }
        requires target { IsTrue (is_target start.head.target) }
        ensures ok { IfOk result (λ request. request ≡ request_with self.old.address start.head (drop start.head_len (take start.message_len self.old.held))) }
        ensures held { OnOk result (self.new.held ≡ drop start.message_len self.old.held) }
        ensures at { OnOk result (self.new.at ≡ self.old.at + start.message_len) }
        ensures error { self.new.error ≡ self.old.error }
        ensures address { self.new.address ≡ self.old.address }
    {
        let Start {
            head,
            head_len,
            message_len,
        } = start;
        let message = self.held.as_slice().split_at(message_len).0;
        let body = match Bytes::from_slice(alloc, message.split_at(head_len).1) {
            Ok(body) => body,
            Err(_) => {
                drop(head); // here and below: a short proof
                return Err(NoMemory);
            }
        };
        let Some(at) = self.at.checked_add(message_len as u64) else {
            drop(head);
            drop(body);
            return Err(NoMemory);
        };
        let request = make_request(alloc, head, body, self.address)?;
        self.held.take(message_len);
        self.at = at;
        Ok(request)
    }
}

// Reads one piece more, and answers how long it is. 0 is the end of the source. Nothing is asked for where a
// whole request is held.
fn read_more<S: Source>(source: &mut S, held: &mut Held) -> Result<usize, FillError>
    requires { BeginsNoRequest held.old }
    ensures ok { IfOk result (Fills held.old held.new (S.left source.old) (S.left source.new)) }
    ensures err { OnErr result ((held.new ≡ held.old) × (S.left source.new ≡ S.left source.old)) }
    ensures kept { OnOk result (S.faults source.new ≡ S.faults source.old) }
    ensures beside { S.beside source.new ≡ S.beside source.old }
    ensures counts { IfErr result (λ f. Counts (S.faults source.old) (S.faults source.new) (error_of f)) }
{
    held.fill(source)
}

// Reads on until more can be told of a head: the end of one may have come, twice as much is held as
// before, or as many bytes as the longest head has, or the source ended. Answers whether it ended. A head
// is judged once it is whole, and before that so seldom that all judging together takes linear time.
fn fill_head<S: Source>(source: &mut S, held: &mut Held) -> Result<bool, FillError>
    requires short { length held.old < most_head }
    requires none { HasNoRequest held.old }
    ensures ok { IfOk result (FillsHead held.old held.new (S.left source.old) (S.left source.new)) }
    ensures err { OnErr result (Grows held.old held.new (S.left source.old) (S.left source.new)) }
    ensures none { OnErr result (BeginsNoRequest held.new) }
    ensures kept { OnOk result (S.faults source.new ≡ S.faults source.old) }
    ensures beside { S.beside source.new ≡ S.beside source.old }
    ensures counts { IfErr result (λ f. Counts (S.faults source.old) (S.faults source.new) (error_of f)) }
{
    let judged = held.len();
    while held.len() < MOST_HEAD {
        let before = held.len();
        if read_more(source, held)? == 0 {
            return Ok(true);
        }
        if held.len() >= 2 * judged || has_head_end(held.as_slice(), before) {
            return Ok(false);
        }
    }
    Ok(false)
}

// Reads until a whole head is held. `None`: the source ended where no message had begun.
fn find_head<S: Source>(
    source: &mut S,
    held: &mut Held,
    room: &mut Vec<HeaderSpan>,
    at: u64,
) -> Result<Option<RequestSpans>, ReadError>
    ensures ok { IfOk result (FindsHead held.old held.new room.new.items (S.left source.old) (S.left source.new)) }
    ensures err { IfErr result (Ends at held.old held.new (S.left source.old) (S.left source.new)) }
    ensures kept { OnOk result (S.faults source.new ≡ S.faults source.old) }
    ensures beside { S.beside source.new ≡ S.beside source.old }
    ensures counts { IfErr result (Counts (S.faults source.old) (S.faults source.new)) }
    ensures unread { (IsOpen held.old → ⊥) → source.new ≡ source.old }
{
    let mut ended = false;
    loop {
        match judge(held.as_slice(), room)? {
            Judged::Whole(spans) => return Ok(Some(spans)),
            Judged::Never => return Err(ReadError::Bad { at }),
            Judged::Open => {}
        }
        if ended {
            return nothing_whole(held);
        }
        ended = fill_head(source, held)?;
    }
}

// What the end of the source says of bytes that have no whole head.
fn nothing_whole(held: &Held) -> Result<Option<RequestSpans>, ReadError>
    requires { IsOpen held.now }
    ensures none { OnOk result ((result ≡ Ok None) × (held.now ≡ [])) }
    ensures cut { IfErr result (λ e. (e ≡ AnError.Cut (length held.now)) × IsCut held.now) }
{
    let have = held.len();
    if have == 0 {
        return Ok(None);
    }
    Err(ReadError::Cut { have: have as u64 })
}

// Reads until the head of the next message is held, and checks it. `None`: the source ended where no
// message had begun.
fn next_head<S: Source>(
    alloc: Global,
    source: &mut S,
    held: &mut Held,
    room: &mut Vec<HeaderSpan>,
    at: u64,
) -> Result<Option<Start>, ReadError>
    ensures ok { IfOk result (FindsStart held.old held.new (S.left source.old) (S.left source.new)) }
    ensures err { IfErr result (Ends at held.old held.new (S.left source.old) (S.left source.new)) }
    ensures kept { OnOk result (S.faults source.new ≡ S.faults source.old) }
    ensures beside { S.beside source.new ≡ S.beside source.old }
    ensures counts { IfErr result (Counts (S.faults source.old) (S.faults source.new)) }
    ensures unread { (IsOpen held.old → ⊥) → source.new ≡ source.old }
{
    let spans = match find_head(source, held, room, at)? {
        Some(spans) => spans,
        None => return Ok(None),
    };
    let head = copy_head(alloc, held.as_slice(), room.as_slice(), &spans)?;
    let body_len = match body_len(&head) {
        Some(body_len) => body_len,
        None => return Err(ReadError::Bad { at }),
    };
    if body_len > MOST_BODY {
        return Err(ReadError::Bad { at });
    }
    Ok(Some(Start {
        head,
        head_len: spans.len,
        message_len: spans.len + body_len as usize,
    }))
}

// Reads until the whole message is held.
fn fill_message<S: Source>(
    source: &mut S,
    held: &mut Held,
    start: &Start,
    at: u64,
) -> Result<(), ReadError>
    requires { IsStart held.old start.now }
    ensures ok { OnOk result (Grows held.old held.new (S.left source.old) (S.left source.new)) }
    ensures whole { OnOk result (start.now.message_len ≤ length held.new) }
    ensures err { IfErr result (Ends at held.old held.new (S.left source.old) (S.left source.new)) }
    ensures kept { OnOk result (S.faults source.new ≡ S.faults source.old) }
    ensures beside { S.beside source.new ≡ S.beside source.old }
    ensures counts { IfErr result (Counts (S.faults source.old) (S.faults source.new)) }
    ensures unread { start.now.message_len ≤ length held.old → source.new ≡ source.old }
{
    while held.len() < start.message_len {
        if read_more(source, held)? == 0 {
            let have = held.len() as u64;
            return Err(ReadError::Cut { have });
        }
    }
    Ok(())
}
