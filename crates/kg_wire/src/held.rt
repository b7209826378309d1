//! Bytes that were read and not yet taken.

ghost use Rattle.std.specs.Prelude.{◌≡◌, ◌≤◌, ◌<◌, ◌+◌, ◌-◌, ℕ, [], IfOk, OnOk, IfErr, OnErr, IsErrOf, length, take, drop, slice_range};
ghost use Rattle.kg_wire.specs.declared.held.FillError.{FillError as Failure};
ghost use Rattle.kg_wire.specs.declared.held.FillError.TheVariants.{Fault, NoMemory as OutOfMemory};
ghost use Rattle.kg_wire.specs.Reading.{Counts};
ghost use Rattle.kg_wire.specs.ReadingSteps.{Fills, error_of};

use kg_outside::{Failed, Source};
use std::alloc::{AllocError, Global};
use std::marker::Model;

// By how many bytes the room grows.
const PIECE: usize = 16 * 1024;

// How many bytes a read asks for at least.
const LEAST_ROOM: usize = 4 * 1024;

/// Why no more bytes could be had.
#[derive(Clone, Copy)]
pub enum FillError {
    /// The source failed.
    Fault,
    /// There was no memory for more bytes.
    NoMemory,
}

impl From<AllocError> for FillError {
    ghost from_gives = { λ _ e. e ≡ OutOfMemory };

    fn from(_: AllocError) -> FillError {
        FillError::NoMemory
    }
}

impl From<Failed> for FillError {
    ghost from_gives = { λ _ e. e ≡ Fault };

    fn from(_: Failed) -> FillError {
        FillError::Fault
    }
}

/// The bytes of a stream that were read and not yet taken.
#[derive(Drop)]
pub struct Held {
    // The bytes held stand from `start` up to `end`. Behind them is room for the next read.
    bytes: Vec<u8>,
    start: usize,
    end: usize,
}

impl Model for Held {
    ghost use Rattle.std.specs.Prelude.{List, ℕ, ◌≤◌, length, slice_range};

    ghost Value = { List ℕ };

    ghost view = { λ held. slice_range held.bytes.items held.start held.end };

    ghost invariant = { λ held. (held.start ≤ held.end) × (held.end ≤ length held.bytes.items) };
}

impl Held {
    /// No bytes. It takes no memory.
    pub fn new(alloc: Global) -> Held
        ensures { result ≡ [] }
    {
        Held {
            bytes: Vec::new(alloc),
            start: 0,
            end: 0,
        }
    }

    pub fn as_slice(&self) -> &[u8]
        ensures { result.now ≡ self.now }
    {
        &self.bytes[self.start..self.end]
    }

    pub fn len(&self) -> usize
        ensures { result ≡ length self.now }
    {
        self.end - self.start
    }

    /// Reads one piece behind the bytes, and answers how long it is. 0 is the end of the source. The
    /// bytes held are moved to the front first, if others were taken before them: as these all come
    /// before the next read, a stream is read in linear time.
    pub fn fill<S: Source>(&mut self, source: &mut S) -> Result<usize, FillError>
        ensures ok { IfOk result (Fills self.old self.new (S.left source.old) (S.left source.new)) }
        ensures err { OnErr result ((self.new ≡ self.old) × (S.left source.new ≡ S.left source.old)) }
        ensures kept { OnOk result (S.faults source.new ≡ S.faults source.old) }
        ensures beside { S.beside source.new ≡ S.beside source.old }
        ensures counts { IfErr result (λ f. Counts (S.faults source.old) (S.faults source.new) (error_of f)) }
    {
        let len = self.len();
        move_to_front(&mut self.bytes, self.start, self.end);
        self.start = 0;
        self.end = len;
        let read = read_behind(source, &mut self.bytes, len)?;
        self.end = len + read;
        Ok(read)
    }

    /// Takes the first `n` bytes off.
    pub fn take(&mut self, n: usize)
        requires { n ≤ length self.old }
        ensures { self.new ≡ drop n self.old }
    {
        self.start += n;
    }
}

// Moves the bytes from `start` up to `end` to the front.
fn move_to_front(bytes: &mut Vec<u8>, start: usize, end: usize)
    requires { (start ≤ end) × (end ≤ length bytes.old.items) }
    ensures len { length bytes.new.items ≡ length bytes.old.items }
    ensures front { take (end - start) bytes.new.items ≡ slice_range bytes.old.items start end }
{
    if start > 0 {
        bytes.copy_within(start..end, 0);
    }
}

// Reads behind the first `len` bytes, where room is made for it.
fn read_behind<S: Source>(
    source: &mut S,
    bytes: &mut Vec<u8>,
    len: usize,
) -> Result<usize, FillError>
    requires { len ≤ length bytes.old.items }
    ensures ok { IfOk result (λ n. Fills (take len bytes.old.items) (take (len + n) bytes.new.items) (S.left source.old) (S.left source.new) n) }
    ensures within { IfOk result (λ n. len + n ≤ length bytes.new.items) }
    ensures err { OnErr result ((take len bytes.new.items ≡ take len bytes.old.items) × (S.left source.new ≡ S.left source.old)) }
    ensures long { len ≤ length bytes.new.items }
    ensures kept { OnOk result (S.faults source.new ≡ S.faults source.old) }
    ensures beside { S.beside source.new ≡ S.beside source.old }
    ensures counts { IfErr result (λ f. Counts (S.faults source.old) (S.faults source.new) (error_of f)) }
{
    make_room(bytes, len)?;
    Ok(source.read(bytes.as_mut_slice().split_at_mut(len).1)?)
}

// Makes room behind the first `len` bytes.
fn make_room(bytes: &mut Vec<u8>, len: usize) -> Result<(), FillError>
    requires { len ≤ length bytes.old.items }
    ensures ok { OnOk result (len < length bytes.new.items) }
    ensures front { take len bytes.new.items ≡ take len bytes.old.items }
    ensures long { length bytes.old.items ≤ length bytes.new.items }
    ensures err { IsErrOf result Failure.Fault → ⊥ }
{
    if bytes.len() - len >= LEAST_ROOM {
        return Ok(());
    }
    let Some(size) = bytes.len().checked_add(PIECE) else {
        return Err(FillError::NoMemory);
    };
    bytes.resize(size, 0)?;
    Ok(())
}
