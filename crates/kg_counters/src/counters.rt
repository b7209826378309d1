//! The counts and their history.

ghost use Rattle.std.proofs.Props.{props};
ghost use Rattle.std.specs.Prelude.{◌≡◌, [], ◌∷◌, ◌++◌, All, IfOk, OnOk, length};
ghost use mathlib.Core.List.{IsPrefix};
ghost use Rattle.kg_counters.specs.Reserved.{IsReserved};
ghost use Rattle.kg_history.specs.Sights.{IsFresh};
ghost use Rattle.kg_limit.specs.Judging.{verdict_after};
ghost use Rattle.kg_limit.specs.Representing.{Represents};

use kg_history::{Blank, HistoryName, Note, Pass, Writer};
use kg_limit::{Hit, Verdict, Windows};
use kg_text::NoMemory;
use std::alloc::Global;

/// The counts of hits, and the writer of the list of these hits. Contracts see both.
#[derive(Drop)]
pub struct Counters<M: HistoryName> {
    windows: Windows,
    writer: Writer<Hit, M>,
    ghost counts: { Represents windows writer } by { Prim.hlevel props },
}

/// No hits yet, and the passes of their history. Without memory the history is gone.
pub fn make_counters<M: HistoryName>(
    alloc: Global,
    blank: Blank<Hit>,
) -> Result<(Counters<M>, Vec<Pass<Hit, M>>), NoMemory>
    requires { blank.history ≡ M.history }
    ensures hits { IfOk result (λ made. made.0.writer ≡ []) }
    ensures count { IfOk result (λ made. length made.1.items ≡ blank.passes) }
    ensures passes { IfOk result (λ made. All (λ pass. IsFresh pass []) made.1.items) }
{
    let (writer, passes) = blank.open::<M>(alloc)?;
    let counters = Counters {
        windows: Windows::new(alloc),
        writer,
    };
    Ok((counters, passes))
}

impl<M: HistoryName> Counters<M> {
    /// Takes the memory that a hit needs. It answers `NoMemory` where 2^62 hits were counted, too.
    pub fn reserve(&mut self, alloc: Global, hit: &Hit) -> Result<(), NoMemory>
        ensures same { self.new.writer ≡ self.old.writer }
        ensures room { OnOk result (IsReserved self.new.writer self.new.windows hit.entry.now) }
    {
        self.windows.reserve(alloc, hit)
    }

    /// Counts a hit and judges it. It takes no memory: `reserve` took it.
    pub fn hit(&mut self, hit: &Hit) -> Verdict
        requires { IsReserved self.old.writer self.old.windows hit.now }
        ensures verdict { result ≡ verdict_after self.old.writer hit.entry.now }
        ensures hits { self.new.writer ≡ self.old.writer ++ hit.entry.now ∷ [] }
    {
        let verdict = self.windows.hit(hit);
        self.writer.append(hit);
        verdict
    }

    /// Tells all hits.
    pub fn note(&mut self) -> Note<Hit, M>
        ensures note { result ≡ self.old.writer }
        ensures hits { self.new.writer ≡ self.old.writer }
        ensures counts { self.new.windows ≡ self.old.windows }
    {
        self.writer.note()
    }

    /// Takes a note: what it tells is the front of the list of hits.
    pub fn tie(&mut self, note: Note<Hit, M>)
        ensures front { IsPrefix note self.old.writer }
        ensures hits { self.new.writer ≡ self.old.writer }
        ensures counts { self.new.windows ≡ self.old.windows }
    {
        self.writer.tie(note);
    }

    /// Lets a pass see all hits.
    pub fn show(&mut self, pass: &mut Pass<Hit, M>)
        ensures whole { pass.new.seen ≡ self.old.writer }
        ensures front { IsPrefix pass.old.seen self.old.writer }
        ensures hits { self.new.writer ≡ self.old.writer }
        ensures counts { self.new.windows ≡ self.old.windows }
        ensures looks { (pass.new.looks ≡ pass.old.looks) × (pass.new.last ≡ pass.old.last) }
    {
        self.writer.show(pass);
    }
}
