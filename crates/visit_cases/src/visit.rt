//! What a request wants.

ghost use Rattle.std.specs.Prelude.{◌≡◌, true, false, is_some, IfOk};
ghost use Rattle.visit_cases.specs.Wanted.{wants_upstream};

use crate::print::put_want;
use crate::request::request_of;
use crate::upstream::answer_of;
use case_lines::{Args, put};
use kg_context::Upstream;
use kg_plain::Gateway;
use kg_text::NoMemory;
use kg_visit::{Visit, Want};
use std::alloc::Global;

/// Adds what a request with this method and path wants, and what it wants once it has the answer.
pub fn put_visit(
    alloc: Global,
    out: &mut String,
    gateway: &Option<Box<Gateway>>,
    args: &Args,
) -> Result<(), NoMemory> {
    match gateway {
        Some(gateway) => {
            let request = request_of(alloc, args.text(0), args.text(1))?;
            let mut visit = gateway.visit(alloc, request, 0)?;
            let result = put_course(alloc, out, &mut visit, args);
            drop(visit); // let go by name: a short proof
            result
        }
        None => put(out, "no rows"),
    }
}

fn put_course(
    alloc: Global,
    out: &mut String,
    visit: &mut Visit,
    args: &Args,
) -> Result<(), NoMemory>
    requires whole { visit.old.lost ≡ false }
{
    put_want(out, visit.want())?;
    if wants_upstream(visit.want()) {
        tell(alloc, visit, args)?;
        put(out, " -> ")?;
        put_want(out, visit.want())?;
    }
    Ok(())
}

// Tells it the answer of the line, where it wants one.
fn tell(alloc: Global, visit: &mut Visit, args: &Args) -> Result<(), NoMemory>
    requires whole { visit.old.lost ≡ false }
{
    match answer_to(alloc, visit.want(), args)? {
        Some(answer) => visit.give_upstream(alloc, answer),
        None => Ok(()),
    }
}

fn answer_to(alloc: Global, want: &Want, args: &Args) -> Result<Option<Upstream>, NoMemory>
    ensures { IfOk result (λ answer. is_some answer ≡ wants_upstream want.now) }
{
    if wants_upstream(want) {
        Ok(Some(answer_of(alloc, args)?))
    } else {
        Ok(None)
    }
}

fn wants_upstream(want: &Want) -> bool
    ensures { result ≡ wants_upstream want.now }
{
    match want {
        Want::Upstream(_) => true,
        Want::Entity(_) => false,
        Want::Count(_) => false,
        Want::Done(_) => false,
    }
}
