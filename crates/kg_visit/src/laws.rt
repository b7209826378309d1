//! Laws on what was asked, for proofs of the crates above.

ghost use Rattle.std.specs.Prelude.{◌≡◌, ◌≢◌, ℕ, List as Sequence, Option};
ghost use Rattle.std.specs.List.{AllPairs};
ghost use Rattle.kg_context.specs.declared.upstream.Upstream.{Upstream as AnAnswer};
ghost use Rattle.kg_limit.specs.declared.hit.Verdict.{Verdict as AVerdict};
ghost use Rattle.kg_message.specs.declared.request.Request.{Request as ARequest};
ghost use Rattle.kg_message.specs.declared.response.Response.{Response as AResponse};
ghost use Rattle.kg_row_values.specs.declared.command.Command.{Command as ACommand};
ghost use Rattle.kg_course.specs.Plain.{Asked};
ghost use Rattle.kg_course.specs.declared.want.Want.TheVariants as AWant;
ghost use Rattle.kg_visit.specs.Told.{IsAsked, Use};
ghost use Rattle.kg_visit.specs.Traces.{IsCurrent, Justifies, VerdictsFit, asked_by, come_to, reply_of, unexpected_error};
ghost use Rattle.kg_visit.specs.declared.trace.ReplyKind.TheVariants as AKind;
ghost use Rattle.kg_visit.specs.declared.trace.Trace.{Trace as ATrace};

/// What is asked in this order has each key once.
pub fn no_key_is_asked_twice()
    ensures { (asked : Asked) (uses : Sequence Use) (verdicts : Sequence AVerdict) (upstream : Option AnAnswer)
        → IsAsked asked uses verdicts upstream → AllPairs (λ a b. a.key ≢ b.key) uses }
{}

/// What was read as it was current, and asked in this order, justifies the reply that it leads to.
pub fn what_was_asked_justifies_the_reply()
    ensures { (history : Sequence ACommand) (trace : ATrace) (request : ARequest) (worker : ℕ) (reply : AResponse)
        → IsCurrent history trace
        → IsAsked (asked_by history trace request worker) trace.uses trace.verdicts trace.upstream
        → VerdictsFit (asked_by history trace request worker) trace.uses trace.verdicts
        → trace.kind ≡ AKind.Plain → come_to history trace request worker ≡ AWant.Done reply
        → Justifies history trace request worker × (reply_of history trace request worker ≡ reply) }
{}

/// Where the rows couldn't be read, it justifies the reply that says so.
pub fn what_was_asked_justifies_the_refusal()
    ensures { (history : Sequence ACommand) (trace : ATrace) (request : ARequest) (worker : ℕ)
        → IsCurrent history trace
        → IsAsked (asked_by history trace request worker) trace.uses trace.verdicts trace.upstream
        → VerdictsFit (asked_by history trace request worker) trace.uses trace.verdicts
        → trace.kind ≡ AKind.KeeperFault
        → Justifies history trace request worker × (reply_of history trace request worker ≡ unexpected_error) }
{}
