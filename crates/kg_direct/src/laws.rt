//! What the plain gateway comes to for a request that no plugin touches.

ghost use Rattle.std.specs.Prelude.{◌≡◌, List as Sequence, Option, Some, None, false};
ghost use Rattle.kg_context.specs.declared.upstream.Upstream.{Upstream as AnAnswer};
ghost use Rattle.kg_course.specs.Plain.{Asked, plain};
ghost use Rattle.kg_course.specs.declared.want.Want.TheVariants as want;
ghost use Rattle.kg_direct.specs.Untouched.{is_touched, straight_request};
ghost use Rattle.kg_limit.specs.declared.hit.Verdict.{Verdict as AVerdict};
ghost use Rattle.kg_router.specs.Best.{Choice, best_choice};
ghost use Rattle.kg_row_types.specs.declared.key.Key.{Key as AKey};
ghost use Rattle.kg_row_types.specs.declared.value.Value.{Value as AValue};
ghost use Rattle.kg_upstream.specs.UpstreamMessage.{reply_of};

/// A request that no plugin touches wants the answer to its own message, and then nothing: the reply is what the
/// answer becomes.
pub fn untouched_requests_go_straight()
    ensures wants { (asked : Asked) (choice : Choice) (entity : AKey → Option AValue) (verdicts : Sequence AVerdict)
        → best_choice asked.router.services asked.router.routes asked.request ≡ Some choice → is_touched asked.plugins.rows choice ≡ false
        → plain asked entity verdicts None ≡ want.Upstream (straight_request choice asked.request) }
    ensures replies { (asked : Asked) (choice : Choice) (entity : AKey → Option AValue) (verdicts : Sequence AVerdict) (answer : AnAnswer)
        → best_choice asked.router.services asked.router.routes asked.request ≡ Some choice → is_touched asked.plugins.rows choice ≡ false
        → plain asked entity verdicts (Some answer) ≡ want.Done (reply_of answer) }
{}
