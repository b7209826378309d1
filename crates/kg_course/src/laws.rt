//! Laws on what a request wants, for proofs of the crates above.

ghost use Rattle.std.specs.Prelude.{◌≡◌, ◌<◌, ◌≤◌, List as Sequence, Option, Some, None, Ok, Err};
ghost use Rattle.kg_message.specs.declared.response.Response.{Response as AResponse};
ghost use Rattle.kg_course.specs.Course.{Answers, Course, run};
ghost use Rattle.kg_course.specs.CourseLaws.{Extends, IsTold, Lacking, passed};
ghost use Rattle.kg_course.specs.Plain.{Asked, course, plain};
ghost use Rattle.kg_course.specs.Wants.{IsReply};
ghost use Rattle.kg_course.specs.declared.want.Want.{Want as AWant};
ghost use Rattle.kg_course.specs.declared.want.Want.TheVariants as want;
ghost use Rattle.kg_context.specs.declared.upstream.UpRequest.{UpRequest as AMessage};
ghost use Rattle.kg_context.specs.declared.upstream.Upstream.{Upstream as AnAnswer};
ghost use Rattle.kg_limit.specs.declared.hit.Verdict.{Verdict as AVerdict};
ghost use Rattle.kg_row_types.specs.declared.key.Key.{Key as AKey};
ghost use Rattle.kg_row_types.specs.declared.value.Value.{Value as AValue};

/// What a course comes to stays so when more is told.
pub fn more_answers_keep_the_reply()
    ensures { (course : Course AResponse) (some more : Answers) (reply : AResponse)
        → Extends some more → run course some ≡ Ok reply → run course more ≡ Ok reply }
{}

/// What is lacking has not been told.
pub fn what_is_lacking_was_not_told()
    ensures { (course : Course AResponse) (told : Answers) (lacking : AWant) → run course told ≡ Err lacking → Lacking told lacking }
{}

/// The first that is lacking stays so until it is told.
pub fn the_first_lack_stays()
    ensures { (course : Course AResponse) (some more : Answers) (lacking : AWant)
        → Extends some more → Lacking more lacking → run course some ≡ Err lacking → run course more ≡ Err lacking }
{}

/// An answer to what is lacking leads past one more question, or more.
pub fn an_answer_leads_further()
    ensures { (course : Course AResponse) (some more : Answers) (lacking : AWant)
        → Extends some more → IsTold more lacking → run course some ≡ Err lacking → passed course some < passed course more }
{}

/// Whatever is answered, a request leads past at most 9 questions: key-auth and basic-auth ask for at most 3 values
/// each, acl for 1, rate-limiting for 1 verdict, and the upstream answers once.
pub fn few_questions_are_asked()
    ensures { (asked : Asked) (told : Answers) → passed (course asked) told ≤ 9 }
{}

/// Nothing is asked behind the upstream: with its answer the reply is there.
pub fn the_upstream_is_asked_last()
    ensures { (asked : Asked) (entity : AKey → Option AValue) (verdicts : Sequence AVerdict) (message : AMessage) (answer : AnAnswer)
        → plain asked entity verdicts None ≡ want.Upstream message → IsReply (plain asked entity verdicts (Some answer)) }
{}
