//! What a worker keeps is coherent with the history of commits before and after each call.

ghost use Rattle.std.specs.Prelude.{◌≡◌, ℕ, ◌≤◌, ◌++◌, IsTrue, List, length, Contains};
ghost use Rattle.kg_generation.specs.Generations.{built_from, is_of_kind};
ghost use Rattle.kg_generation.specs.declared.generation.Gen.{Gen as AGen};
ghost use Rattle.kg_keeper.specs.declared.answer.Events.{Events as SomeEvents};
ghost use Rattle.kg_level1.specs.Changing.{after_put};
ghost use Rattle.kg_row_types.specs.declared.key.GenKey.{GenKey as AGenKey};
ghost use Rattle.kg_row_values.specs.Commits.{generation_after};
ghost use Rattle.kg_row_values.specs.declared.command.Command.{Command as ACommand};
ghost use Rattle.kg_visit.specs.Told.{Told, Use};
ghost use Rattle.kg_proxy.specs.Advancing.{Advances};
ghost use Rattle.kg_proxy.specs.Coherent.{HoldsSince, IsCoherentWorker, TellsTouched};
ghost use Rattle.kg_proxy.specs.Workers.{HasSameHolding, Holding, after_events, empty_worker, key_eq, kind_eq};

/// Each call leaves a coherent worker coherent, where it is told what the history says; and commits that come later change
/// nothing of that.
pub fn workers_stay_coherent()
    ensures made { (history : List ACommand) (number room pos : ℕ) → pos ≤ length history → IsCoherentWorker history (empty_worker number room pos) }
    ensures kept { (history : List ACommand) (w : Holding) (used : Use) (expires : ℕ) → HoldsSince history w.keys.pos used → IsCoherentWorker history w
        → IsCoherentWorker history (record w { keys = after_put key_eq w.keys used.key (record { val = used.value; stamp = used.at; expires = expires }) }) }
    ensures kept_gen { (history : List ACommand) (w : Holding) (which : AGenKey) (built : AGen) (at : ℕ) → w.gens.pos ≤ at → at ≤ length history
        → built_from built ≡ generation_after history which at → IsCoherentWorker history w
        → IsCoherentWorker history (record w { gens = after_put kind_eq w.gens which (record { val = built; stamp = at; expires = 0 }) }) }
    ensures synced { (history : List ACommand) (w : Holding) (from to : ℕ) (events : SomeEvents) → from ≤ w.keys.pos → from ≤ w.gens.pos → to ≤ length history
        → TellsTouched history from events to → IsCoherentWorker history w → IsCoherentWorker history (after_events from events to w) }
    ensures same { (history : List ACommand) (before after : Holding) → HasSameHolding before after → IsCoherentWorker history before → IsCoherentWorker history after }
    ensures longer { (history more : List ACommand) (w : Holding) → IsCoherentWorker history w → IsCoherentWorker (history ++ more) w }
{}

/// What a coherent worker answers a request holds at a position that isn't below the worker's.
pub fn own_answers_hold()
    ensures { (history : List ACommand) (w : Holding) (now : ℕ) (from told : Told) → IsCoherentWorker history w → Advances w.keys now from told
        → (used : Use) → Contains told.uses used → (Contains from.uses used → ⊥) → HoldsSince history w.keys.pos used }
{}
