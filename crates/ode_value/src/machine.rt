//! Examples of the machine, computed, each carried by the contract of a function that does nothing.
ghost use Rattle.std.specs.Prelude.{◌≡◌, ◌+◌, [], ◌∷◌, true, false, Some, None};
ghost use Rattle.ode_value.specs.declared.event.Mode.TheVariants.{Deferred, Immediate};
ghost use Rattle.ode_value.specs.declared.reason.Reason.TheVariants.{Asked, Depth, Size, Space};
ghost use Rattle.ode_value.specs.Acts.{Aborted, Done, nothing, prints, reached};
ghost use Rattle.ode_value.specs.Changes.{changes};
ghost use Rattle.ode_value.specs.Draining.{drain};
ghost use Rattle.ode_value.specs.Executing.{deeper, level, outermost};
ghost use Rattle.ode_value.specs.GoodWorlds.{IsGood};
ghost use Rattle.ode_value.specs.Language.{Language, ListTx, ListWorld};
ghost use Rattle.ode_value.specs.Limits.{value_limit};
ghost use Rattle.ode_value.specs.MachineExamples.{aborted_for, active, call_at_the_last_level, firing_there, no_points, none_left, one_lost_point, posts_and_aborts, posts_before, watched_world, watching};
ghost use Rattle.ode_value.specs.Pasts.{lists};
ghost use Rattle.ode_value.specs.Posting.{collects, dropped_text, fired_text, with_entry};
ghost use Rattle.ode_value.specs.Settling.{transaction};
ghost use Rattle.ode_value.specs.Texts.{aborted_line, committed_line};
ghost use Rattle.ode_value.specs.Transactions.{Firing, Queue, Script, begun, drawing, queueing};
ghost use Rattle.ode_value.specs.Worlds.{empty_bones, empty_world};

/// An empty transaction takes a number and prints its settling line.
pub fn empty_transactions()
    ensures settled { transaction lists Script nothing empty_world ≡ (record { bones = record empty_bones { transaction = 2 }; pasts = [] }, committed_line 1) }
    ensures drained { drain lists 3 empty_world ≡ [] }
{}

/// A firing that would wait in generation 17 is dropped with its line; one in generation 16 waits.
pub fn dropped_firings()
    ensures dropped { (w : ListWorld) (f : Firing) → collects prints false f (begun (Queue 1 16) w) ≡ prints (dropped_text f) (queueing (begun (Queue 1 16) w)) }
    ensures waits { (f : Firing) → let x : ListTx = begun (Queue 1 15) empty_world in collects prints false f x ≡ Done tt (with_entry false f (queueing x)) }
{}

/// Of a change that is too long and finds no number either, the length is told, and that it asked for one isn't marked.
pub fn changes_are_tested_in_order()
    ensures size { (x : ListTx) → changes [] (value_limit + 1) none_left x ≡ Aborted Size x }
    ensures space { (w : ListWorld) → changes [] value_limit none_left (begun Script w) ≡ Aborted Space (drawing true (begun Script w)) }
{}

/// A once-only trigger on whole histories fires in a transaction that aborts. It went off there; behind the abort it is on again, the
/// point stays in the list of all points, and the next point fires it again.
pub fn once_only_triggers_after_an_abort()
    ensures fires { let t = watching true Deferred in (reached (posts_before (begun Script (watched_world 0 t no_points)))).deferred ≡ firing_there t ∷ [] }
    ensures off { let t = watching true Deferred in active (reached (posts_before (begun Script (watched_world 0 t no_points)))) ≡ [] ∷ [] }
    ensures aborted { let t = watching true Deferred in transaction lists Script posts_and_aborts (watched_world 0 t no_points)
        ≡ (watched_world 1 t one_lost_point, aborted_line 1 Asked) }
    ensures again { let t = watching true Deferred in (reached (posts_before (begun Script (watched_world 1 t one_lost_point)))).deferred ≡ firing_there t ∷ [] }
{}

/// The action at a point of a call runs one level deeper than the call: where the call's level is the last, the line is printed and the
/// transaction aborts.
pub fn actions_at_the_last_level()
    ensures outermost { outermost lists ≡ Some (level lists (deeper lists 31)) }
    ensures last { deeper lists 1 ≡ Some (level lists None) }
    ensures reason { aborted_for (call_at_the_last_level (watching false Immediate)) ≡ Some Depth }
    ensures text { let t = watching false Immediate in (reached (call_at_the_last_level t)).text ≡ fired_text (firing_there t) }
{}

/// A fresh database is a good world.
pub fn a_fresh_world_is_good()
    ensures { (l : Language) → IsGood l empty_world }
{}
