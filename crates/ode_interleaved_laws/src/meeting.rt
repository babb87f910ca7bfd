//! Sessions stay apart, and are serial. Each law is carried by the contract of a function that does nothing.
ghost use Rattle.std.specs.Prelude.{◌≡◌, ◌<◌, ℕ, List as Items, [], ◌∷◌, Some};
ghost use Rattle.std.specs.List.{find};
ghost use Rattle.ode_language.specs.Texts.{HasText};
ghost use Rattle.ode_good_laws.specs.Well.{IsWell};
ghost use Rattle.ode_interleaved_laws.specs.Meeting.{Clashes, IsInterleaved};
ghost use Rattle.ode_interleaved_laws.specs.Serial.{runs_serially, serial_finish, serial_of, serial_run};
ghost use Rattle.ode_language.specs.Languages.{ode};
ghost use Rattle.ode_machine.specs.Conversation.{Says, Spoken, trace};
ghost use Rattle.ode_machine.specs.Interleaving.{Busy, Goes, Interleaved, Open, finish, footprint_of, is_alone, may_end, session_of, step, tries};
ghost use Rattle.ode_machine.specs.declared.owned.Owned.{Owned};
ghost use Rattle.ode_run_laws.specs.Settled.{settled_of};
ghost use Rattle.ode_value.specs.Draining.{world_after};
ghost use Rattle.ode_value.specs.Language.{ListWorld, Settlings};
ghost use Rattle.ode_value.specs.Limits.{number_limit};
ghost use Rattle.ode_value.specs.Objects.{Histories, Starts};
ghost use Rattle.ode_value.specs.Settling.{Settled};
ghost use Rattle.ode_value.specs.declared.statement.Statement.{Statement};

/// Behind a step each open session's statements are all done on the world as it is then, with what they looked at, drew and queued, and no
/// two sessions hold the same; and a number is left for each one's transaction.
pub fn sessions_stay_apart()
    ensures start { (w : ListWorld) → IsWell ode w → IsInterleaved ode (record { world = w; sessions = [] }) }
    ensures step { (m : Interleaved) (n : ℕ) (s : Statement) (now : Interleaved) (settled : Settlings) → IsInterleaved ode m → HasText ode s
        → step ode m n s ≡ Goes now settled → IsInterleaved ode now }
    ensures finish { (m : Interleaved) → IsInterleaved ode m → IsWell ode (world_after m.world (finish m)) }
    ensures numbers { (m : Interleaved) (n : ℕ) (o : Open) → IsInterleaved ode m → session_of n m.sessions ≡ Some o → m.world.bones.transaction < number_limit }
{}

/// A step that is put off names an open session other than its own, which holds what the step needs: the step is to be alone, or both drew
/// a number, or both look at this object, or both met the queue.
pub fn holders_are_open()
    ensures { (m : Interleaved) (n other : ℕ) (s : Statement) (what : Owned) → IsInterleaved ode m → step ode m n s ≡ Busy other what
        → (o : Open) × (session_of other m.sessions ≡ Some o) × ((other ≡ n) → ⊥) × Clashes (is_alone s) (footprint_of (tries ode m (session_of n m.sessions) s)) what o }
{}

/// What a step settles is what these transactions do one after another, each the statements of its session whole, and the drain behind
/// them where no session is open; and so is what the end of the input settles.
pub fn sessions_are_serial()
    ensures step { (m : Interleaved) (n : ℕ) (s : Statement) (now : Interleaved) (first : Settled Histories Starts) (settled : Settlings) → IsInterleaved ode m
        → step ode m n s ≡ Goes now (first ∷ settled) → ((first ∷ settled) ≡ runs_serially ode m.world (serial_of ode m n s)) × (now.world ≡ world_after m.world (first ∷ settled)) }
    ensures finish { (m : Interleaved) → IsInterleaved ode m → finish m ≡ runs_serially ode m.world (serial_finish m) }
{}

/// Of open sessions one may end: an abort draws no number and looks at what its session holds, and the one that holds the queue isn't put
/// off by another.
pub fn endings_are_never_held_by_all()
    ensures { (m : Interleaved) (o : Open) (more : Items Open) → IsInterleaved ode m → m.sessions ≡ o ∷ more → (p : Open) × (find (may_end m) m.sessions ≡ Some p) }
{}

/// So what a whole run of a script of sessions settles, in this order, is what whole transactions do one after another, with drains where
/// no session is open, however its pieces are read, as long as what is read has a text.
pub fn runs_of_sessions_are_serial()
    ensures { (speaks : Items ℕ → Spoken) → ((text : Items ℕ) (n : ℕ) (s : Statement) → speaks text ≡ Says n s → HasText ode s)
        → (w : ListWorld) → IsWell ode w → (script : Items ℕ) → settled_of (trace ode speaks w script) ≡ runs_serially ode w (serial_run ode speaks w script) }
{}
