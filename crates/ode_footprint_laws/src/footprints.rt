//! Footprints of transactions.
ghost use Rattle.std.specs.Prelude.{◌≡◌, ℕ, List as Items, false};
ghost use Rattle.ode_footprint_laws.specs.Agreeing.{Agree, EndAgreeing, IsAmong, reached_footprint};
ghost use Rattle.ode_footprint_laws.specs.Fresh.{AreDrawn};
ghost use Rattle.ode_footprint_laws.specs.Growing.{Grown};
ghost use Rattle.ode_footprint_laws.specs.Staying.{StaysBut};
ghost use Rattle.ode_laws.specs.Numbered.{AreNumbered};
ghost use Rattle.ode_value.specs.Acts.{looks, reached};
ghost use Rattle.ode_value.specs.Completing.{completes, goes_round, tests_all};
ghost use Rattle.ode_value.specs.Evaluation.{Frame};
ghost use Rattle.ode_value.specs.Executing.{commands, execute, first_actions, outermost};
ghost use Rattle.ode_value.specs.Firings.{Place, both_lists, whole_list};
ghost use Rattle.ode_value.specs.Language.{ListTx};
ghost use Rattle.ode_value.specs.Objects.{Histories, Starts};
ghost use Rattle.ode_value.specs.Pasts.{lists};
ghost use Rattle.ode_value.specs.Posting.{runs};
ghost use Rattle.ode_value.specs.Settling.{aborted, committed, posted};
ghost use Rattle.ode_value.specs.Transactions.{Firing};
ghost use Rattle.ode_value.specs.declared.event.Kind.{Kind};
ghost use Rattle.ode_value.specs.declared.statement.Stmt.{Stmt};

/// Nothing is taken off a footprint: what was looked at, drawn or queued before a statement is behind it too.
pub fn footprints_grow()
    ensures statement { (s : Stmt) (x : ListTx) → Grown x.footprint (reached_footprint (commands lists s x)) }
    ensures completion { (x : ListTx) → Grown x.footprint (reached_footprint (completes lists x)) }
    ensures settling { (place : Place Histories Starts) (kind : Kind) (x : ListTx) → Grown x.footprint (posted lists place kind x).footprint }
{}

/// Two transactions that agree in all parts but their worlds, and whose worlds agree on the footprint that a statement of one of them
/// reaches, come to the same by that statement: the same answer or reason, text and footprint, and worlds that agree again.
pub fn statements_depend_on_footprints()
    ensures statement { (s : Stmt) (frame : Frame) (y x : ListTx) → AreDrawn y → AreDrawn x
        → Agree (reached_footprint (execute lists (outermost lists) s frame x)) y x
        → EndAgreeing (reached_footprint (execute lists (outermost lists) s frame x)) (execute lists (outermost lists) s frame y) (execute lists (outermost lists) s frame x) }
    ensures command { (s : Stmt) (y x : ListTx) → AreDrawn y → AreDrawn x → Agree (reached_footprint (commands lists s x)) y x
        → EndAgreeing (reached_footprint (commands lists s x)) (commands lists s y) (commands lists s x) }
    ensures firing { (f : Firing) (y x : ListTx) → AreDrawn y → AreDrawn x → Agree (reached_footprint (runs (first_actions lists) f x)) y x
        → EndAgreeing (reached_footprint (runs (first_actions lists) f x)) (runs (first_actions lists) f y) (runs (first_actions lists) f x) }
    ensures look { (ids : Items ℕ) (y x : ListTx) → Agree (reached_footprint (looks ids x)) y x → EndAgreeing (reached_footprint (looks ids x)) (looks ids y) (looks ids x) }
{}

/// The same of a completion up to its last test, which weighs the whole world.
pub fn completions_depend_on_footprints()
    ensures rounds { (most at ran : ℕ) (y x : ListTx) → AreDrawn y → AreDrawn x → Agree (reached_footprint (goes_round lists most at ran x)) y x
        → EndAgreeing (reached_footprint (goes_round lists most at ran x)) (goes_round lists most at ran y) (goes_round lists most at ran x) }
    ensures tests { (y x : ListTx) → Agree (reached_footprint (tests_all x)) y x → EndAgreeing (reached_footprint (tests_all x)) (tests_all y) (tests_all x) }
{}

/// The same of the last points of a settling, by commit, where numbers tell the parts of the worlds apart, and by abort.
pub fn settlings_depend_on_footprints()
    ensures commit { (kind : Kind) (y x : ListTx) → AreNumbered y.now.bones → AreNumbered x.now.bones
        → Agree (posted lists (both_lists lists) kind (committed lists x)).footprint y x
        → Agree (posted lists (both_lists lists) kind (committed lists x)).footprint (posted lists (both_lists lists) kind (committed lists y)) (posted lists (both_lists lists) kind (committed lists x)) }
    ensures abort { (kind : Kind) (y x : ListTx) → Agree (posted lists (whole_list lists) kind (aborted lists x)).footprint y x
        → Agree (posted lists (whole_list lists) kind (aborted lists x)).footprint (posted lists (whole_list lists) kind (aborted lists y)) (posted lists (whole_list lists) kind (aborted lists x)) }
{}

/// Numbers stay drawn: those of the world and of the keys that a transaction holds.
pub fn numbers_stay_drawn()
    ensures statement { (s : Stmt) (x : ListTx) → AreDrawn x → AreDrawn (reached (commands lists s x)) }
    ensures completion { (x : ListTx) → AreDrawn x → AreDrawn (reached (completes lists x)) }
{}

/// A statement changes nothing but what it looks at, and draws no number without a mark; nor do a completion and the last points.
pub fn transactions_change_what_they_look_at()
    ensures statement { (s : Stmt) (frame : Frame) (x : ListTx) → StaysBut (reached_footprint (execute lists (outermost lists) s frame x)) x.now (reached (execute lists (outermost lists) s frame x)).now }
    ensures command { (s : Stmt) (x : ListTx) → StaysBut (reached_footprint (commands lists s x)) x.now (reached (commands lists s x)).now }
    ensures firing { (f : Firing) (x : ListTx) → StaysBut (reached_footprint (runs (first_actions lists) f x)) x.now (reached (runs (first_actions lists) f x)).now }
    ensures completion { (x : ListTx) → StaysBut (reached_footprint (completes lists x)) x.now (reached (completes lists x)).now }
    ensures settling { (place : Place Histories Starts) (kind : Kind) (x : ListTx) → StaysBut (posted lists place kind x).footprint x.now (posted lists place kind x).now }
{}

/// Nothing is collected without a mark.
pub fn what_is_collected_is_marked()
    ensures command { (s : Stmt) (x : ListTx) → (reached_footprint (commands lists s x)).queued ≡ false → (reached (commands lists s x)).collected ≡ x.collected }
    ensures completion { (x : ListTx) → (reached_footprint (completes lists x)).queued ≡ false → (reached (completes lists x)).collected ≡ x.collected }
    ensures settling { (place : Place Histories Starts) (kind : Kind) (x : ListTx) → (posted lists place kind x).footprint.queued ≡ false → (posted lists place kind x).collected ≡ x.collected }
{}

/// An object that is touched is looked at.
pub fn touched_objects_are_looked_at()
    ensures command { (s : Stmt) (x : ListTx) → ((id : ℕ) → IsAmong id x.touched → IsAmong id x.footprint.looked)
        → (id : ℕ) → IsAmong id (reached (commands lists s x)).touched → IsAmong id (reached_footprint (commands lists s x)).looked }
    ensures completion { (x : ListTx) → ((id : ℕ) → IsAmong id x.touched → IsAmong id x.footprint.looked)
        → (id : ℕ) → IsAmong id (reached (completes lists x)).touched → IsAmong id (reached_footprint (completes lists x)).looked }
{}
