//! Examples of commands, computed, each carried by the contract of a function that does nothing.
ghost use Rattle.std.specs.Prelude.{◌≡◌, [], ◌∷◌, ℤ, ℕ, List as Items, Ok, Err, None, Some};
ghost use Rattle.ode_value.specs.declared.reason.Refusal.TheVariants.{InTransaction, NoTransaction};
ghost use Rattle.ode_value.specs.declared.statement.Statement.TheVariants.{Abort, Begin, Commit, Empty};
ghost use Rattle.ode_value.specs.Language.{Language, ListTx, ListWorld};
ghost use Rattle.ode_value.specs.Texts.{committed_line};
ghost use Rattle.ode_value.specs.Worlds.{empty_bones, empty_world};
ghost use Rattle.ode_timer.specs.Due.{behind};
ghost use Rattle.ode_machine.specs.Commands.{command, does_clock, finish};
ghost use Rattle.ode_machine.specs.Refusals.{placed, placed_change, ticks_in};
ghost use Rattle.ode_machine.specs.Sessions.{Session, closed, opened};

/// What stands in the wrong place is refused, a change of a class in an open transaction too; `;` stands everywhere, and needs no number.
pub fn places_are_tested()
    ensures begin { (w : ListWorld) (x : ListTx) → placed (opened w x) Begin ≡ Err InTransaction }
    ensures commit { (w : ListWorld) → placed (closed w) Commit ≡ Err NoTransaction }
    ensures abort { (w : ListWorld) → placed (closed w) Abort ≡ Err NoTransaction }
    ensures lone { (w : ListWorld) → placed (closed w) Empty ≡ Ok tt }
    ensures change { (w : ListWorld) (x : ListTx) → placed_change (opened w x) ≡ Err InTransaction }
{}

/// A `;` alone settles nothing, and nor does the end of the input where no transaction is open.
pub fn ends_without_a_transaction()
    ensures lone { (l : Language) (w : ListWorld) (piece : Items ℕ) → l.change_of piece ≡ None → l.statement_of piece ≡ Ok Empty → command l (closed w) piece ≡ Ok (closed w, []) }
    ensures ending { (w : ListWorld) → finish (closed w) ≡ (closed w, []) }
{}

/// The first clock command finds nothing due, and puts the clock behind everything of its instant.
pub fn clock_commands_begin()
    ensures nothing_due { (l : Language) (text : Items ℕ) (t : ℤ) → l.instant_of text ≡ Some t → ticks_in l empty_bones text ≡ Ok (t, []) }
    ensures moves { (t : ℤ) → let w : ListWorld = record { bones = record empty_bones { transaction = 2; clock = Some (behind t) }; pasts = [] } in
        does_clock empty_world (t, []) ≡ (closed w, (w, committed_line 1) ∷ []) }
{}
