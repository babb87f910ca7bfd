//! Checks among more fields.
ghost use Rattle.std.specs.Prelude.{◌≡◌, ℕ, true, Ok};
ghost use Rattle.ode_value.specs.declared.event.EventExpr.{EventExpr};
ghost use Rattle.ode_value.specs.declared.statement.Expr.{Expr};
ghost use Rattle.ode_value.specs.declared.statement.Sort.{Sort};
ghost use Rattle.ode_value.specs.Moving.{moved_event, moved_expr};
ghost use Rattle.ode_types.specs.Events.{listed};
ghost use Rattle.ode_types.specs.Scopes.{Scope};
ghost use Rattle.ode_types.specs.Typing.{fitting};
ghost use Rattle.ode_moved_laws.specs.Wider.{IsWider};

/// A plain expression and an event that are checked where the object's class has more fields at a place come to what they came to
/// without these, with the places of their masks moved.
pub fn more_fields_move_masks()
    ensures expression { (at more : ℕ) (s t : Scope) → IsWider at more s t → s.is_plain ≡ true → (u : Sort) (e f : Expr) → fitting u e s ≡ Ok f → fitting u e t ≡ Ok (moved_expr at more f) }
    ensures event { (at more : ℕ) (s t : Scope) → IsWider at more s t → (e f : EventExpr) → listed e s ≡ Ok f → listed e t ≡ Ok (moved_event at more f) }
{}
