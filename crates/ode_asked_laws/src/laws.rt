//! What holds of comparisons that are read and checked.
ghost use Rattle.std.specs.Prelude.{◌≡◌, ℕ, List as Items, Ok, true};
ghost use Rattle.ode_asked_laws.specs.Numbers.{HaveNumbers};
ghost use Rattle.ode_asksyn.specs.Parsing.{IsComparisonOf};
ghost use Rattle.ode_asksyn.specs.Reading.{comparison_of};
ghost use Rattle.ode_syntax.specs.declared.asked.Comparison.{Comparison};
ghost use Rattle.ode_types.specs.Comparing.{check_compared};
ghost use Rattle.ode_value.specs.Numbers.{has_numbers};
ghost use Rattle.ode_value.specs.declared.binding.Param.{Param};
ghost use Rattle.ode_value.specs.declared.class.Class.{Class};
ghost use Rattle.ode_value.specs.declared.event.EventExpr.{EventExpr};

/// Each number of a `choose` or an `every` in both event expressions of a comparison is in its range, where the comparison is a piece's, and
/// still is once it is checked.
pub fn numbers_of_comparisons_are_in_range()
    ensures piece { (piece : Items ℕ) (c : Comparison) → comparison_of piece ≡ Ok c → HaveNumbers c }
    ensures checked { (classes : Items Class) (name : Items ℕ) (params : Items Param) (e f g h : EventExpr) → check_compared classes name params e f ≡ Ok (g, h)
        → has_numbers e ≡ true → has_numbers f ≡ true → (has_numbers g ≡ true) × (has_numbers h ≡ true) }
    ensures text { (text : Items ℕ) (c : Comparison) → IsComparisonOf text c → HaveNumbers c }
{}
