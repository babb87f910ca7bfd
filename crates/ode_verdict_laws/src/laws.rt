//! The search for a word misses none.
ghost use Rattle.std.specs.Prelude.{◌≡◌, Ok};
ghost use Rattle.ode_same.specs.Comparing.{compared};
ghost use Rattle.ode_same.specs.Differing.{IsVerdict};
ghost use Rattle.ode_same.specs.declared.verdict.Verdict.{Verdict};
ghost use Rattle.ode_value.specs.declared.event.EventExpr.{EventExpr};

/// What a comparison of two event expressions comes to is the verdict on them: no word differs, or this is the least of the shortest.
pub fn compared_is_the_verdict()
    ensures { (e f : EventExpr) (verdict : Verdict) → compared e f ≡ Ok verdict → IsVerdict e f verdict }
{}
