//! What a verdict says of histories, carried by the contract of a function that does nothing.
ghost use Rattle.std.specs.Prelude.{◌≡◌, List as Items};
ghost use Rattle.ode_same.specs.declared.verdict.Verdict.TheVariants.{Same};
ghost use Rattle.ode_same.specs.Differing.{IsVerdict};
ghost use Rattle.ode_value.specs.declared.event.EventExpr.{EventExpr};
ghost use Rattle.ode_value.specs.declared.value.Value.{Value};
ghost use Rattle.ode_value.specs.Points.{fires_on};
ghost use Rattle.ode_value.specs.Views.{History};

/// Expressions that are the same fire on the same histories, with any arguments of the trigger.
pub fn same_is_same_on_histories()
    ensures { (e f : EventExpr) → IsVerdict e f Same → (params : Items Value) (h : History) → fires_on e params h ≡ fires_on f params h }
{}
