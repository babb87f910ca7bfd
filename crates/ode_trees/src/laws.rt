//! What the trees of an expression are for, carried by the contract of a function that does nothing.
ghost use Rattle.std.specs.Prelude.{◌≡◌, List as Items};
ghost use Rattle.ode_value.specs.declared.event.EventExpr.{EventExpr};
ghost use Rattle.ode_value.specs.Marks.{Mark};
ghost use Rattle.ode_value.specs.Points.{fires};
ghost use Rattle.ode_value.specs.Trees.{answers, tree_after};

/// After any history the tree of an expression answers whether the expression fires on it.
pub fn trees_answer_as_points()
    ensures { (e : EventExpr) (m : Items Mark) → answers e (tree_after e m) ≡ fires e m }
{}
