//! The declared classes.
ghost use Rattle.std.specs.Prelude.{◌≡◌, ◌≤◌, ℕ, List as Items, IfSome};
ghost use Rattle.std.specs.Option.{option_copied};
ghost use denote.Param.Weighed.{most};
ghost use Rattle.ode_value.specs.declared.member.TriggerDecl.{TriggerDecl};
ghost use Rattle.ode_value.specs.declared.statement.Stmt.{Stmt as Statement};
ghost use Rattle.ode_value.specs.Classes.{method_named};
ghost use Rattle.ode_value.specs.Tables.{Table};
ghost use Rattle.ode_value.specs.Worlds.{Declared, class_named};

use crate::firing::Trigger;
use ode_value::{Class, Method, Mode, Name, Stmt};

/// The declared classes, with the tables of their triggers.
pub trait Schema {
    /// These are the classes.
    ghost declares: { Self → Items Declared → Type 0 };

    /// The table of a trigger, by the class that declares it and its place there.
    ghost tables: { Self → ℕ → ℕ → Table };

    /// The trigger itself; one with no name and no action where there is none.
    ghost trigger: { Self → ℕ → ℕ → TriggerDecl };

    /// No body of a method or an action is longer than this, whatever a statement's length is.
    ghost longest: { Self → (Statement → ℕ) → ℕ };

    /// The nearest method of a name that a class has.
    fn method(&self, class: u32, name: &Name) -> Option<&Method>
        ensures is { (classes : Items Declared) → declares self.now classes → option_copied result ≡ method_named classes class name.now }
        ensures fits { (size : Statement → ℕ) → IfSome result (λ m. most size m.now.body ≤ longest self.now size) };

    /// The class of a name.
    fn named(&self, name: &Name) -> Option<&Class>
        ensures { (classes : Items Declared) → declares self.now classes → option_copied result ≡ class_named name.now classes };

    /// The mode of a trigger.
    fn mode(&self, t: Trigger) -> Mode
        ensures { result ≡ (trigger self.now t.class t.place).mode };

    /// The action of a trigger.
    fn action(&self, t: Trigger) -> &[Stmt]
        ensures is { result.now ≡ (trigger self.now t.class t.place).action }
        ensures fits { (size : Statement → ℕ) → most size result.now ≤ longest self.now size };
}
