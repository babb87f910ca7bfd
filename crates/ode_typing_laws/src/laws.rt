//! What holds of classes that were checked one behind the other.
ghost use Rattle.std.specs.Prelude.{List};
ghost use Rattle.std.specs.List.{AllByRecursion};
ghost use Rattle.ode_value.specs.declared.class.Class.{Class};
ghost use Rattle.ode_types.specs.Kept.{IsTypedClass};
ghost use Rattle.ode_types.specs.Checked.{AreChecked};

/// Classes, each of which was checked against those before it, are typed by all of them: what is typed stays so where classes are added.
#[tactic(auto, using(crate::proofs::Chain::checked_typed))]
pub fn checked_classes_are_typed()
    ensures { (classes : List Class) → AreChecked classes → AllByRecursion (IsTypedClass classes) classes }
{}
