//! Whether a change is refused, and what it brings.
ghost use Rattle.std.specs.Prelude.{◌≡◌, ◌++◌, List as Items, length, Err, IfErr, IfOk, IsErrOf, Ok};
ghost use Rattle.std.specs.Option.{IsSome};
ghost use Rattle.ode_changed_laws.specs.Records.{new_in};
ghost use Rattle.ode_evolve.specs.Evolving.{change_class};
ghost use Rattle.ode_transact.specs.Errors.{OnDamaged};
ghost use Rattle.ode_types.specs.Families.{class_named};
ghost use Rattle.ode_value.specs.Answers.{checks};
ghost use Rattle.ode_value.specs.declared.class.Class.{Class as Checked};

use crate::reading::{Known, damaged};
use ode_evolve::{change_class, with_change};
use ode_transact::EngineError;
use ode_types::{CheckStop, Classes};
use ode_value::{Added, Change, List, Refusal};
use std::alloc::Global;

/// All classes with the fields of a change, and all fields that were added then.
#[derive(Drop)]
pub(crate) struct Anew {
    pub classes: Classes,
    pub added: List<Added>,
}

/// The classes behind a change, or its first refusal.
pub(crate) fn changed(
    alloc: Global,
    known: &Known,
    change: &Change,
) -> Result<Result<Anew, Refusal>, EngineError>
    ensures classes { IfOk result (λ r. IfOk r (λ x. checks (change_class known.now.trees known.now.added change.now) ≡ Ok x.classes)) }
    ensures added { IfOk result (λ r. IfOk r (λ x. x.added ≡ known.now.added ++ new_in x.classes (length known.now.added) change.now)) }
    ensures refused { IfOk result (λ r. IfErr r (λ why. checks (change_class known.now.trees known.now.added change.now) ≡ Err why)) }
    ensures calm { IsErrOf result EngineError.DiskFault → ⊥ }
    ensures silent { IsErrOf result EngineError.WriteFault → ⊥ }
    // No record is damaged where the changed class is among the classes behind the change.
    ensures undamaged { OnDamaged result (((classes : Items Checked) → checks (change_class known.now.trees known.now.added change.now) ≡ Ok classes → IsSome (class_named classes change.now.class)) → ⊥) }
{
    match change_class(alloc, &known.trees, &known.added, change) {
        Ok(classes) => {
            let number = match classes.named(&change.class) {
                Some(class) => class.number,
                None => return damaged(),
            };
            let added = with_change(alloc, &known.added, number, change)?;
            Ok(Ok(Anew { classes, added }))
        }
        Err(CheckStop::Memory) => Err(EngineError::Memory),
        Err(CheckStop::Broken(why)) => Ok(Err(Refusal::Check(why))),
    }
}
