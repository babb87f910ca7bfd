//! New objects and activations.
ghost use Rattle.std.specs.Prelude.{◌≡◌, List as Items, IfOk, map};
ghost use Rattle.std.specs.List.{find};
ghost use Rattle.std.specs.Option.{option_copied};
ghost use Rattle.std.specs.Str.{bytes_eq};
ghost use Rattle.ode_value.specs.Expressions.{evaluates_sets};
ghost use Rattle.ode_value.specs.Pasts.{numbers};
ghost use Rattle.ode_value.specs.Statements.{first_value, makes_named};
ghost use Rattle.ode_value.specs.Worlds.{Declared};
ghost use Rattle.ode_interpreter.specs.Seen.{Ends, Leaves, scene, with_classes};

use crate::acts::Acts;
use crate::expressions::default_value;
use crate::scene::Scene;
use crate::schema::Schema;
use crate::stop::Stop;
use ode_value::{Expr, Field, List, Name, Reason, Value};
use std::alloc::{AllocError, Global};

// The values of fields that are set, by their names.
#[tactic(auto, using(crate::proofs::Values::sets_go_on, crate::proofs::Values::sets_end, crate::proofs::Values::sets_done))]
fn evaluate_sets<S: Schema, T: Acts<S>>(
    alloc: Global,
    schema: &S,
    tx: &mut T,
    on: &Scene,
    sets: &[(Name, Expr)],
) -> Result<List<(Name, Value)>, Stop>
    ensures acts { (classes : Items Declared) (g : T.Known) → S.declares schema.now classes → T.knows tx.old schema.now g → Ends result (with_classes classes (T.view tx.new g)) (evaluates_sets sets.now (scene on.now) (with_classes classes (T.view tx.old g))) }
    ensures kept { (g : T.Known) → T.knows tx.old schema.now g → Leaves result (T.knows tx.new schema.now g) (T.failed tx.new g) }
    ensures faults { (b : T.Base) → T.usable tx.old b → Leaves result (T.usable tx.new b) (T.ended tx.new b) }
{
    let mut given = List::new(alloc);
    for set in sets {
        let value = tx.evaluate(schema, on, &set.1)?;
        given.push((set.0.copy(alloc)?, value))?;
    }
    Ok(given)
}

// What a field of this name is set to.
fn set_of<'a>(given: &'a [(Name, Value)], name: &Name) -> Option<&'a (Name, Value)>
    ensures { option_copied result ≡ find (λ set. bytes_eq set.0 name.now) given.now }
{
    given.iter().find(|set| set.0.same(name))
}

// A field's first value: what it is set to, or its sort's default.
fn first_value(alloc: Global, given: &[(Name, Value)], field: &Field) -> Result<Value, AllocError>
    ensures { IfOk result (λ v. v ≡ first_value given.now field.now) }
{
    match set_of(given, &field.name) {
        Some(set) => Ok(set.1.copy(alloc)?),
        None => default_value(alloc, &field.sort),
    }
}

// Those of several fields, in order.
fn first_values(
    alloc: Global,
    given: &[(Name, Value)],
    fields: &[Field],
) -> Result<List<Value>, AllocError>
    ensures { IfOk result (λ vs. vs ≡ map (first_value given.now) fields.now) }
{
    let mut values = List::new(alloc);
    for field in fields {
        values.push(first_value(alloc, given, field)?)?;
    }
    Ok(values)
}

/// A new object of a class by its name, some of its fields set, with its initial activations.
#[tactic(auto, using(crate::proofs::Creates::named_is))]
pub(crate) fn make_named<S: Schema, T: Acts<S>>(
    alloc: Global,
    schema: &S,
    tx: &mut T,
    on: &Scene,
    name: &Name,
    sets: &[(Name, Expr)],
) -> Result<u64, Stop>
    ensures acts { (classes : Items Declared) (g : T.Known) → S.declares schema.now classes → T.knows tx.old schema.now g → Ends result (with_classes classes (T.view tx.new g)) (makes_named (numbers (S.tables schema.now)) name.now sets.now (scene on.now) (with_classes classes (T.view tx.old g))) }
    ensures kept { (g : T.Known) → T.knows tx.old schema.now g → Leaves result (T.knows tx.new schema.now g) (T.failed tx.new g) }
    ensures faults { (b : T.Base) → T.usable tx.old b → Leaves result (T.usable tx.new b) (T.ended tx.new b) }
{
    let given = evaluate_sets(alloc, schema, tx, on, sets)?;
    let Some(class) = schema.named(name) else {
        return Err(Stop::Abort(Reason::NoObject(0)));
    };
    let fields = first_values(alloc, given.as_slice(), class.fields.as_slice())?;
    tx.make(schema, class.number, fields)
}
