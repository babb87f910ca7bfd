//! All activations of an object go on by a point.
ghost use Rattle.std.specs.Prelude.{◌≡◌, IfOk, OnErr, OnOk, length, map};
ghost use Rattle.ode_states.specs.declared.step.Step.{Step as Move};
ghost use Rattle.ode_states.specs.Advance.{advanced, fired_in, fires_among, moved, one_more, step_by};
ghost use Rattle.ode_types.specs.declared.running.Running.{Running as Activation};

use crate::fired::{Fired, firing, place};
use crate::step::{Step, step_of};
use ode_symbols::Alphabet;
use ode_table::Table;
use ode_types::{Classes, Running};
use ode_value::{Kind, List, Value};
use std::alloc::{AllocError, Global};
use std::mem;

fn steps_of(
    alloc: Global,
    tables: &List<Table>,
    alphabets: &List<Alphabet>,
    classes: &Classes,
    acts: &[Running],
    kind: &Kind,
    args: &[Value],
    own: &[Value],
) -> Result<Vec<Step>, AllocError>
    ensures { IfOk result (λ steps. steps.items ≡ map (step_by tables.now alphabets.now classes.now (record { kind = kind.now; args = args.now; fields = own.now })) acts.now) }
{
    let mut steps = Vec::new(alloc);
    for a in acts {
        steps.push(step_of(tables, alphabets, classes, a, kind, args, own))?;
    }
    Ok(steps)
}

// Puts the firing of an activation in its place, where its step says that it fires.
fn note(alloc: Global, fired: &mut List<Fired>, a: &Running, step: Step) -> Result<(), AllocError>
    ensures { OnOk result (fired.new ≡ one_more step.fires fired.old a.now) }
{
    if step.fires {
        let f = firing(alloc, a)?;
        place(fired, f)?;
    }
    Ok(())
}

// The firings among activations with their steps, in their order.
fn fired_among(alloc: Global, acts: &[Running], steps: &[Step]) -> Result<List<Fired>, AllocError>
    requires { length steps.now ≡ length acts.now }
    ensures { IfOk result (λ fired. (f : Activation → Move) → steps.now ≡ map f acts.now → fired ≡ fires_among f acts.now) }
{
    let mut fired = List::new(alloc);
    for i in 0..acts.len() {
        note(alloc, &mut fired, &acts[i], steps[i])?;
    }
    Ok(fired)
}

// Gives an activation the state of its step, and whether it is on.
fn take_step(a: &mut Running, step: Step)
    ensures { a.new ≡ moved a.old step }
{
    a.state = step.state;
    a.on = step.on;
}

// Gives each activation its step. It takes no memory.
fn go_on(acts: &mut Vec<Running>, steps: &[Step])
    requires { length steps.now ≡ length acts.old.items }
    ensures { (f : Activation → Move) → steps.now ≡ map f acts.old.items → acts.new.items ≡ map (λ a. moved a (f a)) acts.old.items }
{
    for i in 0..acts.len() {
        take_step(&mut acts[i], steps[i]);
    }
}

/// Each activation goes on by a point of this kind, with these arguments of the event and these fields of the object, by its table
/// and alphabet, also where it is off. The answer has those that were on and fire, by class, the trigger's place there and number;
/// those of a once-only trigger are off from then on. Nothing changes where there is no memory.
pub fn advance(
    alloc: Global,
    tables: &List<Table>,
    alphabets: &List<Alphabet>,
    acts: &mut List<Running>,
    classes: &Classes,
    kind: &Kind,
    args: &[Value],
    own: &[Value],
) -> Result<List<Fired>, AllocError>
    ensures acts { OnOk result (acts.new
        ≡ map (advanced tables.now alphabets.now classes.now (record { kind = kind.now; args = args.now; fields = own.now })) acts.old) }
    ensures fired { IfOk result (λ fired. fired
        ≡ fired_in tables.now alphabets.now classes.now (record { kind = kind.now; args = args.now; fields = own.now }) acts.old) }
    ensures err { OnErr result (acts.new ≡ acts.old) }
{
    let steps = steps_of(
        alloc,
        tables,
        alphabets,
        classes,
        acts.as_slice(),
        kind,
        args,
        own,
    )?;
    let fired = fired_among(alloc, acts.as_slice(), &steps)?;
    let mut items = mem::replace(acts, List::new(alloc)).into_vec();
    go_on(&mut items, &steps);
    *acts = List::from_vec(items);
    Ok(fired)
}
