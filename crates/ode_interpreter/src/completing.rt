//! The end of a transaction's work.
ghost use Rattle.std.specs.Prelude.{◌≡◌, List as Items, true};
ghost use Rattle.ode_value.specs.Completing.{completes, goes_round, posts_tcomplete};
ghost use Rattle.ode_value.specs.Pasts.{numbers};
ghost use Rattle.ode_value.specs.Posting.{is_touched};
ghost use Rattle.ode_value.specs.Worlds.{Declared};
ghost use Rattle.ode_interpreter.specs.Seen.{Ends, Leaves, with_classes};

use crate::acts::Acts;
use crate::outermost::{fire_now, post};
use crate::schema::Schema;
use crate::stop::Stop;
use ode_value::Kind;
use std::alloc::Global;

// The last point of a touched object that is still there.
#[tactic(auto, unfolding(ode_value::specs::Completing::posts_tcomplete))]
fn post_tcomplete<S: Schema, T: Acts<S>>(
    alloc: Global,
    schema: &S,
    tx: &mut T,
    id: u64,
) -> Result<(), Stop>
    ensures acts { (classes : Items Declared) (g : T.Known) → S.declares schema.now classes → T.knows tx.old schema.now g → is_touched id (T.view tx.old g) ≡ true → Ends result (with_classes classes (T.view tx.new g)) (posts_tcomplete (numbers (S.tables schema.now)) id (with_classes classes (T.view tx.old g))) }
    ensures kept { (g : T.Known) → T.knows tx.old schema.now g → Leaves result (T.knows tx.new schema.now g) (T.failed tx.new g) }
    ensures faults { (b : T.Base) → T.usable tx.old b → Leaves result (T.usable tx.new b) (T.ended tx.new b) }
{
    if !tx.is_live(schema, id)? {
        return Ok(());
    }
    post(alloc, schema, tx, id, &Kind::TComplete, &[])
}

// The rounds of last points and deferred actions.
#[tactic(auto, using(crate::proofs::Rounds::one_round, crate::proofs::Rounds::no_round, crate::proofs::Stays::at_touched))]
fn go_round<S: Schema, T: Acts<S>>(
    alloc: Global,
    schema: &S,
    tx: &mut T,
    rounds: u64,
) -> Result<(), Stop>
    ensures acts { (classes : Items Declared) (g : T.Known) → S.declares schema.now classes → T.knows tx.old schema.now g → Ends result (with_classes classes (T.view tx.new g)) (goes_round (numbers (S.tables schema.now)) rounds 0 0 (with_classes classes (T.view tx.old g))) }
    ensures kept { (g : T.Known) → T.knows tx.old schema.now g → Leaves result (T.knows tx.new schema.now g) (T.failed tx.new g) }
    ensures faults { (b : T.Base) → T.usable tx.old b → Leaves result (T.usable tx.new b) (T.ended tx.new b) }
{
    let mut at = 0u64;
    let mut ran = 0u64;
    'round: for _ in 0..rounds {
        match tx.touched_at(schema, at)? {
            Some(id) => {
                post_tcomplete(alloc, schema, tx, id)?;
                at += 1;
            }
            None => match tx.deferred_at(schema, ran)? {
                Some(f) => {
                    fire_now(alloc, schema, tx, &f)?;
                    ran += 1;
                }
                None => return Ok(()),
            },
        }
    }
    Ok(())
}

/// The whole completion: last points and deferred actions, soft constraints, and the weight of what is to be kept.
#[tactic(auto, unfolding(ode_value::specs::Completing::completes))]
pub fn complete<S: Schema, T: Acts<S>>(alloc: Global, schema: &S, tx: &mut T) -> Result<(), Stop>
    ensures acts { (classes : Items Declared) (g : T.Known) → S.declares schema.now classes → T.knows tx.old schema.now g → classes ≡ T.declared g → Ends result (with_classes classes (T.view tx.new g)) (completes (numbers (S.tables schema.now)) (with_classes classes (T.view tx.old g))) }
    ensures kept { (g : T.Known) → T.knows tx.old schema.now g → Leaves result (T.knows tx.new schema.now g) (T.failed tx.new g) }
    ensures faults { (b : T.Base) → T.usable tx.old b → Leaves result (T.usable tx.new b) (T.ended tx.new b) }
{
    let rounds = tx.rounds(schema)?;
    go_round(alloc, schema, tx, rounds)?;
    tx.test_soft(schema)?;
    tx.weigh(schema)
}
