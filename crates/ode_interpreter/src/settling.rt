//! The points of a settling.
ghost use Rattle.std.specs.Prelude.{◌≡◌, [], List as Items, IfErr, IfOk, map, true};
ghost use Rattle.std.specs.List.{All};
ghost use Rattle.ode_value.specs.Acts.{each};
ghost use Rattle.ode_value.specs.Firings.{arises, both_lists, whole_list};
ghost use Rattle.ode_value.specs.Pasts.{numbers};
ghost use Rattle.ode_value.specs.Posting.{collects, is_touched};
ghost use Rattle.ode_value.specs.Settling.{posted, posts_last, says};
ghost use Rattle.ode_value.specs.Worlds.{Declared};
ghost use Rattle.ode_interpreter.specs.Seen.{Ends, EndsBy, IsFault, IsShort, Leaves, firing, with_classes};
ghost use Rattle.ode_interpreter.specs.Settled.{last_place};

use crate::acts::Acts;
use crate::firing::Firing;
use crate::schema::Schema;
use crate::stop::Stop;
use ode_value::{Kind, List};

// Each firing is collected, or dropped.
fn collect_all<S: Schema, T: Acts<S>>(
    schema: &S,
    tx: &mut T,
    firings: &[Firing],
) -> Result<(), Stop>
    requires { All IsShort firings.now }
    ensures acts { (classes : Items Declared) (g : T.Known) → S.declares schema.now classes → T.knows tx.old schema.now g → Ends result (with_classes classes (T.view tx.new g)) (each (collects says true) (map (firing (S.trigger schema.now)) firings.now) (with_classes classes (T.view tx.old g))) }
    ensures kept { (g : T.Known) → T.knows tx.old schema.now g → Leaves result (T.knows tx.new schema.now g) (T.failed tx.new g) }
    ensures faults { (b : T.Base) → T.usable tx.old b → Leaves result (T.usable tx.new b) (T.ended tx.new b) }
{
    for f in firings {
        tx.collect_last(schema, f)?;
    }
    Ok(())
}

// The point of a touched object arises in both lists, or in the list of all points alone.
fn arise_last<S: Schema, T: Acts<S>>(
    schema: &S,
    tx: &mut T,
    kept: bool,
    kind: &Kind,
    id: u64,
) -> Result<List<Firing>, Stop>
    ensures acts { (classes : Items Declared) (g : T.Known) → S.declares schema.now classes → T.knows tx.old schema.now g → is_touched id (T.view tx.old g) ≡ true → EndsBy (map (firing (S.trigger schema.now))) result (with_classes classes (T.view tx.new g)) (arises (numbers (S.tables schema.now)) (last_place (numbers (S.tables schema.now)) kept) id kind.now [] (with_classes classes (T.view tx.old g))) }
    ensures kept { (g : T.Known) → T.knows tx.old schema.now g → Leaves result (T.knows tx.new schema.now g) (T.failed tx.new g) }
    ensures faults { (b : T.Base) → T.usable tx.old b → Leaves result (T.usable tx.new b) (T.ended tx.new b) }
    ensures short { IfOk result (All IsShort) }
{
    if kept {
        tx.arise(schema, id, kind, &[])
    } else {
        tx.arise_whole(schema, id, kind, &[])
    }
}

// The last point of a touched object, where it is there and its class lists the kind.
#[tactic(auto, unfolding(ode_value::specs::Settling::posts_last))]
fn post_last<S: Schema, T: Acts<S>>(
    schema: &S,
    tx: &mut T,
    kept: bool,
    kind: &Kind,
    id: u64,
) -> Result<(), Stop>
    ensures acts { (classes : Items Declared) (g : T.Known) → S.declares schema.now classes → T.knows tx.old schema.now g → is_touched id (T.view tx.old g) ≡ true → Ends result (with_classes classes (T.view tx.new g)) (posts_last (numbers (S.tables schema.now)) (last_place (numbers (S.tables schema.now)) kept) kind.now id (with_classes classes (T.view tx.old g))) }
    ensures kept { (g : T.Known) → T.knows tx.old schema.now g → Leaves result (T.knows tx.new schema.now g) (T.failed tx.new g) }
    ensures faults { (b : T.Base) → T.usable tx.old b → Leaves result (T.usable tx.new b) (T.ended tx.new b) }
{
    if !tx.is_live(schema, id)? {
        return Ok(());
    }
    if !tx.is_listed(schema, id, kind)? {
        return Ok(());
    }
    let firings = arise_last(schema, tx, kept, kind, id)?;
    collect_all(schema, tx, firings.as_slice())
}

// The last points of touched objects, in order.
fn post_each<S: Schema, T: Acts<S>>(
    schema: &S,
    tx: &mut T,
    kept: bool,
    kind: &Kind,
    ids: &[u64],
) -> Result<(), Stop>
    ensures acts { (classes : Items Declared) (g : T.Known) → S.declares schema.now classes → T.knows tx.old schema.now g → All (λ id. is_touched id (T.view tx.old g) ≡ true) ids.now → Ends result (with_classes classes (T.view tx.new g)) (each (posts_last (numbers (S.tables schema.now)) (last_place (numbers (S.tables schema.now)) kept) kind.now) ids.now (with_classes classes (T.view tx.old g))) }
    ensures kept { (g : T.Known) → T.knows tx.old schema.now g → Leaves result (T.knows tx.new schema.now g) (T.failed tx.new g) }
    ensures faults { (b : T.Base) → T.usable tx.old b → Leaves result (T.usable tx.new b) (T.ended tx.new b) }
{
    for id in ids {
        post_last(schema, tx, kept, kind, *id)?;
    }
    Ok(())
}

// The last points of the touched objects, in the order of touching, up to one that aborts.
fn post_all<S: Schema, T: Acts<S>>(
    schema: &S,
    tx: &mut T,
    kept: bool,
    kind: &Kind,
) -> Result<(), Stop>
    ensures acts { (classes : Items Declared) (g : T.Known) → S.declares schema.now classes → T.knows tx.old schema.now g → Ends result (with_classes classes (T.view tx.new g)) (each (posts_last (numbers (S.tables schema.now)) (last_place (numbers (S.tables schema.now)) kept) kind.now) (T.view tx.old g).touched (with_classes classes (T.view tx.old g))) }
    ensures kept { (g : T.Known) → T.knows tx.old schema.now g → Leaves result (T.knows tx.new schema.now g) (T.failed tx.new g) }
    ensures faults { (b : T.Base) → T.usable tx.old b → Leaves result (T.usable tx.new b) (T.ended tx.new b) }
{
    let ids = tx.touched(schema)?;
    post_each(schema, tx, kept, kind, ids.as_slice())
}

// The last points of the touched objects, in the order of touching.
#[tactic(auto, unfolding(ode_value::specs::Settling::posted))]
fn post_touched<S: Schema, T: Acts<S>>(
    schema: &S,
    tx: &mut T,
    kept: bool,
    kind: &Kind,
) -> Result<(), Stop>
    ensures acts { (classes : Items Declared) (g : T.Known) → S.declares schema.now classes → T.knows tx.old schema.now g → IfOk result (λ _. with_classes classes (T.view tx.new g) ≡ posted (numbers (S.tables schema.now)) (last_place (numbers (S.tables schema.now)) kept) kind.now (with_classes classes (T.view tx.old g))) }
    ensures kept { (g : T.Known) → T.knows tx.old schema.now g → Leaves result (T.knows tx.new schema.now g) (T.failed tx.new g) }
    ensures faults { (b : T.Base) → T.usable tx.old b → Leaves result (T.usable tx.new b) (T.ended tx.new b) }
    ensures settled { IfErr result IsFault }
{
    match post_all(schema, tx, kept, kind) {
        Ok(()) => Ok(()),
        Err(Stop::Abort(_)) => Ok(()),
        Err(fault) => Err(fault),
    }
}

/// The points of a commit, in both lists of each touched object that is there. Their firings are collected.
pub fn post_committed<S: Schema, T: Acts<S>>(schema: &S, tx: &mut T) -> Result<(), Stop>
    ensures acts { (classes : Items Declared) (g : T.Known) → S.declares schema.now classes → T.knows tx.old schema.now g → IfOk result (λ _. with_classes classes (T.view tx.new g) ≡ posted (numbers (S.tables schema.now)) (both_lists (numbers (S.tables schema.now))) Kind.TCommit (with_classes classes (T.view tx.old g))) }
    ensures kept { (g : T.Known) → T.knows tx.old schema.now g → Leaves result (T.knows tx.new schema.now g) (T.failed tx.new g) }
    ensures faults { (b : T.Base) → T.usable tx.old b → Leaves result (T.usable tx.new b) (T.ended tx.new b) }
    ensures settled { IfErr result IsFault }
{
    post_touched(schema, tx, true, &Kind::TCommit)
}

/// Those of an abort, in the lists of all points alone.
pub fn post_aborted<S: Schema, T: Acts<S>>(schema: &S, tx: &mut T) -> Result<(), Stop>
    ensures acts { (classes : Items Declared) (g : T.Known) → S.declares schema.now classes → T.knows tx.old schema.now g → IfOk result (λ _. with_classes classes (T.view tx.new g) ≡ posted (numbers (S.tables schema.now)) (whole_list (numbers (S.tables schema.now))) Kind.TAbort (with_classes classes (T.view tx.old g))) }
    ensures kept { (g : T.Known) → T.knows tx.old schema.now g → Leaves result (T.knows tx.new schema.now g) (T.failed tx.new g) }
    ensures faults { (b : T.Base) → T.usable tx.old b → Leaves result (T.usable tx.new b) (T.ended tx.new b) }
    ensures settled { IfErr result IsFault }
{
    post_touched(schema, tx, false, &Kind::TAbort)
}
