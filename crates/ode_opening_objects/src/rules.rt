//! The rules of records, one by one.
ghost use Rattle.std.specs.Prelude.{◌≡◌};
ghost use Rattle.ode_opening_objects.specs.Numbers.{at, has};
ghost use Rattle.ode_opening_objects.specs.Objects.{args_refer, fields_fit, fits_head, object_fits, references_fit, references_in, version_fits};
ghost use Rattle.ode_opening_objects.specs.Scenes.{fits, object_read, referred};
ghost use Rattle.ode_passes.specs.Rules.{needs};
ghost use Rattle.ode_passes.specs.declared.cause.Cause.TheVariants as cause;

use crate::fitting::{match_sorts, refer};
use crate::head::{Head, of_object};
use crate::numbers::{ByNumber, Numbers, Owners};
use crate::scene::{Check, Course, Queue, Roll, Rule, Scene};
use crate::triggers::{entry_fits, goes_on, trigger_under};
use ode_codec::Record;
use ode_passes::{Cause, OpenError, Pass, record_in};
use ode_types::Classes;
use ode_value::{Key, Value};
use std::alloc::Global;

impl Pass for Numbers {
    ghost use Rattle.std.specs.Prelude.{Ok};
    ghost use Rattle.ode_opening_objects.specs.Numbers.{with_number};

    ghost takes = { λ numbers e. Ok (with_number numbers e) };

    fn take(&mut self, _alloc: Global, key: Key, _value: &[u8]) -> Result<(), OpenError> {
        self.put(key.b)?;
        Ok(())
    }
}

impl Pass for ByNumber<()> {
    ghost use Rattle.std.specs.Prelude.{Ok};
    ghost use Rattle.ode_opening_objects.specs.Numbers.{with_owner};

    ghost takes = { λ owners e. Ok (with_owner owners e) };

    fn take(&mut self, _alloc: Global, key: Key, _value: &[u8]) -> Result<(), OpenError> {
        self.put(key.a, ())?;
        Ok(())
    }
}

fn object_fits(scene: &Scene, owners: &Owners, key: Key, value: &[u8], head: Head) -> bool
    ensures { result ≡ object_fits scene.now.counters.next_number scene.now.classes (has owners.now) (key, value.now) head }
{
    key.a < scene.counters.next_number
        && scene.classes.class(head.class).is_some()
        && owners.has(key.a)
}

// What is known of an object by its record, where that keeps the rule of objects.
fn object_read(
    scene: &Scene,
    owners: &Owners,
    key: Key,
    value: &[u8],
    row: &Record,
) -> Result<Head, Cause>
    ensures { result ≡ object_read scene.now (has owners.now) (key, value.now) row.now }
{
    match of_object(row) {
        Some(head) if object_fits(scene, owners, key, value, head) => Ok(head),
        _ => Err(Cause::Record(key)),
    }
}

impl<'a> Pass for Roll<'a> {
    ghost use Rattle.ode_opening_objects.specs.Scenes.{with_object};

    ghost takes = { with_object };

    fn take(&mut self, alloc: Global, key: Key, value: &[u8]) -> Result<(), OpenError> {
        let record = record_in(alloc, key, value)?;
        let head = object_read(&self.scene, &self.owners, key, value, &record)?;
        self.scene.heads.put(key.a, head)?;
        Ok(())
    }
}

fn fields_fit(classes: &Classes, number: u32, stamp: u32, values: &[Value]) -> bool
    ensures { result ≡ fields_fit classes.now number stamp values.now }
{
    match classes.class(number) {
        Some(class) => match_sorts(stamp, class.fields.as_slice(), values),
        None => false,
    }
}

fn fits_head(
    classes: &Classes,
    number: u32,
    parent: u32,
    stamp: u32,
    fields: &[Value],
    head: Head,
) -> bool
    ensures { result ≡ fits_head classes.now number parent stamp fields.now head }
{
    1 <= number
        && number <= head.last
        && (parent == 0 || parent < number)
        && fields_fit(classes, head.class, stamp, fields)
}

fn version_fits(scene: &Scene, row: &Record) -> bool
    ensures { result ≡ version_fits scene.now.counters.added scene.now.classes (at scene.now.heads) row.now }
{
    match row {
        Record::Version {
            object,
            number,
            parent,
            stamp,
            fields,
        } => match scene.heads.at(*object) {
            Some(head) => {
                let fields = fields.as_slice();
                *stamp <= scene.counters.added
                    && fits_head(scene.classes, *number, *parent, *stamp, fields, head)
            }
            None => false,
        },
        _ => false,
    }
}

fn references_in(scene: &Scene, number: u32, stamp: u32, values: &[Value]) -> bool
    ensures { result ≡ references_in scene.now.counters.next_number scene.now.classes (at scene.now.heads) number stamp values.now }
{
    match scene.classes.class(number) {
        Some(class) => refer(scene, stamp, class.fields.as_slice(), values),
        None => true,
    }
}

// Whether the references in arguments for a trigger fit.
fn args_refer(scene: &Scene, class: u32, place: u16, args: &[Value]) -> bool
    ensures { result ≡ args_refer scene.now.counters.next_number scene.now.classes (at scene.now.heads) class place args.now }
{
    match trigger_under(scene.classes, class, place) {
        Some(trigger) => refer(scene, 0, trigger.params.as_slice(), args),
        None => true,
    }
}

fn references_fit(scene: &Scene, row: &Record) -> bool
    ensures { result ≡ references_fit scene.now.counters.next_number scene.now.classes (at scene.now.heads) row.now }
{
    match row {
        Record::Version {
            object,
            stamp,
            fields,
            ..
        } => match scene.heads.at(*object) {
            Some(head) => references_in(scene, head.class, *stamp, fields.as_slice()),
            None => true,
        },
        Record::Activation(a) => args_refer(scene, a.class, a.trigger, a.args.as_slice()),
        Record::Entry { entry, .. } => {
            let args = entry.args.as_slice();
            args_refer(scene, entry.class, entry.trigger, args)
        }
        _ => true,
    }
}

// Whether this holds of the record under a key.
fn needs(key: Key, holds: bool) -> Result<(), Cause>
    ensures { result ≡ needs (cause.Record key) holds }
{
    if holds {
        Ok(())
    } else {
        Err(Cause::Record(key))
    }
}

fn activation_goes_on(scene: &Scene, key: Key, row: &Record) -> Result<(), Cause>
    ensures { result ≡ fits Rule.Activations scene.now key row.now }
{
    match row {
        Record::Activation(a) => goes_on(scene, key, a),
        _ => Err(Cause::Record(key)),
    }
}

// Whether a record keeps the rule of a pass.
fn fits(rule: Rule, scene: &Scene, key: Key, row: &Record) -> Result<(), Cause>
    ensures { result ≡ fits rule scene.now key row.now }
{
    match rule {
        Rule::Versions => needs(key, version_fits(scene, row)),
        Rule::Activations => activation_goes_on(scene, key, row),
    }
}

// The first reference so far that doesn't fit, with those in a record more.
fn referred(course: &Course, key: Key, row: &Record) -> Result<(), Cause>
    ensures { result ≡ (referred course.now key row.now).references }
{
    course.references?;
    needs(key, references_fit(&course.scene, row))
}

impl<'a> Pass for Check<'a> {
    ghost use Rattle.ode_opening_objects.specs.Scenes.{checked};

    ghost takes = { checked };

    fn take(&mut self, alloc: Global, key: Key, value: &[u8]) -> Result<(), OpenError> {
        let record = record_in(alloc, key, value)?;
        fits(self.rule, &self.course.scene, key, &record)?;
        self.course.references = referred(&self.course, key, &record);
        Ok(())
    }
}

impl<'a> Pass for Queue<'a> {
    ghost use Rattle.ode_opening_objects.specs.Scenes.{queued};

    ghost takes = { queued };

    fn take(&mut self, alloc: Global, key: Key, value: &[u8]) -> Result<(), OpenError> {
        if self.left == 0 {
            return Err(OpenError::BadFile(Cause::Record(key)));
        }
        let record = record_in(alloc, key, value)?;
        needs(key, entry_fits(&self.course.scene, &record))?;
        self.course.references = referred(&self.course, key, &record);
        self.left -= 1;
        Ok(())
    }
}
