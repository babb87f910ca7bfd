//! The records of a change: the fields that are added, and the counters.
ghost use Rattle.std.specs.Prelude.{◌≡◌, ◌<◌, ◌≤◌, [], ◌∷◌, length, IfOk, IsErrOf, OnOk};
ghost use Rattle.std.specs.List.{AllByRecursion};
ghost use Rattle.ode_changed_laws.specs.Records.{added_row_by, fields_put, referred_by, with_counters};
ghost use Rattle.ode_class_records.specs.Puts.{with_rows};
ghost use Rattle.ode_codec.specs.StoredRows.{sort_number};
ghost use Rattle.ode_good_runs.specs.Reading.{IsReadValue};
ghost use Rattle.ode_keep.specs.ShortValues.{HasShortValues};
ghost use Rattle.ode_transact.specs.Errors.{OnDamaged};
ghost use Rattle.ode_value.specs.Limits.{name_limit, transaction_limit};
ghost use Rattle.ode_value.specs.declared.change.Added.{Added as Field};

use crate::reading::damaged;
use ode_class_records::put;
use ode_codec::{BOOL_SORT, Counters, INT_SORT, REFERENCE_SORT, Record, TEXT_SORT};
use ode_keep::Batch;
use ode_transact::EngineError;
use ode_types::Classes;
use ode_value::{Added, Sort};
use std::alloc::{AllocError, Global};

// A sort as a number.
fn sort_number(sort: &Sort) -> u8
    ensures { result ≡ sort_number sort.now }
{
    match sort {
        Sort::Int => INT_SORT,
        Sort::Bool => BOOL_SORT,
        Sort::Text => TEXT_SORT,
        Sort::Reference(_) | Sort::Void => REFERENCE_SORT,
    }
}

// The number of the class that a sort refers to.
fn referred(classes: &Classes, sort: &Sort) -> u32
    ensures { result ≡ referred_by classes.now sort.now }
{
    match sort {
        Sort::Reference(name) => match classes.named(name) {
            Some(class) => class.number,
            None => 0,
        },
        Sort::Int | Sort::Bool | Sort::Text | Sort::Void => 0,
    }
}

#[tactic(auto, unfolding(ode_codec::specs::Rules::IsCounted))]
fn put_added(
    alloc: Global,
    batch: &mut Batch,
    classes: &Classes,
    added: &Added,
) -> Result<(), AllocError>
    ensures is { OnOk result (batch.new ≡ with_rows (added_row_by classes.now added.now ∷ []) batch.old) }
    ensures name { OnOk result (length added.now.name ≤ name_limit) }
{
    // Read, so that its length is known.
    let _name = added.name.as_bytes();
    let record = Record::Added {
        class: added.class,
        birth: added.birth,
        name: added.name.copy(alloc)?,
        sort: sort_number(&added.sort),
        of: referred(classes, &added.sort),
        literal: added.value.copy(alloc)?,
    };
    put(alloc, batch, &record)
}

/// The changes that put the records of added fields.
pub(crate) fn added_changes(
    alloc: Global,
    classes: &Classes,
    added: &[Added],
) -> Result<Batch, AllocError>
    requires read { AllByRecursion (λ (a : Field). IsReadValue a.value) added.now }
    ensures is { IfOk result (λ batch. batch ≡ fields_put classes.now added.now) }
    ensures short { IfOk result HasShortValues }
{
    let mut batch = Batch::new(alloc);
    for field in added {
        put_added(alloc, &mut batch, classes, field)?;
    }
    Ok(batch)
}

/// The change that puts the counters behind a transaction, with so many added fields.
#[tactic(auto, unfolding(ode_codec::specs::Rules::IsCounted))]
pub(crate) fn put_counters(
    alloc: Global,
    batch: &mut Batch,
    counters: Counters,
    added: u32,
) -> Result<(), EngineError>
    ensures is { OnOk result (batch.new ≡ with_counters counters added batch.old) }
    ensures calm { IsErrOf result EngineError.DiskFault → ⊥ }
    ensures silent { IsErrOf result EngineError.WriteFault → ⊥ }
    ensures undamaged { OnDamaged result (counters.next_transaction < transaction_limit → ⊥) }
{
    let Some(next_transaction) = counters.next_transaction.checked_add(1) else {
        return damaged();
    };
    let counters = Counters {
        next_transaction,
        added,
        ..counters
    };
    put(alloc, batch, &Record::Counters(counters))?;
    Ok(())
}
