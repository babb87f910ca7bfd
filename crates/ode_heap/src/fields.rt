//! The fields of a version.
ghost use Rattle.std.specs.Prelude.{◌≡◌, true, IsErrOf, IsTrue, OnOk};
ghost use Rattle.ode_host.specs.Causes.{RoseIf};
ghost use Rattle.ode_host.specs.Host.{Looks};
ghost use Rattle.ode_keep.specs.Entries.{Entries};
ghost use Rattle.ode_heap.specs.Answers.{Answers, OnDamaged, UnlessFault, is_usable};
ghost use Rattle.ode_heap.specs.Answers.{There};
ghost use Rattle.ode_heap.specs.Looking.{bytes_in, fields_of, literal_put, stamped, stamped_in, version_in, with_literals};
ghost use Rattle.ode_heap.specs.Staging.{OnTooLarge};
ghost use Rattle.ode_value.specs.Keys.{version_key};

use crate::error::{HeapError, at_key};
use crate::fitting::fit_fields;
use crate::looking::look_up;
use ode_codec::Record;
use ode_host::Host;
use ode_keep::{KEY_LEN, Keep};
use ode_value::{Class, Field, Key, List, Value};
use std::alloc::{AllocError, Global};

/// The fields of a version, with its stamp.
#[derive(Drop)]
pub struct Stamped {
    pub stamp: u32,
    pub fields: List<Value>,
}

// A field that came later than a stamp has its literal at its place.
fn put_literal(
    alloc: Global,
    stamp: u32,
    place: usize,
    field: &Field,
    values: &mut List<Value>,
) -> Result<(), AllocError>
    ensures { OnOk result (values.new ≡ literal_put stamp values.old (place, field.now)) }
{
    if field.birth <= stamp || values.len() < place {
        return Ok(());
    }
    match &field.literal {
        Some(literal) => values.insert(place, literal.copy(alloc)?),
        None => Ok(()),
    }
}

// So have all such fields, in order.
#[tactic(auto, unfolding(crate::specs::Looking::with_literals))]
fn put_literals(
    alloc: Global,
    stamp: u32,
    fields: &[Field],
    values: &mut List<Value>,
) -> Result<(), AllocError>
    ensures { OnOk result (values.new ≡ with_literals stamp fields.now values.old) }
{
    for (place, field) in fields.iter().enumerate() {
        put_literal(alloc, stamp, place, field, values)?;
    }
    Ok(())
}

// All fields of a version, where what is stored of them fits.
fn fitted(
    alloc: Global,
    key: Key,
    stamp: u32,
    fields: &[Field],
    values: List<Value>,
) -> Result<Option<Stamped>, HeapError>
    ensures value { Answers result (stamped key stamp fields.now (with_literals stamp fields.now values)) }
    ensures usable { is_usable result ≡ true }
    ensures calm { IsErrOf result HeapError.DiskFault → ⊥ }
    ensures at { OnDamaged result (λ k. k ≡ key) }
{
    let mut values = values;
    put_literals(alloc, stamp, fields, &mut values)?;
    if fit_fields(fields, values.as_slice()) {
        Ok(Some(Stamped {
            stamp,
            fields: values,
        }))
    } else {
        Err(HeapError::Damaged { key })
    }
}

// The fields in the record under a key, with those that came later, where they fit these.
fn fields_of(
    alloc: Global,
    key: Key,
    fields: &[Field],
    found: Option<Record>,
) -> Result<Option<Stamped>, HeapError>
    ensures value { Answers result (fields_of key fields.now found) }
    ensures usable { is_usable result ≡ true }
    ensures calm { IsErrOf result HeapError.DiskFault → ⊥ }
    ensures at { OnDamaged result (λ k. k ≡ key) }
{
    match found {
        None => Ok(None),
        Some(
            Record::Version {
                stamp,
                fields: values,
                ..
            },
        ) => fitted(alloc, key, stamp, fields, values),
        Some(_) => Err(HeapError::Damaged { key }),
    }
}

// The stamp and the fields of a version of an object of this class, if there is that version.
#[tactic(auto, unfolding(crate::specs::Looking::stamped_in))]
pub(crate) fn read_stamped<H: Host, K: Keep<H>>(
    alloc: Global,
    keeper: &mut K,
    host: &mut H,
    id: u64,
    number: u32,
    class: &Class,
) -> Result<Option<Stamped>, HeapError>
    requires live { IsTrue (K.live keeper.old) }
    ensures value { (entries : Entries) → K.holds keeper.old (H.view host.old) entries → Answers result (stamped_in entries id number class.now) }
    ensures holds { UnlessFault result ((entries : Entries) → K.holds keeper.old (H.view host.old) entries
        → K.holds keeper.new (H.view host.new) entries) }
    ensures looks { Looks (H.view host.old) (H.view host.new) }
    ensures usable { K.live keeper.new ≡ is_usable result }
    ensures cause { RoseIf (IsErrOf result HeapError.DiskFault) (H.view host.old).disk_faults (H.view host.new).disk_faults }
    ensures too_large { OnTooLarge result (λ _. ⊥) }
    ensures at { OnDamaged result (λ k. k ≡ version_key id number) }
{
    let key = Key {
        kind: Key::VERSION,
        a: id,
        b: u64::from(number),
    };
    match look_up(alloc, keeper, host, key) {
        Ok(found) => fields_of(alloc, key, class.fields.as_slice(), found),
        Err(error) => Err(error),
    }
}

// The fields of a version of an object of this class, if there is that version.
pub(crate) fn read_version<H: Host, K: Keep<H>>(
    alloc: Global,
    keeper: &mut K,
    host: &mut H,
    id: u64,
    number: u32,
    class: &Class,
) -> Result<Option<List<Value>>, HeapError>
    requires live { IsTrue (K.live keeper.old) }
    ensures value { (entries : Entries) → K.holds keeper.old (H.view host.old) entries → Answers result (version_in entries id number class.now) }
    ensures holds { UnlessFault result ((entries : Entries) → K.holds keeper.old (H.view host.old) entries
        → K.holds keeper.new (H.view host.new) entries) }
    ensures looks { Looks (H.view host.old) (H.view host.new) }
    ensures usable { K.live keeper.new ≡ is_usable result }
    ensures cause { RoseIf (IsErrOf result HeapError.DiskFault) (H.view host.old).disk_faults (H.view host.new).disk_faults }
    ensures too_large { OnTooLarge result (λ _. ⊥) }
    ensures at { OnDamaged result (λ k. k ≡ version_key id number) }
{
    match read_stamped(alloc, keeper, host, id, number, class) {
        Ok(Some(found)) => Ok(Some(found.fields)),
        Ok(None) => Ok(None),
        Err(error) => Err(error),
    }
}

// The bytes of the record of a version, if there is that version.
pub(crate) fn count_bytes<H: Host, K: Keep<H>>(
    keeper: &mut K,
    host: &mut H,
    id: u64,
    number: u32,
) -> Result<Option<u64>, HeapError>
    requires live { IsTrue (K.live keeper.old) }
    ensures value { (entries : Entries) → K.holds keeper.old (H.view host.old) entries → Answers result (There (bytes_in entries id number)) }
    ensures holds { UnlessFault result ((entries : Entries) → K.holds keeper.old (H.view host.old) entries
        → K.holds keeper.new (H.view host.new) entries) }
    ensures looks { Looks (H.view host.old) (H.view host.new) }
    ensures usable { K.live keeper.new ≡ is_usable result }
    ensures cause { RoseIf (IsErrOf result HeapError.DiskFault) (H.view host.old).disk_faults (H.view host.new).disk_faults }
    ensures too_large { OnTooLarge result (λ _. ⊥) }
    ensures at { OnDamaged result (λ k. k ≡ version_key id number) }
{
    let key = Key {
        kind: Key::VERSION,
        a: id,
        b: u64::from(number),
    };
    match keeper.get(host, key) {
        Ok(Some(bytes)) => Ok(Some(KEY_LEN as u64 + bytes.len() as u64)),
        Ok(None) => Ok(None),
        Err(error) => Err(at_key(error, key)),
    }
}
