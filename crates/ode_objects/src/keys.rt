//! Sets of keys, as lists in rising order.
ghost use Rattle.std.specs.Prelude.{◌≡◌, OnOk, ◌++◌, IfOk};
ghost use Rattle.ode_value.specs.Changes.{with_key};
ghost use Rattle.ode_value.specs.Keys.{activation_key, object_key, version_key};
ghost use Rattle.ode_objects.specs.Objects.{activation_keys, object_keys, version_keys};

use crate::object::{Active, Object, Version};
use ode_value::{Key, List};
use std::alloc::{AllocError, Global};
use std::cmp::Ordering;

/// The key of an object.
pub fn object_key(id: u64) -> Key
    ensures { result ≡ object_key id }
{
    Key {
        kind: Key::OBJECT,
        a: id,
        b: 0,
    }
}

/// The key of a version of an object.
pub fn version_key(id: u64, number: u64) -> Key
    ensures { result ≡ version_key id number }
{
    Key {
        kind: Key::VERSION,
        a: id,
        b: number,
    }
}

/// The key of an activation of an object.
pub fn activation_key(id: u64, number: u64) -> Key
    ensures { result ≡ activation_key id number }
{
    Key {
        kind: Key::ACTIVATION,
        a: id,
        b: number,
    }
}

// Adds keys behind others.
fn push_all(all: &mut List<Key>, keys: &[Key]) -> Result<(), AllocError>
    ensures { OnOk result (all.new ≡ all.old ++ keys.now) }
{
    for key in keys {
        all.push(*key)?;
    }
    Ok(())
}

// Adds a set with one more key behind other keys.
fn push_with(all: &mut List<Key>, keys: &[Key], key: Key) -> Result<(), AllocError>
    ensures { OnOk result (all.new ≡ all.old ++ with_key keys.now key) }
{
    match keys {
        [] => all.push(key),
        [first, rest @ ..] => match key.cmp(first) {
            Ordering::Less => {
                all.push(key)?;
                push_all(all, keys)
            }
            Ordering::Equal => push_all(all, keys),
            Ordering::Greater => {
                all.push(*first)?;
                push_with(all, rest, key)
            }
        },
    }
}

/// A set with one more key.
pub fn with_key(alloc: Global, keys: &[Key], key: Key) -> Result<List<Key>, AllocError>
    ensures { IfOk result (λ all. all ≡ with_key keys.now key) }
{
    let mut all = List::new(alloc);
    push_with(&mut all, keys, key)?;
    Ok(all)
}

// Adds the keys of versions of an object.
fn push_versions(keys: &mut List<Key>, id: u64, versions: &[Version]) -> Result<(), AllocError>
    ensures { OnOk result (keys.new ≡ keys.old ++ version_keys id versions.now) }
{
    for version in versions {
        keys.push(version_key(id, u64::from(version.number)))?;
    }
    Ok(())
}

// Adds the keys of activations of an object.
fn push_activations(keys: &mut List<Key>, id: u64, activations: &[Active]) -> Result<(), AllocError>
    ensures { OnOk result (keys.new ≡ keys.old ++ activation_keys id activations.now) }
{
    for active in activations {
        keys.push(activation_key(id, active.number))?;
    }
    Ok(())
}

/// The keys of an object's activations.
pub fn activation_keys(alloc: Global, id: u64, object: &Object) -> Result<List<Key>, AllocError>
    ensures { IfOk result (λ keys. keys ≡ activation_keys id object.now.activations) }
{
    let mut keys = List::new(alloc);
    push_activations(&mut keys, id, object.activations.as_slice())?;
    Ok(keys)
}

/// The keys of an object, of its versions and of its activations.
pub fn object_keys(alloc: Global, id: u64, object: &Object) -> Result<List<Key>, AllocError>
    ensures { IfOk result (λ keys. keys ≡ object_keys id object.now) }
{
    let mut keys = List::new(alloc);
    keys.push(object_key(id))?;
    push_versions(&mut keys, id, object.versions.as_slice())?;
    push_activations(&mut keys, id, object.activations.as_slice())?;
    Ok(keys)
}
