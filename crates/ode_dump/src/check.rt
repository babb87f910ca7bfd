//! How many records of some kinds a database has.
ghost use Rattle.std.specs.Prelude.{◌≡◌, ◌++◌, OnOk, IfOk, IsErrOf, IsTrue};
ghost use Rattle.ode_host.specs.Causes.{RoseIf};
ghost use Rattle.ode_host.specs.Host.{Looks};
ghost use Rattle.ode_keep.specs.Entries.{Entries};
ghost use Rattle.ode_passes.specs.Answers.{OnBroken, UnlessFault, is_usable};
ghost use Rattle.ode_dump.specs.Dumping.{check_line, check_text, count_keys, counted};

use crate::keys::read_keys;
use crate::numbers::put_number;
use ode_host::Host;
use ode_keep::Keep;
use ode_passes::OpenError;
use ode_value::{Key, List};
use std::alloc::{AllocError, Global};

// How many keys are of a kind.
fn count(keys: &[Key], kind: u8) -> usize
    ensures { result ≡ count_keys kind keys.now }
{
    keys.iter().filter(|key| key.kind == kind).count()
}

// A text, and how many keys are of a kind behind it.
fn put_count(
    alloc: Global,
    text: &mut Vec<u8>,
    front: &[u8],
    keys: &[Key],
    kind: u8,
) -> Result<(), AllocError>
    ensures { OnOk result (text.new.items ≡ text.old.items ++ counted front.now kind keys.now) }
{
    put_number(alloc, text, front, count(keys, kind) as u64)
}

// The line of these counts.
#[tactic(auto, using(crate::proofs::Joining::joined_texts))]
fn check_line(alloc: Global, keys: &[Key]) -> Result<List<u8>, AllocError>
    ensures { IfOk result (λ text. text ≡ check_line keys.now) }
{
    let mut text = Vec::new(alloc);
    put_count(alloc, &mut text, b"good classes ", keys, Key::CLASS_HEAD)?;
    put_count(alloc, &mut text, b" objects ", keys, Key::OBJECT)?;
    put_count(alloc, &mut text, b" activations ", keys, Key::ACTIVATION)?;
    put_count(alloc, &mut text, b" entries ", keys, Key::ENTRY)?;
    text.push(b'\n')?;
    Ok(List::from_vec(text))
}

/// How many classes, objects, activations and entries of the queue there are. No rule is broken. Nothing is written.
pub fn check_text<H: Host, K: Keep<H>>(
    alloc: Global,
    keeper: &mut K,
    host: &mut H,
) -> Result<List<u8>, OpenError>
    requires live { IsTrue (K.live keeper.old) }
    ensures text { IfOk result (λ text. (entries : Entries) → K.holds keeper.old (H.view host.old) entries → text ≡ check_text entries) }
    ensures broken { OnBroken result ((entries : Entries) → K.holds keeper.old (H.view host.old) entries → ⊥) }
    ensures holds { UnlessFault result ((entries : Entries) → K.holds keeper.old (H.view host.old) entries
        → K.holds keeper.new (H.view host.new) entries) }
    ensures looks { Looks (H.view host.old) (H.view host.new) }
    ensures usable { K.live keeper.new ≡ is_usable result }
    ensures cause { RoseIf (IsErrOf result OpenError.DiskFault) (H.view host.old).disk_faults (H.view host.new).disk_faults }
{
    let keys = read_keys(alloc, keeper, host)?;
    let line = check_line(alloc, keys.as_slice())?;
    Ok(line)
}
