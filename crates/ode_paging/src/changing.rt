//! The index changes with a commit, or not at all.
ghost use Rattle.std.specs.Prelude.{◌≡◌, ◌++◌, [], ◌∷◌, reverse, IsSome, OnErr, OnOk};
ghost use Rattle.std.specs.BTreeMap.{insert_entry, is_at};
ghost use Rattle.std.specs.Map.{lookup};
ghost use Rattle.ode_keep.specs.Entries.{HasRisingKeys};
ghost use Rattle.ode_value.specs.Keys.{key_cmp};
ghost use Rattle.ode_paging.specs.Changing.{ArePresent, IsPresent, forgotten};
ghost use Rattle.ode_paging.specs.Indexing.{Leads};
ghost use Rattle.ode_paging.specs.Making.{Moves, all_pointed};
ghost use Rattle.ode_paging.specs.Replacing.{pointed};

use crate::index::Index;
use crate::planning::Move;
use ode_value::Key;
use std::alloc::{AllocError, Global};
use std::collections::BTreeMap;

// A key leads to a page from then on, and is noted. Where there is no memory nothing changes.
fn add_noted(
    leads: &mut BTreeMap<Key, u32>,
    added: &mut Vec<Key>,
    key: Key,
    page: u32,
) -> Result<(), AllocError>
    ensures put { OnOk result (leads.new.entries ≡ insert_entry key_cmp leads.old.entries key page) }
    ensures noted { OnOk result (added.new.items ≡ added.old.items ++ key ∷ []) }
    ensures same { OnErr result (leads.new.entries ≡ leads.old.entries) }
    ensures no_note { OnErr result (added.new.items ≡ added.old.items) }
    ensures rising { HasRisingKeys leads.old.entries }
{
    // The keys rise, as this call tells.
    let _ = leads.len();
    added.push(key)?;
    if leads.insert(key, page).is_err() {
        let _ = added.pop();
        return Err(AllocError);
    }
    Ok(())
}

// A key that led nowhere and is to lead to a page leads there, and is noted.
fn room_for(
    leads: &mut BTreeMap<Key, u32>,
    added: &mut Vec<Key>,
    key: Key,
    page: Option<u32>,
) -> Result<(), AllocError>
    ensures room { OnOk result (IsPresent leads.new.entries key page) }
    ensures kept { OnOk result ((moves : Moves) → ArePresent moves leads.old.entries → ArePresent moves leads.new.entries) }
    ensures same { OnOk result ((moves : Moves) → IsSome (lookup (is_at (key_cmp key)) moves)
        → all_pointed moves leads.new.entries ≡ all_pointed moves leads.old.entries) }
    ensures back { (old : Leads) → forgotten (reverse added.old.items) leads.old.entries ≡ old
        → forgotten (reverse added.new.items) leads.new.entries ≡ old }
{
    match page {
        Some(page) if !leads.contains_key(&key) => add_noted(leads, added, key, page),
        _ => Ok(()),
    }
}

// Keys that led nowhere and are to lead to pages lead there, and are noted.
fn make_room(
    leads: &mut BTreeMap<Key, u32>,
    added: &mut Vec<Key>,
    moves: &[Move],
) -> Result<(), AllocError>
    ensures room { OnOk result (ArePresent moves.now leads.new.entries) }
    ensures same { OnOk result (all_pointed moves.now leads.new.entries ≡ all_pointed moves.now leads.old.entries) }
    ensures back { (old : Leads) → forgotten (reverse added.old.items) leads.old.entries ≡ old
        → forgotten (reverse added.new.items) leads.new.entries ≡ old }
{
    for (key, page) in moves {
        room_for(leads, added, *key, *page)?;
    }
    Ok(())
}

// The keys that were noted lead nowhere again.
fn undo(leads: &mut BTreeMap<Key, u32>, added: &mut Vec<Key>)
    ensures { leads.new.entries ≡ forgotten (reverse added.old.items) leads.old.entries }
{
    while let Some(key) = added.pop() {
        let _ = leads.remove(&key);
    }
}

// A key that leads to a page leads to this one from then on. It takes no memory.
fn lead_again(leads: &mut BTreeMap<Key, u32>, key: Key, page: u32)
    requires { IsSome (lookup (is_at (key_cmp key)) leads.old.entries) }
    ensures { leads.new.entries ≡ insert_entry key_cmp leads.old.entries key page }
{
    match leads.insert(key, page) {
        Ok(_) => {}
        Err(_) => unreachable!(),
    }
}

// A key leads to a page, or nowhere, from then on. It takes no memory.
fn lead_one(leads: &mut BTreeMap<Key, u32>, key: Key, page: Option<u32>)
    requires { IsPresent leads.old.entries key page }
    ensures { leads.new.entries ≡ pointed leads.old.entries key page }
{
    match page {
        Some(page) => lead_again(leads, key, page),
        None => {
            let _ = leads.remove(&key);
        }
    }
}

// All keys lead to their pages. It takes no memory, since those that are to lead to one lead to one already.
fn lead_all(leads: &mut BTreeMap<Key, u32>, moves: &[Move])
    requires rising { HasRisingKeys moves.now }
    requires present { ArePresent moves.now leads.old.entries }
    ensures { leads.new.entries ≡ all_pointed moves.now leads.old.entries }
{
    // The keys rise, as this call tells.
    let _ = leads.len();
    for (key, page) in moves {
        lead_one(leads, *key, *page);
    }
}

impl Index {
    /// Keys lead elsewhere, as these moves say. Where there is no memory nothing changes.
    pub fn move_all(&mut self, alloc: Global, moves: &[Move]) -> Result<(), AllocError>
        requires { HasRisingKeys moves.now }
        ensures ok { OnOk result (self.new ≡ all_pointed moves.now self.old) }
        ensures err { OnErr result (self.new ≡ self.old) }
    {
        let mut added = Vec::new(alloc);
        if let Err(error) = make_room(&mut self.by_key, &mut added, moves) {
            undo(&mut self.by_key, &mut added);
            return Err(error);
        }
        lead_all(&mut self.by_key, moves);
        Ok(())
    }
}
