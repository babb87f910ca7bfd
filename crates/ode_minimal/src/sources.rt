//! Where each symbol leads to a state from.
ghost use Rattle.std.specs.Prelude.{◌≡◌, ℕ, ◌<◌, ◌+◌, ◌*◌, ◌++◌, ◌∷◌, [], IfOk, OnOk, length, slice_index_or, slice_set, vec_len};
ghost use Rattle.ode_minimal.specs.Sources.{IsFilled, IsSources, sources as among};

use ode_table::Table;
use ode_value::List;
use std::alloc::{AllocError, Global};

fn none(alloc: Global, rows: usize) -> Result<Vec<List<u16>>, AllocError>
    ensures length { IfOk result (λ lists. length lists.items ≡ rows) }
    ensures empty { IfOk result (λ lists. (k : ℕ) → slice_index_or lists.items k [] ≡ []) }
{
    let mut lists = Vec::new(alloc);
    for row in 0..rows {
        lists.push(List::new(alloc))?;
    }
    Ok(lists)
}

// Adds a state to the list at a place.
fn add(lists: &mut Vec<List<u16>>, place: usize, q: u16) -> Result<(), AllocError>
    requires { place < vec_len lists.old }
    ensures { OnOk result (lists.new.items ≡ slice_set lists.old.items place (slice_index_or lists.old.items place [] ++ q ∷ [])) }
{
    lists[place].push(q)
}

// Adds a state to the list of each state that a symbol leads it to.
fn add_each(t: &Table, lists: &mut Vec<List<u16>>, q: u16) -> Result<(), AllocError>
    requires below { q < t.now.states }
    requires filled { IsFilled t.now lists.old.items q 0 }
    ensures { OnOk result (IsFilled t.now lists.new.items (q + 1) 0) }
{
    for s in 0..t.symbols() {
        let place = usize::from(t.next(q, s)) * usize::from(t.symbols()) + usize::from(s);
        add(lists, place, q)?;
    }
    Ok(())
}

/// Those of a state by a symbol.
pub(crate) fn sources_at<'a>(t: &Table, lists: &'a Vec<List<u16>>, r: u16, s: u8) -> &'a [u16]
    requires state { r < t.now.states }
    requires symbol { s < t.now.symbols }
    requires sources { IsSources t.now lists.now.items }
    ensures { result.now ≡ among t.now lists.now.items r s }
{
    let place = usize::from(r) * usize::from(t.symbols()) + usize::from(s);
    lists[place].as_slice()
}

/// For each state in turn and each symbol in turn the states that the symbol leads to it from.
pub(crate) fn sources_of(alloc: Global, t: &Table) -> Result<Vec<List<u16>>, AllocError>
    ensures { IfOk result (λ lists. IsSources t.now lists.items) }
{
    let mut lists = none(alloc, usize::from(t.states()) * usize::from(t.symbols()))?;
    for q in 0..t.states() {
        add_each(t, &mut lists, q)?;
    }
    Ok(lists)
}
