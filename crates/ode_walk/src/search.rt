//! A search by breadth over the pairs of states that words lead to, each pair once.
ghost use Rattle.std.specs.Prelude.{◌≡◌, ◌<◌, ◌+◌, ◌*◌, ◌++◌, ◌∷◌, [], IfErr, IfOk, OnErr, OnOk, false, length, replicate, slice_index_or, slice_set, true};
ghost use Rattle.ode_value.specs.Tables.{Table as Automaton, next_state};
ghost use Rattle.ode_walk.specs.Relation.{IsCause, Leads};
ghost use Rattle.ode_walk.specs.Search.{GoesBack, IsExplored, IsLonger, IsSearch, IsTree, visit_at};

use crate::error::RelateError;
use crate::visit::{Visit, word_to};
use ode_table::Table;
use ode_value::List;
use std::alloc::{AllocError, Global};

/// The visits so far, and for each pair of states whether it is one of theirs.
#[derive(Drop)]
pub(crate) struct Search {
    pub(crate) visits: List<Visit>,
    pub(crate) seen: List<bool>,
}

fn none_seen(alloc: Global, pairs: usize) -> Result<List<bool>, AllocError>
    ensures { IfOk result (λ seen. seen ≡ replicate pairs false) }
{
    let seen = vec![in alloc; false; pairs]?;
    Ok(List::from_vec(seen))
}

// Adds a visit, unless its pair was seen.
fn add(search: &mut Search, pair: usize, visit: Visit) -> Result<(), AllocError>
    requires pair { pair < length search.old.seen }
    ensures known { OnOk result (slice_index_or search.old.seen pair false ≡ true
        → (search.new.visits ≡ search.old.visits) × (search.new.seen ≡ search.old.seen)) }
    ensures new { OnOk result (slice_index_or search.old.seen pair false ≡ false
        → (search.new.visits ≡ search.old.visits ++ visit ∷ []) × (search.new.seen ≡ slice_set search.old.seen pair true)) }
{
    if search.seen.as_slice()[pair] {
        return Ok(());
    }
    search.visits.push(visit)?;
    search.seen.set(pair, true);
    Ok(())
}

// The word of a visit with one more symbol.
fn longer_word(
    alloc: Global,
    visits: &[Visit],
    at: usize,
    symbol: u8,
) -> Result<List<u8>, AllocError>
    requires within { at < length visits.now }
    requires back { GoesBack visits.now }
    ensures leads { IfOk result (λ word. (stored built : Automaton) → IsTree stored built visits.now → symbol < stored.symbols
        → Leads stored built word (next_state stored (visit_at visits.now at).stored symbol) (next_state built (visit_at visits.now at).built symbol)) }
    ensures length { IfOk result (λ word. (stored built : Automaton) → IsTree stored built visits.now
        → length word ≡ (visit_at visits.now at).length + 1) }
    ensures longer { IfOk result (IsLonger visits.now at symbol) }
{
    let mut word = word_to(alloc, visits, at)?;
    word.push(symbol)?;
    Ok(List::from_vec(word))
}

// Steps both tables by a symbol from the states of a visit.
fn step(
    alloc: Global,
    stored: &Table,
    built: &Table,
    search: &mut Search,
    head: usize,
    symbol: u8,
) -> Result<(), RelateError>
    requires head { head < length search.old.visits }
    requires symbol { symbol < stored.now.symbols }
    requires symbols { stored.now.symbols ≡ built.now.symbols }
    requires search { IsSearch stored.now built.now search.old.visits search.old.seen head symbol }
    ensures ok { OnOk result (IsSearch stored.now built.now search.new.visits search.new.seen head (symbol + 1)) }
    ensures head { OnOk result (head < length search.new.visits) }
    ensures err { IfErr result (IsCause stored.now built.now) }
{
    let visit = search.visits.as_slice()[head];
    let p = stored.next(visit.stored, symbol);
    let q = built.next(visit.built, symbol);
    if stored.yes(p) != built.yes(q) {
        let word = longer_word(alloc, search.visits.as_slice(), head, symbol)?;
        return Err(RelateError::Differs { word });
    }
    let pair = usize::from(p) * usize::from(built.states()) + usize::from(q);
    let next = Visit {
        stored: p,
        built: q,
        from: head,
        symbol,
        length: visit.length + 1,
    };
    add(search, pair, next)?;
    Ok(())
}

// Steps both tables by each symbol from the states of a visit.
fn step_by_each(
    alloc: Global,
    stored: &Table,
    built: &Table,
    search: &mut Search,
    head: usize,
) -> Result<(), RelateError>
    requires head { head < length search.old.visits }
    requires symbols { stored.now.symbols ≡ built.now.symbols }
    requires search { IsSearch stored.now built.now search.old.visits search.old.seen head 0 }
    ensures ok { OnOk result (IsSearch stored.now built.now search.new.visits search.new.seen (head + 1) 0) }
    ensures err { IfErr result (IsCause stored.now built.now) }
{
    for symbol in 0..stored.symbols() {
        step(alloc, stored, built, search, head, symbol)?;
    }
    Ok(())
}

// The visit of both starts alone.
fn begin(alloc: Global, stored: &Table, built: &Table) -> Result<Search, AllocError>
    ensures { IfOk result (λ search. IsSearch stored.now built.now search.visits search.seen 0 0) }
{
    let pairs = usize::from(stored.states()) * usize::from(built.states());
    let mut search = Search {
        visits: List::new(alloc),
        seen: none_seen(alloc, pairs)?,
    };
    let first = Visit {
        stored: 0,
        built: 0,
        from: 0,
        symbol: 0,
        length: 0,
    };
    add(&mut search, 0, first)?;
    Ok(search)
}

/// The visits of all pairs of states that words lead to.
pub(crate) fn explore(
    alloc: Global,
    stored: &Table,
    built: &Table,
) -> Result<List<Visit>, RelateError>
    requires { stored.now.symbols ≡ built.now.symbols }
    ensures ok { IfOk result (IsExplored stored.now built.now) }
    ensures err { IfErr result (IsCause stored.now built.now) }
{
    let mut search = begin(alloc, stored, built)?;
    let mut head = 0;
    while head < search.visits.len() {
        step_by_each(alloc, stored, built, &mut search, head)?;
        head += 1;
    }
    let Search { visits, .. } = search;
    Ok(visits)
}
