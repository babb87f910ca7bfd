//! What is known by numbers of objects and activations.
ghost use Rattle.std.specs.Prelude.{◌≡◌, [], length, IfErr, IfOk, IsTrue, OnErr, OnOk};
ghost use Rattle.std.specs.BTreeMap.{insert_entry};
ghost use Rattle.std.specs.Option.{IfSome};
ghost use Rattle.std.specs.Ordering.{nat_cmp};
ghost use Rattle.ode_opening_objects.specs.Numbers.{IsAt, IsGap, at, has, is_twice, noted};

use crate::head::Head;
use std::alloc::{AllocError, Global};
use std::collections::BTreeMap;
use std::marker::Model;

/// What is known by numbers, in the order of these.
#[derive(Drop)]
pub(crate) struct ByNumber<X> {
    rows: Vec<(u64, X)>,
}

/// What is known of objects, by their numbers.
pub(crate) type Heads = ByNumber<Head>;

/// The numbers of the objects that have versions.
pub(crate) type Owners = ByNumber<()>;

impl<X> Model for ByNumber<X> {
    ghost use Rattle.std.specs.Prelude.{ℕ, List as Items};
    ghost use Rattle.std.specs.Coded.{coded_list, coded_ℕ, coded×};
    ghost use Rattle.std.specs.List.Sorted.{IsStrictlySortedBy};
    ghost use Rattle.std.specs.Map.{keys_of};
    ghost use Rattle.std.specs.Ordering.{nat_cmp};

    ghost Value = { Items (ℕ × X) };

    ghost coded = { coded_list (coded× coded_ℕ X.code) };

    ghost view = { λ b. b.rows.items };

    ghost invariant = { λ b. IsStrictlySortedBy nat_cmp (keys_of b.rows.items) };
}

impl<X: Copy> ByNumber<X> {
    /// Nothing is known.
    pub(crate) fn new(alloc: Global) -> ByNumber<X>
        ensures { result ≡ [] }
    {
        ByNumber {
            rows: Vec::new(alloc),
        }
    }

    // Whether a number comes behind all that stand here.
    fn is_past(&self, id: u64) -> bool
        ensures { IsTrue result → IsGap id self.now (length self.now) }
    {
        match self.rows.last() {
            Some(row) => row.0 < id,
            None => false,
        }
    }

    // The place that is as far behind the first one as the number is above its number, where the number stands there.
    // It does where no number between is left out.
    fn guess(&self, id: u64) -> Option<usize>
        ensures { IfSome result (IsAt id self.now) }
    {
        let (first, _) = self.rows.first()?;
        let place = id.checked_sub(*first)? as usize;
        let (number, _) = self.rows.get(place)?;
        if *number == id { Some(place) } else { None }
    }

    // Where a number stands, or where it would.
    fn search(&self, id: u64) -> Result<usize, usize>
        ensures found { IfOk result (IsAt id self.now) }
        ensures absent { IfErr result (IsGap id self.now) }
    {
        if self.is_past(id) {
            return Err(self.rows.len());
        }
        if let Some(place) = self.guess(id) {
            return Ok(place);
        }
        self.rows.binary_search_by_key(&id, |&(number, _)| number)
    }

    /// This is known of a number from now on. Nothing changes where there is no memory.
    pub(crate) fn put(&mut self, id: u64, x: X) -> Result<(), AllocError>
        ensures ok { OnOk result (self.new ≡ insert_entry nat_cmp self.old id x) }
        ensures err { OnErr result (self.new ≡ self.old) }
    {
        match self.search(id) {
            Ok(place) => {
                self.rows[place] = (id, x);
                Ok(())
            }
            Err(place) => Ok(self.rows.insert(place, (id, x))?),
        }
    }

    /// What is known of a number.
    pub(crate) fn at(&self, id: u64) -> Option<X>
        ensures { result ≡ at self.now id }
    {
        match self.search(id) {
            Ok(place) => Some(self.rows[place].1),
            Err(_) => None,
        }
    }

    /// Whether something is known of a number.
    pub(crate) fn has(&self, id: u64) -> bool
        ensures { result ≡ has self.now id }
    {
        self.at(id).is_some()
    }
}

/// The numbers of activations, each with whether more than one has it.
#[derive(Drop)]
pub(crate) struct Numbers {
    map: BTreeMap<u64, bool>,
}

impl Model for Numbers {
    ghost use Rattle.std.specs.Prelude.{ℕ, Bool, List as Items};

    ghost Value = { Items (ℕ × Bool) };

    ghost view = { λ n. n.map.entries };
}

impl Numbers {
    /// No numbers.
    pub(crate) fn new(alloc: Global) -> Numbers
        ensures { result ≡ [] }
    {
        Numbers {
            map: BTreeMap::new(alloc),
        }
    }

    /// One more activation has this number. Nothing changes where there is no memory.
    pub(crate) fn put(&mut self, number: u64) -> Result<(), AllocError>
        ensures ok { OnOk result (self.new ≡ noted self.old number) }
        ensures err { OnErr result (self.new ≡ self.old) }
    {
        let twice = self.map.contains_key(&number);
        self.map.insert(number, twice)?;
        Ok(())
    }

    /// Whether more than one activation has a number.
    pub(crate) fn is_twice(&self, number: u64) -> bool
        ensures { result ≡ is_twice self.now number }
    {
        match self.map.get(&number) {
            Some(twice) => *twice,
            None => false,
        }
    }
}
