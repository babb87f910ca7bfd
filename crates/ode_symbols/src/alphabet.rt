//! The alphabet of an event expression.
ghost use Rattle.std.specs.Prelude.{◌≡◌, ◌<◌, ◌≤◌, ◌++◌, IfErr, IfOk, OnOk, map, true};
ghost use Rattle.std.specs.Option.{option_copied};
ghost use Rattle.ode_symbols.specs.Alphabets.{IsRefusal, are_conditions_of};
ghost use Rattle.ode_symbols.specs.Places.{place_of};
ghost use Rattle.ode_value.specs.declared.event.EventExpr.{EventExpr};
ghost use Rattle.ode_value.specs.Limits.{symbol_limit};
ghost use Rattle.ode_value.specs.Marks.{Leaf, OfEvent, OfLeaf, composite_masks, leaves, spelled};
ghost use Rattle.ode_value.specs.Symbols.{alphabet, mark_among, size_of, symbol_among, symbol_count, symbol_mark};

use crate::error::AlphabetError;
use crate::holding::{composite_holds, composite_number, leaf_holds, number};
use crate::rows::{
    MaskedKind, add_composite_masks, add_leaves, count, different_masks, masked_kinds, symbols_in,
    symbols_of,
};
use ode_value::limits::SYMBOL_LIMIT;
use ode_value::{EventExpr, Expr, Kind, List, Value};
use std::alloc::{AllocError, Global};
use std::marker::Model;

/// The symbols of an event expression: at most 64 numbers from 0, of which each stands for the leaves, and the masks on composite
/// events, that hold at a point. The first symbols are those of points at which no leaf does.
#[derive(Drop)]
pub struct Alphabet {
    rows: List<MaskedKind>,
    masks: List<Expr>,
    size: u8,
    alloc: Global,
}

impl Model for Alphabet {
    ghost use Rattle.std.specs.Prelude.{◌≡◌, ◌≤◌};
    ghost use Rattle.std.specs.Coded.{codes};
    ghost use Rattle.ode_value.specs.contracts.statement.Expr as e;
    ghost use Rattle.ode_value.specs.Limits.{symbol_limit};
    ghost use Rattle.ode_value.specs.Symbols.{Alphabet, size_of};

    ghost Value = { Alphabet };

    ghost coded = { Prim.hlevel (codes, e.the_row.coded) };

    ghost view = { λ a. record { kinds = a.rows; masks = a.masks } };

    ghost invariant = { λ a. (a.size ≡ size_of (record { kinds = a.rows; masks = a.masks })) × (size_of (record { kinds = a.rows; masks = a.masks }) ≤ symbol_limit) };
}

impl Alphabet {
    /// The alphabet of an expression's leaves and masks on composite events.
    pub fn of(alloc: Global, e: &EventExpr) -> Result<Alphabet, AlphabetError>
        ensures rows { IfOk result (λ a. a ≡ alphabet e.now) }
        ensures few { OnOk result (symbol_count e.now ≤ symbol_limit) }
        ensures refused { IfErr result (IsRefusal e.now) }
    {
        let rows = masked_kinds(alloc, e)?;
        let masks = different_masks(alloc, e)?;
        let count = count(rows.as_slice(), masks.as_slice());
        if count <= u32::from(SYMBOL_LIMIT) {
            let size = count as u8;
            Ok(Alphabet {
                rows,
                masks,
                size,
                alloc,
            })
        } else {
            Err(AlphabetError::TooManySymbols { count })
        }
    }

    /// How many symbols there are.
    pub fn size(&self) -> u8
        ensures value { result ≡ size_of self.now }
        ensures small { result ≤ symbol_limit }
    {
        self.size
    }

    /// The symbol of a point of this kind, with these arguments of the trigger and of the event and these fields of the object.
    pub fn symbol(&self, params: &[Value], kind: &Kind, args: &[Value], own: &[Value]) -> u8
        ensures value { result ≡ symbol_among self.now params.now (record { kind = kind.now; args = args.now; fields = own.now }) }
        ensures below { result < size_of self.now }
    {
        let masks = self.masks.as_slice();
        let mut before = symbols_of(masks.len()) as u8;
        for row in self.rows.as_slice() {
            if row.kind.same(kind) {
                return before + number(row.masks.as_slice(), masks, params, kind, args, own);
            }
            before += symbols_in(row, masks) as u8;
        }
        composite_number(masks, params, own)
    }

    /// The kind of the points that a symbol stands for, if it is one of the alphabet's, and the symbol's number among those of these points.
    pub fn place(&self, symbol: u8) -> (Option<&Kind>, u8)
        ensures kind { option_copied result.0 ≡ (place_of self.now symbol).0 }
        ensures number { result.1 ≡ (place_of self.now symbol).1 }
    {
        let masks = self.masks.as_slice();
        let apart = symbols_of(masks.len());
        if u32::from(symbol) < apart {
            return (None, symbol);
        }
        let mut number = symbol - apart as u8;
        for row in self.rows.as_slice() {
            let size = symbols_in(row, masks);
            if u32::from(number) < size {
                return (Some(&row.kind), number);
            }
            number -= size as u8;
        }
        (None, number)
    }

    /// For each leaf of an expression, in the order of the text, and then for each mask on a composite event, whether it is in the
    /// mark of a symbol. They are among the alphabet's.
    pub fn mark(&self, e: &EventExpr, symbol: u8) -> Result<List<bool>, AllocError>
        ensures mark { IfOk result (λ mark. mark ≡ spelled e.now (mark_among self.now symbol)) }
        ensures of { IfOk result (λ mark. (of : EventExpr) → self.now ≡ alphabet of → are_conditions_of e.now of ≡ true
            → mark ≡ spelled e.now (symbol_mark of symbol)) }
    {
        self.spell(e, symbol)
    }

    fn spell(&self, e: &EventExpr, symbol: u8) -> Result<List<bool>, AllocError>
        ensures { IfOk result (λ mark. mark ≡ spelled e.now (mark_among self.now symbol)) }
    {
        let mut mark = List::new(self.alloc);
        self.spell_leaves(e, symbol, &mut mark)?;
        self.spell_masks(e, symbol, &mut mark)?;
        Ok(mark)
    }

    // Adds the part of the leaves.
    fn spell_leaves(
        &self,
        e: &EventExpr,
        symbol: u8,
        mark: &mut List<bool>,
    ) -> Result<(), AllocError>
        ensures { OnOk result (mark.new ≡ mark.old ++ map (λ (l : Leaf). mark_among self.now symbol (OfLeaf l.0 l.1)) (leaves e.now)) }
    {
        let mut leaves = List::new(self.alloc);
        add_leaves(self.alloc, e, &mut leaves)?;
        for leaf in leaves.as_slice() {
            let rows = self.rows.as_slice();
            let masks = self.masks.as_slice();
            mark.push(leaf_holds(rows, masks, symbol, &leaf.0, &leaf.1))?;
        }
        Ok(())
    }

    // Adds the part of the masks on composite events.
    fn spell_masks(
        &self,
        e: &EventExpr,
        symbol: u8,
        mark: &mut List<bool>,
    ) -> Result<(), AllocError>
        ensures { OnOk result (mark.new ≡ mark.old ++ map (λ x. mark_among self.now symbol (OfEvent x)) (composite_masks e.now)) }
    {
        let mut all = List::new(self.alloc);
        add_composite_masks(self.alloc, e, &mut all)?;
        for mask in all.as_slice() {
            let rows = self.rows.as_slice();
            let masks = self.masks.as_slice();
            mark.push(composite_holds(rows, masks, symbol, mask))?;
        }
        Ok(())
    }
}
