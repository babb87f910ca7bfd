//! The declared classes of a running transaction.
ghost use Rattle.std.specs.Prelude.{◌≡◌, IfOk, IfSome, List as Items, Some, map, reverse, slice_get};
ghost use Rattle.std.specs.List.{list_any};
ghost use Rattle.std.specs.Option.{IsSome, option_and_then, option_copied, option_map};
ghost use Rattle.std.specs.Str.{bytes_eq};
ghost use Rattle.ode_value.specs.declared.class.Class.{Class as Checked};
ghost use Rattle.ode_value.specs.Classes as machine;
ghost use Rattle.ode_value.specs.Same.{same_kind};
ghost use Rattle.ode_value.specs.Worlds.{Declared, class_numbered};
ghost use Rattle.ode_types.specs.Checked.{AreChecked};
ghost use Rattle.ode_types.specs.Families.{method_named, upward};
ghost use Rattle.ode_states.specs.Machine.{checked};
ghost use Rattle.ode_interpreter.specs.Seen.{trigger as seen};
ghost use Rattle.ode_schema.specs.Parts.{AreFit, family_in, table_place, trigger_of, trigger_under};

use crate::constraints::Constraints;
use crate::line::Family;
use crate::triggers::{initial_of, named_of};
use ode_interpreter::Trigger;
use ode_symbols::Alphabet;
use ode_table::Table;
use ode_types::families::{is_a, method_named};
use ode_types::{Classes, Known};
use ode_value::{Class, Kind, List, Method, Name, TriggerDecl};
use std::alloc::{AllocError, Global};
use std::marker::Model;

/// The declared classes, with the tables and the alphabets of their triggers and, for each class, the place of its first one.
#[derive(Drop)]
pub struct Program<'a> {
    classes: &'a Classes,
    tables: &'a List<Table>,
    alphabets: &'a List<Alphabet>,
    maps: &'a List<u32>,
}

impl<'a> Model for Program<'a> {
    ghost use Rattle.ode_types.specs.Checked.{AreChecked};
    ghost use Rattle.ode_schema.specs.Parts.{AreFit, Parts};
    ghost use Rattle.ode_value.specs.contracts.class.Class as class;
    ghost use Rattle.ode_value.specs.contracts.statement.Expr as expr;
    ghost use Rattle.std.specs.Coded.{codes};

    ghost Value = { Parts };

    ghost coded = { Prim.hlevel (codes, class.the_row.coded, expr.the_row.coded) };

    ghost view = { λ p. record { classes = p.classes.now; tables = p.tables.now; alphabets = p.alphabets.now; maps = p.maps.now } };

    ghost invariant = { λ p. AreChecked p.classes.now × AreFit (record { classes = p.classes.now; tables = p.tables.now; alphabets = p.alphabets.now; maps = p.maps.now }) };
}

// The nearest method of a name, of the class of a number and its ancestors.
fn method_of<'a>(classes: &'a Classes, class: u32, name: &Name) -> Option<&'a Method>
    ensures { option_copied result ≡ method_named (upward class (reverse classes.now)) name.now }
{
    // Read, so that they are known as checked.
    let _checked = classes.as_slice();
    match classes.class(class) {
        Some(class) => method_named(&Known::new(classes, None), class, name),
        None => None,
    }
}

// Whether the class of a number or an ancestor has a name.
fn has_name(classes: &Classes, class: u32, name: &Name) -> bool
    ensures { result ≡ list_any (λ (c : Checked). bytes_eq c.name name.now) (upward class (reverse classes.now)) }
{
    // Read, so that they are known as checked.
    let _checked = classes.as_slice();
    match classes.class(class) {
        Some(class) => is_a(&Known::new(classes, None), class, name),
        None => false,
    }
}

/// Whether the class of a number has a name, or inherits from the class that has it.
pub fn inherits(classes: &Classes, class: u32, name: &Name) -> bool
    ensures { (declared : Items Declared) → checked declared ≡ classes.now → result ≡ machine.is_a declared class name.now }
{
    has_name(classes, class, name)
}

// The trigger at a place of a class, where the class is there.
fn own_trigger(class: Option<&Class>, place: u16) -> Option<&TriggerDecl>
    ensures { option_copied result ≡ option_and_then (λ (c : Checked). slice_get c.triggers place) (option_copied class.entry) }
{
    class?.triggers.as_slice().get(usize::from(place))
}

fn has_kind(kinds: &[Kind], kind: &Kind) -> bool
    ensures { result ≡ list_any (same_kind kind.now) kinds.now }
{
    kinds.iter().any(|other| kind.same(other))
}

impl<'a> Program<'a> {
    /// The classes with these tables and alphabets, which fit their triggers.
    pub fn new(
        classes: &'a Classes,
        tables: &'a List<Table>,
        alphabets: &'a List<Alphabet>,
        maps: &'a List<u32>,
    ) -> Program<'a>
        requires { AreFit (record { classes = classes.now; tables = tables.now; alphabets = alphabets.now; maps = maps.now }) }
        ensures { result ≡ record { classes = classes.now; tables = tables.now; alphabets = alphabets.now; maps = maps.now } }
    {
        // Read, so that they are known as checked.
        let _checked = classes.as_slice();
        Program {
            classes,
            tables,
            alphabets,
            maps,
        }
    }

    /// The classes.
    pub fn classes(&self) -> &'a Classes
        ensures { result.now ≡ self.now.classes }
    {
        self.classes
    }

    /// The tables of all triggers, which fit them.
    pub fn tables(&self) -> &'a List<Table>
        ensures is { result.now ≡ self.now.tables }
        ensures fit { AreFit self.now }
    {
        self.tables
    }

    /// The alphabets of all triggers, each at the place of its table.
    pub fn alphabets(&self) -> &'a List<Alphabet>
        ensures { result.now ≡ self.now.alphabets }
    {
        self.alphabets
    }

    /// For each class the place of its first table.
    pub fn maps(&self) -> &'a List<u32>
        ensures { result.now ≡ self.now.maps }
    {
        self.maps
    }

    /// The class of a number.
    pub fn class(&self, number: u32) -> Option<&'a Class>
        ensures { (classes : Items Declared) → checked classes ≡ self.now.classes → option_copied result ≡ class_numbered number classes }
    {
        self.classes.class(number)
    }

    /// Whether the class of a number has a name, or inherits from the class that has it.
    pub fn is_a(&self, class: u32, name: &Name) -> bool
        ensures { (classes : Items Declared) → checked classes ≡ self.now.classes → result ≡ machine.is_a classes class name.now }
    {
        inherits(self.classes, class, name)
    }

    /// The nearest method of a name, by the line of a class.
    pub(crate) fn nearest(&self, class: u32, name: &Name) -> Option<&'a Method>
        ensures { option_copied result ≡ method_named (upward class (reverse self.now.classes)) name.now }
    {
        method_of(self.classes, class, name)
    }

    /// The soft constraints of a class, or the hard ones, ancestors' first.
    pub fn constraints(&self, class: u32, soft: bool) -> Constraints<'a>
        ensures { (classes : Items Declared) → checked classes ≡ self.now.classes → result ≡ machine.constraints_of soft classes class }
    {
        Constraints::new(Family::new(self.classes, class), soft)
    }

    /// A class with its ancestors.
    pub(crate) fn family(&self, class: u32) -> Family<'a>
        ensures is { result ≡ family_in self.now.classes class }
        ensures checked { AreChecked self.now.classes }
    {
        Family::new(self.classes, class)
    }

    /// The trigger of a name that a class has.
    pub fn trigger_named(&self, class: u32, name: &Name) -> Option<Trigger>
        ensures is { (classes : Items Declared) → checked classes ≡ self.now.classes → option_map (seen (trigger_of self.now.classes)) result ≡ machine.trigger_named classes class name.now }
        ensures declared { IfSome result (λ t. IsSome (trigger_under self.now.classes t.class t.place)) }
    {
        named_of(&mut Family::new(self.classes, class), name)
    }

    /// The trigger at a place of the class that declares it.
    pub fn trigger_at(&self, t: Trigger) -> Option<&'a TriggerDecl>
        ensures is { (classes : Items Declared) → checked classes ≡ self.now.classes → option_map (λ d. machine.trigger_of t.class (t.place, d)) (option_copied result) ≡ machine.trigger_at classes t.class t.place }
        ensures under { option_copied result ≡ trigger_under self.now.classes t.class t.place }
    {
        own_trigger(self.classes.class(t.class), t.place)
    }

    /// The name of a trigger, and no bytes where there is none.
    pub fn trigger_name(&self, t: Trigger) -> &'a [u8]
        ensures { result.now ≡ (trigger_of self.now.classes t.class t.place).name }
    {
        match self.trigger_at(t) {
            Some(trigger) => trigger.name.as_bytes(),
            None => &[],
        }
    }

    /// The triggers of which a new object of a class has an activation.
    pub fn initial(&self, alloc: Global, class: u32) -> Result<List<Trigger>, AllocError>
        ensures { (classes : Items Declared) → checked classes ≡ self.now.classes → IfOk result (λ ts. map (seen (trigger_of self.now.classes)) ts ≡ machine.initial_triggers classes class) }
    {
        initial_of(alloc, &mut self.family(class))
    }

    /// Whether a class or an ancestor lists a kind.
    pub fn lists(&self, class: u32, kind: &Kind) -> bool
        ensures { (classes : Items Declared) → checked classes ≡ self.now.classes → result ≡ machine.lists_kind classes class kind.now }
    {
        match self.classes.class(class) {
            Some(class) => has_kind(class.kinds.as_slice(), kind),
            None => false,
        }
    }

    /// The place of a declared trigger's table and alphabet.
    pub fn place(&self, t: Trigger) -> u32
        requires { IsSome (trigger_under self.now.classes t.class t.place) }
        ensures { Some result ≡ table_place self.now.maps t.class t.place }
    {
        // Read, so that they are known to fit.
        let _fit = self.tables();
        let first = self.maps().as_slice()[t.class as usize - 1];
        first + u32::from(t.place)
    }
}
