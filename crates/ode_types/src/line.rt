//! The classes that a check sees, and the line from a class to its ancestors.
ghost use Rattle.std.specs.Prelude.{◌≡◌, ◌++◌, length, nat_le};
ghost use Rattle.std.specs.Option.{option_copied, unwrap_or};
ghost use Rattle.ode_types.specs.Families.{ancestors_of, class_named, class_numbered, upward};
ghost use Rattle.ode_types.specs.Lines.{alone, headed};

use crate::classes::Classes;
use ode_value::{Class, Name};
use std::marker::Model;

/// The classes that are declared, and the one that is being checked, if one is. Contracts see the list of all.
#[derive(Drop)]
pub struct Known<'a> {
    classes: &'a Classes,
    draft: Option<&'a Class>,
}

impl<'a> Model for Known<'a> {
    ghost use Rattle.std.specs.Prelude.{◌++◌, List as Items};
    ghost use Rattle.std.specs.Option.{option_copied};
    ghost use Rattle.ode_value.specs.declared.class.Class.{Class as Declared};
    ghost use Rattle.ode_types.specs.Lines.{alone};
    ghost use Rattle.ode_value.specs.contracts.class.Class as class;
    ghost use Rattle.std.specs.Coded.{coded_list};

    ghost Value = { Items Declared };

    ghost coded = { coded_list class.the_row.coded };

    ghost view = { λ k. k.classes.now ++ alone (option_copied k.draft) };
}

/// The ancestors that are still to come, the nearest first. Contracts see their list.
#[derive(Drop)]
pub struct Line<'a> {
    classes: &'a Classes,
    // how many of the classes are left to look among
    before: usize,
    draft: Option<&'a Class>,
    // the number of the next ancestor
    number: u32,
}

impl<'a> Model for Line<'a> {
    ghost use Rattle.std.specs.Prelude.{◌++◌, List as Items, reverse, take};
    ghost use Rattle.std.specs.Option.{option_copied};
    ghost use Rattle.ode_value.specs.declared.class.Class.{Class as Declared};
    ghost use Rattle.ode_types.specs.Families.{upward};
    ghost use Rattle.ode_types.specs.Lines.{alone};
    ghost use Rattle.ode_value.specs.contracts.class.Class as class;
    ghost use Rattle.std.specs.Coded.{coded_list};

    ghost Value = { Items Declared };

    ghost coded = { coded_list class.the_row.coded };

    ghost view = { λ l. upward l.number (reverse (take l.before l.classes.now ++ alone (option_copied l.draft))) };
}

fn parent_of(class: &Class) -> u32
    ensures { result ≡ unwrap_or class.now.parent 0 }
{
    class.parent.unwrap_or(0)
}

// A class, where it has this name.
fn where_named<'a>(class: Option<&'a Class>, name: &Name) -> Option<&'a Class>
    ensures { option_copied result ≡ class_named (alone (option_copied class.entry)) name.now }
{
    let class = class?;
    if class.name.same(name) {
        Some(class)
    } else {
        None
    }
}

// A class, where it has this number.
fn where_numbered<'a>(class: Option<&'a Class>, number: u32) -> Option<&'a Class>
    ensures { option_copied result ≡ class_numbered (alone (option_copied class.entry)) number }
{
    let class = class?;
    if class.number == number {
        Some(class)
    } else {
        None
    }
}

impl<'a> Known<'a> {
    /// These classes, and this one behind them.
    pub fn new(classes: &'a Classes, draft: Option<&'a Class>) -> Known<'a>
        ensures { result ≡ classes.now ++ alone (option_copied draft.entry) }
    {
        Known { classes, draft }
    }

    /// The same classes again.
    pub fn again(&self) -> Known<'a>
        ensures { result ≡ self.now }
    {
        Known {
            classes: self.classes,
            draft: self.draft,
        }
    }

    /// The class of this name.
    #[tactic(auto, using(crate::proofs::LineLaws::found_behind))]
    pub fn named(&self, name: &Name) -> Option<&'a Class>
        ensures { option_copied result ≡ class_named self.now name.now }
    {
        match self.classes.named(name) {
            Some(class) => Some(class),
            None => where_named(self.draft, name),
        }
    }

    /// The class of this number.
    #[tactic(auto, using(crate::proofs::LineLaws::found_behind))]
    pub fn numbered(&self, number: u32) -> Option<&'a Class>
        ensures { option_copied result ≡ class_numbered self.now number }
    {
        match self.classes.class(number) {
            Some(class) => Some(class),
            None => where_numbered(self.draft, number),
        }
    }

    /// The ancestors of a class, the nearest first.
    pub fn ancestors(&self, class: &Class) -> Line<'a>
        ensures { result ≡ ancestors_of self.now class.now }
    {
        Line {
            classes: self.classes,
            before: self.classes.as_slice().len(),
            draft: self.draft,
            number: parent_of(class),
        }
    }
}

impl<'a> Line<'a> {
    /// The next ancestor.
    pub fn next(&mut self) -> Option<&'a Class>
        ensures { self.old ≡ headed (option_copied result) self.new }
    {
        let draft = where_numbered(self.draft, self.number);
        self.draft = None;
        if let Some(class) = draft {
            self.number = parent_of(class);
            return Some(class);
        }
        let class = self.classes.among(self.number, self.before)?;
        self.before = self.number as usize - 1;
        self.number = parent_of(class);
        Some(class)
    }

    /// Whether at most so many are still to come.
    pub fn is_within(mut self, limit: usize) -> bool
        ensures { result ≡ nat_le (length self.entry) limit }
    {
        for _passed in 0..limit {
            if self.next().is_none() {
                return true;
            }
        }
        self.next().is_none()
    }
}
