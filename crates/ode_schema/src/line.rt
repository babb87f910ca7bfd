//! A class with its ancestors, from either end.
ghost use Rattle.std.specs.Prelude.{◌≡◌, ◌≤◌, IfSome, length, reverse, slice_get};
ghost use Rattle.std.specs.Option.{option_copied, unwrap_or};
ghost use Rattle.ode_schema.specs.Cursors.{headed};
ghost use Rattle.ode_schema.specs.Parts.{family_in};
ghost use Rattle.ode_types.specs.Families.{upward};
ghost use Rattle.ode_types.specs.Limits.{trigger_limit};

use ode_types::Classes;
use ode_value::Class;
use std::marker::Model;

/// A class and its ancestors, the nearest first. Contracts see those that are still to come.
#[derive(Drop)]
pub(crate) struct Line<'a> {
    classes: &'a Classes,
    // the number of the next one
    number: u32,
}

impl<'a> Model for Line<'a> {
    ghost use Rattle.std.specs.Prelude.{List as Items, reverse};
    ghost use Rattle.ode_value.specs.declared.class.Class.{Class as Declared};
    ghost use Rattle.ode_types.specs.Checked.{AreChecked};
    ghost use Rattle.ode_types.specs.Families.{upward};
    ghost use Rattle.ode_value.specs.contracts.class.Class as class;
    ghost use Rattle.std.specs.Coded.{coded_list};

    ghost Value = { Items Declared };

    ghost coded = { coded_list class.the_row.coded };

    ghost view = { λ l. upward l.number (reverse l.classes.now) };

    ghost invariant = { λ l. AreChecked l.classes.now };
}

/// The same from the farthest ancestor down.
#[derive(Drop)]
pub(crate) struct Family<'a> {
    classes: &'a Classes,
    number: u32,
    // how many of the line are still to come
    left: usize,
}

impl<'a> Model for Family<'a> {
    ghost use Rattle.std.specs.Prelude.{◌≤◌, List as Items, length, reverse, take};
    ghost use Rattle.ode_value.specs.declared.class.Class.{Class as Declared};
    ghost use Rattle.ode_types.specs.Checked.{AreChecked};
    ghost use Rattle.ode_types.specs.Families.{upward};
    ghost use Rattle.ode_value.specs.contracts.class.Class as class;
    ghost use Rattle.std.specs.Coded.{coded_list};

    ghost Value = { Items Declared };

    ghost coded = { coded_list class.the_row.coded };

    ghost view = { λ f. reverse (take f.left (upward f.number (reverse f.classes.now))) };

    ghost invariant = { λ f. AreChecked f.classes.now × (f.left ≤ length (upward f.number (reverse f.classes.now))) };
}

fn parent_of(class: &Class) -> u32
    ensures { result ≡ unwrap_or class.now.parent 0 }
{
    class.parent.unwrap_or(0)
}

impl<'a> Line<'a> {
    /// The line from the class of a number.
    pub(crate) fn new(classes: &'a Classes, number: u32) -> Line<'a>
        ensures { result ≡ upward number (reverse classes.now) }
    {
        // Read, so that they are known as checked.
        let _checked = classes.as_slice();
        Line { classes, number }
    }

    /// The next class, which has few triggers of its own.
    #[tactic(auto, using(crate::proofs::Lines::lines))]
    pub(crate) fn next(&mut self) -> Option<&'a Class>
        ensures next { self.old ≡ headed (option_copied result) self.new }
        ensures few { IfSome result (λ c. length c.now.triggers ≤ trigger_limit) }
    {
        let class = self.classes.class(self.number)?;
        self.number = parent_of(class);
        Some(class)
    }

    /// How many classes are still to come.
    #[tactic(auto, using(crate::proofs::Lines::lines))]
    pub(crate) fn len(mut self) -> usize
        ensures { result ≡ length self.entry }
    {
        let most = self.classes.as_slice().len();
        for count in 0..most {
            if self.next().is_none() {
                return count;
            }
        }
        most
    }

    /// The class at a place of those that are still to come.
    pub(crate) fn nth(mut self, at: usize) -> Option<&'a Class>
        ensures nth { option_copied result ≡ slice_get self.entry at }
        ensures few { IfSome result (λ c. length c.now.triggers ≤ trigger_limit) }
    {
        for _passed in 0..at {
            self.next()?;
        }
        self.next()
    }
}

impl<'a> Family<'a> {
    /// The class of a number with its ancestors.
    pub(crate) fn new(classes: &'a Classes, number: u32) -> Family<'a>
        ensures { result ≡ family_in classes.now number }
    {
        // Read, so that they are known as checked.
        let _checked = classes.as_slice();
        let left = Line::new(classes, number).len();
        Family {
            classes,
            number,
            left,
        }
    }

    /// The next class, which has few triggers of its own.
    #[tactic(auto, using(crate::proofs::Lines::families))]
    pub(crate) fn next(&mut self) -> Option<&'a Class>
        ensures next { self.old ≡ headed (option_copied result) self.new }
        ensures few { IfSome result (λ c. length c.now.triggers ≤ trigger_limit) }
    {
        if self.left == 0 {
            return None;
        }
        self.left -= 1;
        Line::new(self.classes, self.number).nth(self.left)
    }
}
