//! Changes of classes.
ghost use Rattle.std.specs.Prelude.{◌≡◌, ◌∷◌, [], OnOk};
ghost use Rattle.ode_grammar.specs.Stacks.{rest};
ghost use Rattle.ode_syntax.specs.Built.{below_zero, change_with, name, negative, tree, value_of, without_change};

use crate::top::{take_change, take_expr, take_name};
use ode_grammar::Stack;
use ode_value::{Change, Expr, List, Name, Sort, Value};
use std::alloc::{AllocError, Global};

// A number on the other side of zero, where it stands above.
fn below_zero(number: i64) -> i64
    ensures { result ≡ below_zero number }
{
    if number < 0 { number } else { 0 - number }
}

// A leaf with a minus before it.
fn negative(leaf: Expr) -> Expr
    ensures { result ≡ negative leaf }
{
    match leaf {
        Expr::Lit(Value::Int(number)) => Expr::Lit(Value::Int(below_zero(number))),
        other => other,
    }
}

// The value that a leaf says.
fn value_of(leaf: Expr) -> Value
    ensures { result ≡ value_of leaf }
{
    match leaf {
        Expr::Lit(value) => value,
        _ => Value::Int(0),
    }
}

/// Begins a change of the class whose name is on top. The word `change` stands below it.
pub fn begin_change(
    alloc: Global,
    names: &mut Stack<Name>,
    changes: &mut Stack<Change>,
) -> Result<(), AllocError>
    ensures behind { OnOk result (names.new ≡ without_change names.old) }
    ensures begun { OnOk result (changes.new ≡ (record { class = name names.old; fields = [] }) ∷ changes.old) }
{
    let class = take_name(alloc, names)?;
    take_name(alloc, names)?;
    changes.push(Change {
        class,
        fields: List::new(alloc),
    })
}

/// Puts a minus before the leaf on top.
pub fn negate(leaves: &mut Stack<Expr>) -> Result<(), AllocError>
    ensures { OnOk result (leaves.new ≡ negative (tree leaves.old) ∷ rest leaves.old) }
{
    let leaf = take_expr(leaves);
    leaves.push(negative(leaf))
}

/// Takes the value of the leaf on top away.
pub fn take_value(leaves: &mut Stack<Expr>) -> Value
    ensures top { result ≡ value_of (tree leaves.old) }
    ensures rest { leaves.new ≡ rest leaves.old }
{
    value_of(take_expr(leaves))
}

/// Adds a field to the change on top.
pub fn add_field(
    alloc: Global,
    changes: &mut Stack<Change>,
    field: (Name, Sort, Value),
) -> Result<(), AllocError>
    ensures { OnOk result (changes.new ≡ change_with field changes.old) }
{
    let mut change = take_change(alloc, changes)?;
    change.fields.push(field)?;
    changes.push(change)
}
