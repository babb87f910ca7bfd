//! The sorts of expressions. Null has no sort of its own: where the sort of an expression is none, it is null.
ghost use Rattle.std.specs.Prelude.{◌≡◌};
ghost use Rattle.std.specs.Option.{option_copied};
ghost use Rattle.ode_types.specs.Sorts.{are_equated, are_of, are_ordered, binary_sort, class_of, fits, inherits, is_of, is_reference, is_void, starting, sum_sort, unary_sort, where_fit};

use ode_types::Known;
use ode_types::families::is_a;
use ode_value::{BinOp, Class, Name, Sort, UnOp};

// Whether the class of the first name has the second one, or an ancestor has it.
fn inherits(known: &Known, sub: &Name, name: &Name) -> bool
    ensures { result ≡ inherits known.now sub.now name.now }
{
    match known.named(sub) {
        Some(class) => is_a(known, class, name),
        None => false,
    }
}

/// Null fits every reference sort, a subclass's reference its ancestors' sorts, and any other sort itself.
pub(crate) fn fits(known: &Known, sort: &Option<Sort>, wanted: &Sort) -> bool
    ensures { result ≡ fits known.now sort.now wanted.now }
{
    match wanted {
        Sort::Reference(name) => match sort {
            None => true,
            Some(Sort::Reference(sub)) => inherits(known, sub, name),
            Some(_) => false,
        },
        _ => match sort {
            None => false,
            Some(sort) => sort.same(wanted),
        },
    }
}

/// The class of a reference. Null has none.
pub(crate) fn class_of<'a>(known: &Known<'a>, sort: &Option<Sort>) -> Option<&'a Class>
    ensures { option_copied result ≡ class_of known.now sort.now }
{
    match sort {
        Some(Sort::Reference(name)) => known.named(name),
        _ => None,
    }
}

/// A reference, or null.
pub(crate) fn is_reference(sort: &Option<Sort>) -> bool
    ensures { result ≡ is_reference sort.now }
{
    matches!(sort, None | Some(Sort::Reference(_)))
}

/// The sort of a void call.
pub(crate) fn is_void(sort: &Option<Sort>) -> bool
    ensures { result ≡ is_void sort.now }
{
    matches!(sort, Some(Sort::Void))
}

/// What a `let` starts with: null and the value of a void call can't.
pub(crate) fn starting(sort: Option<Sort>) -> Option<Sort>
    ensures { result ≡ starting sort }
{
    match sort {
        Some(Sort::Void) => None,
        sort => sort,
    }
}

fn is_of(sort: &Sort, a: &Option<Sort>) -> bool
    ensures { result ≡ is_of sort.now a.now }
{
    match a {
        None => false,
        Some(a) => sort.same(a),
    }
}

fn are_of(sort: &Sort, a: &Option<Sort>, b: &Option<Sort>) -> bool
    ensures { result ≡ are_of sort.now a.now b.now }
{
    is_of(sort, a) && is_of(sort, b)
}

fn are_ordered(a: &Option<Sort>, b: &Option<Sort>) -> bool
    ensures { result ≡ are_ordered a.now b.now }
{
    are_of(&Sort::Int, a, b) || are_of(&Sort::Text, a, b)
}

fn are_equated(a: &Option<Sort>, b: &Option<Sort>) -> bool
    ensures { result ≡ are_equated a.now b.now }
{
    are_ordered(a, b) || are_of(&Sort::Bool, a, b) || is_reference(a) && is_reference(b)
}

fn where_fit(fit: bool, sort: Sort) -> Option<Sort>
    ensures { result ≡ where_fit fit sort }
{
    if fit { Some(sort) } else { None }
}

fn sum_sort(is_plain: bool, a: &Option<Sort>, b: &Option<Sort>) -> Option<Sort>
    ensures { result ≡ sum_sort is_plain a.now b.now }
{
    if are_of(&Sort::Text, a, b) && !is_plain {
        Some(Sort::Text)
    } else {
        where_fit(are_of(&Sort::Int, a, b), Sort::Int)
    }
}

/// What an operator gives, where its operand fits it.
pub(crate) fn unary_sort(op: UnOp, a: &Option<Sort>) -> Option<Sort>
    ensures { result ≡ unary_sort op a.now }
{
    match op {
        UnOp::Minus => where_fit(is_of(&Sort::Int, a), Sort::Int),
        UnOp::Not => where_fit(is_of(&Sort::Bool, a), Sort::Bool),
    }
}

/// What an operator gives, where its operands fit it. Texts aren't joined in a plain expression.
pub(crate) fn binary_sort(
    is_plain: bool,
    op: BinOp,
    a: &Option<Sort>,
    b: &Option<Sort>,
) -> Option<Sort>
    ensures { result ≡ binary_sort is_plain op a.now b.now }
{
    match op {
        BinOp::Add => sum_sort(is_plain, a, b),
        BinOp::Sub | BinOp::Mul | BinOp::Div | BinOp::Rem => {
            where_fit(are_of(&Sort::Int, a, b), Sort::Int)
        }
        BinOp::Eq | BinOp::Ne => where_fit(are_equated(a, b), Sort::Bool),
        BinOp::Lt | BinOp::Le | BinOp::Gt | BinOp::Ge => {
            where_fit(are_ordered(a, b), Sort::Bool)
        }
        BinOp::And | BinOp::Or => where_fit(are_of(&Sort::Bool, a, b), Sort::Bool),
    }
}
