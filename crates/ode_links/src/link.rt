//! Comparisons of a test by which an object can be looked up.
ghost use Rattle.std.specs.Prelude.{◌≡◌, IfOk, IsTrue};
ghost use Rattle.std.specs.Option.{IfSome};
ghost use Rattle.ode_links.specs.Linking.{IsKnown, IsLink, field_of_local};

use ode_value::{BinOp, Expr};
use std::alloc::{AllocError, Global};

/// A field of the object that a local refers to, and what has the same value.
#[derive(Drop)]
pub struct Link {
    /// The field's place.
    pub place: u16,
    /// A literal, or a field of the object that an earlier local refers to.
    pub other: Expr,
}

// The place of the field, where it is one of the object that this local refers to.
fn place_of(e: &Expr, variable: u16) -> Option<u16>
    ensures { IfSome result (λ place. e.now ≡ field_of_local variable place) }
{
    let Expr::Slot(of, place) = e else {
        return None;
    };
    match of.get() {
        Expr::Local(found) if *found == variable => Some(*place),
        _ => None,
    }
}

// A literal, or a field of an object that one of the first locals refers to.
fn is_known(e: &Expr, count: u16) -> bool
    ensures { IsTrue result → IsKnown count e.now }
{
    match e {
        Expr::Lit(_) => true,
        Expr::Slot(of, _) => match of.get() {
            Expr::Local(found) => *found < count,
            _ => false,
        },
        _ => false,
    }
}

// Of two expressions that are equal.
fn link_between(
    alloc: Global,
    field: &Expr,
    other: &Expr,
    variable: u16,
) -> Result<Option<Link>, AllocError>
    ensures { IfOk result (λ found. IfSome found (λ link. (field.now ≡ field_of_local variable link.place) × (link.other ≡ other.now) × IsKnown variable other.now)) }
{
    match place_of(field, variable) {
        Some(place) if is_known(other, variable) => Ok(Some(Link {
            place,
            other: other.copy(alloc)?,
        })),
        _ => Ok(None),
    }
}

/// The first comparison of a test, all of which must be true, that gives a field of this local's object a value that is known before.
pub fn link_of(alloc: Global, test: &Expr, variable: u16) -> Result<Option<Link>, AllocError>
    ensures { IfOk result (λ found. IfSome found (IsLink test.now variable)) }
{
    match test {
        Expr::Binary(BinOp::And, left, right) => match link_of(alloc, left.get(), variable)? {
            Some(link) => Ok(Some(link)),
            None => link_of(alloc, right.get(), variable),
        },
        Expr::Binary(BinOp::Eq, left, right) => {
            match link_between(alloc, left.get(), right.get(), variable)? {
                Some(link) => Ok(Some(link)),
                None => link_between(alloc, right.get(), left.get(), variable),
            }
        }
        _ => Ok(None),
    }
}
