//! Texts with commas between them.
ghost use Rattle.std.specs.Prelude.{◌≡◌, ◌++◌, ℕ, List as Items, codes, map, OnOk, drop};
ghost use Rattle.std.specs.List.{join_by};
ghost use Rattle.ode_value.specs.Printing.{with_commas};
ghost use Rattle.ode_print.specs.Joined.{behind};

use crate::class::put_param;
use crate::event::put_kind;
use crate::expression::put_expr;
use crate::put::put;
use crate::statement::put_set;
use ode_value::{Expr, Kind, Name, Param};
use std::alloc::{AllocError, Global};

/// What stands in a list with commas.
pub(crate) trait Listed {
    /// Its text.
    ghost text_of: { Self → Items ℕ };

    /// Puts its text at the end.
    fn put_listed(&self, alloc: Global, out: &mut Vec<u8>) -> Result<(), AllocError>
        ensures { OnOk result (out.new.items ≡ out.old.items ++ text_of self.now) };
}

impl Listed for Expr {
    ghost use Rattle.ode_value.specs.Printing.{expr_text};

    ghost text_of = { expr_text };

    fn put_listed(&self, alloc: Global, out: &mut Vec<u8>) -> Result<(), AllocError> {
        put_expr(alloc, out, self)
    }
}

impl Listed for Kind {
    ghost use Rattle.ode_value.specs.Printing.{kind_text};

    ghost text_of = { kind_text };

    fn put_listed(&self, alloc: Global, out: &mut Vec<u8>) -> Result<(), AllocError> {
        put_kind(alloc, out, self)
    }
}

impl Listed for Param {
    ghost use Rattle.ode_value.specs.PrintedClasses.{param_text};

    ghost text_of = { param_text };

    fn put_listed(&self, _alloc: Global, out: &mut Vec<u8>) -> Result<(), AllocError> {
        put_param(out, self)
    }
}

impl Listed for (Name, Expr) {
    ghost use Rattle.ode_value.specs.PrintedClasses.{set_text};

    ghost text_of = { set_text };

    fn put_listed(&self, alloc: Global, out: &mut Vec<u8>) -> Result<(), AllocError> {
        put_set(alloc, out, self)
    }
}

// Puts what follows the first one at the end.
fn put_more<L: Listed>(alloc: Global, out: &mut Vec<u8>, rest: &[L]) -> Result<(), AllocError>
    ensures { OnOk result (out.new.items ≡ out.old.items ++ behind (codes ", ") (map L.text_of rest.now)) }
{
    for item in rest {
        put(out, b", ")?;
        item.put_listed(alloc, out)?;
    }
    Ok(())
}

/// Puts texts with commas between them at the end.
pub(crate) fn put_list<L: Listed>(
    alloc: Global,
    out: &mut Vec<u8>,
    items: &[L],
) -> Result<(), AllocError>
    ensures { OnOk result (out.new.items ≡ out.old.items ++ with_commas (map L.text_of items.now)) }
{
    let Some((first, rest)) = items.split_first() else {
        return Ok(());
    };
    first.put_listed(alloc, out)?;
    put_more(alloc, out, rest)
}
