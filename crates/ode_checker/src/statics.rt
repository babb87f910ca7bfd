//! The static rules: a checked statement of a script.
ghost use Rattle.std.specs.Prelude.{IfOk};
ghost use Rattle.ode_types.specs.Answers.{Answers};
ghost use Rattle.ode_types.specs.Kept.{IsTypedStatement};
ghost use Rattle.ode_types.specs.Static.{check_statement};

use crate::names::word;
use ode_types::stop::opened;
use ode_types::{CheckStop, Classes, Known};
use ode_typing::{Locals, Place, check_stmt};
use ode_value::{List, Ref, Sort, Stmt};
use std::alloc::Global;

/// A statement of a script with slots for its names, by the classes that are there and the numbers of its literals' classes; or the
/// first static rule that it breaks.
#[tactic(auto, using(crate::proofs::StaticLaws::statement_checked, crate::proofs::StaticLaws::statement_typed))]
pub fn check_statement(
    alloc: Global,
    known: &Classes,
    sorts: &List<(Ref, u32)>,
    s: &Stmt,
) -> Result<Stmt, CheckStop>
    ensures answers { Answers (check_statement known.now sorts.now s.now) result }
    ensures typed { IfOk result (λ t. IsTypedStatement known.now sorts.now t) }
{
    let member = word(alloc, b"statement")?;
    let result = Sort::Void;
    let place = Place {
        known: Known::new(known, None),
        class: None,
        member: &member,
        result: &result,
        is_plain: false,
        literals: sorts.as_slice(),
    };
    let mut locals = Locals::new(alloc);
    opened(check_stmt(alloc, s, &place, &mut locals))
}
