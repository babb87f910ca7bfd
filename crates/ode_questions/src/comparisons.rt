//! The text of a comparison's verdict.
ghost use Rattle.std.specs.Prelude.{◌≡◌, ◌<◌, ◌^◌, None, length, map, true};
ghost use Rattle.ode_heap.specs.Answering.{class_of};
ghost use Rattle.ode_asked_laws.specs.Numbers.{HaveNumbers};
ghost use Rattle.ode_same.specs.Comparing.{comparison_text};
ghost use Rattle.ode_value.specs.Numbers.{has_numbers};
ghost use Rattle.ode_value.specs.Worlds.{Bones};
ghost use Rattle.ode_questions.specs.Saying.{comparison_told, refusing, verdict_in};
ghost use Rattle.ode_questions.specs.Steps.{Answers, stopped_by};

use crate::turned::{Turned, Why};
use ode_asked_laws::numbers_of_comparisons_are_in_range;
use ode_asksyn::{Comparison, read_comparison};
use ode_checker::check_compared;
use ode_same::comparison_text;
use ode_types::Classes;
use ode_value::{EventExpr, List};
use std::alloc::Global;

// The text of the verdict on two checked events, or the limit that they break.
fn verdict_on(alloc: Global, first: &EventExpr, second: &EventExpr) -> Result<List<u8>, Turned>
    requires first { has_numbers first.now ≡ true }
    requires second { has_numbers second.now ≡ true }
    ensures says { Answers (refusing (comparison_text first.now second.now)) result }
    ensures calm { stopped_by result ≡ None }
{
    match comparison_text(alloc, first, second)? {
        Ok(text) => Ok(text),
        Err(refusal) => Err(Turned::Refused(Why::Refusal(refusal))),
    }
}

// That on a comparison, whose events are checked first.
fn verdict_in(alloc: Global, classes: &Classes, c: &Comparison) -> Result<List<u8>, Turned>
    requires { HaveNumbers c.now }
    ensures says { (b : Bones) → classes.now ≡ map class_of b.classes → Answers (verdict_in b c.now) result }
    ensures calm { stopped_by result ≡ None }
{
    numbers_of_comparisons_are_in_range();
    let (first, second) = check_compared(alloc, classes, &c.class, &c.params, &c.first, &c.second)?;
    verdict_on(alloc, &first, &second)
}

/// The text of the verdict on a comparison, which is a piece of fewer than 2^32 bytes, or why there is none. No record is read.
pub(crate) fn comparison_told(
    alloc: Global,
    classes: &Classes,
    text: &[u8],
) -> Result<List<u8>, Turned>
    requires { length text.now < 2 ^ 32 }
    ensures says { (b : Bones) → classes.now ≡ map class_of b.classes → Answers (comparison_told b text.now) result }
    ensures calm { stopped_by result ≡ None }
{
    numbers_of_comparisons_are_in_range();
    let c = read_comparison(alloc, text)?;
    verdict_in(alloc, classes, &c)
}
