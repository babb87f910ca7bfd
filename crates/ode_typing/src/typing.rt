//! The sorts of expressions, and expressions with slots in place of names.
ghost use Rattle.std.specs.Prelude.{◌≡◌, IfOk, Ok, true, not, ℕ};
ghost use Rattle.std.specs.List.{find};
ghost use Rattle.std.specs.Option.{option_copied};
ghost use Rattle.ode_value.specs.declared.value.Ref.{Ref as Literal};
ghost use Rattle.ode_value.specs.Same.{same_ref};
ghost use Rattle.ode_types.specs.Answers.{Answers};
ghost use Rattle.ode_types.specs.Checks.{needs};
ghost use Rattle.ode_types.specs.Scopes.{wrong};
ghost use Rattle.ode_typing.specs.Places.{scope_at, scope_of};
ghost use Rattle.ode_types.specs.Typing.{binary_typed, field_of, field_typed, is_int, is_text, literal, literal_class, literal_sort, name_typed, slot, this_typed, typed, unary_typed, value_sort, version_typed};

use crate::place::{Locals, Place};
use crate::sorts::{binary_sort, class_of, is_reference, unary_sort};
use ode_types::families::field_named;
use ode_types::stop::{boxed, unknown, wrong};
use ode_types::{CheckStop, Typed};
use ode_value::{BinOp, Boxed, Class, Expr, Name, OdeText, Ref, Sort, UnOp, Value, Var};
use std::alloc::{AllocError, Global};

fn literal_row(literals: &[(Ref, u32)], r: Ref) -> Option<&(Ref, u32)>
    ensures { option_copied result ≡ find (λ (l : Literal × ℕ). same_ref l.0 r) literals.now }
{
    literals
        .iter()
        .find(|row| Value::Reference(row.0).same(&Value::Reference(r)))
}

// The class of a literal's object.
fn literal_class<'a>(place: &Place<'a>, r: Ref) -> Option<&'a Class>
    ensures { option_copied result ≡ literal_class place.now.known place.now.literals.now r }
{
    match literal_row(place.literals, r) {
        Some(row) => place.known.numbered(row.1),
        None => None,
    }
}

// The sort of a reference that isn't null, where the class of its object is known.
fn literal_sort(alloc: Global, r: Ref, place: &Place) -> Result<Option<Option<Sort>>, AllocError>
    ensures { IfOk result (λ sort. sort ≡ literal_sort place.now.known place.now.literals.now r) }
{
    match literal_class(place, r) {
        Some(class) => Ok(Some(Some(Sort::Reference(class.name.copy(alloc)?)))),
        None => Ok(None),
    }
}

// Null has no sort of its own, and no version.
fn reference_sort(alloc: Global, r: Ref, place: &Place) -> Result<Option<Option<Sort>>, AllocError>
    ensures { IfOk result (λ sort. sort ≡ value_sort place.now.known place.now.literals.now (Value.Reference r)) }
{
    if r.object != 0 {
        return literal_sort(alloc, r, place);
    }
    match r.version {
        None => Ok(Some(None)),
        Some(_) => Ok(None),
    }
}

fn int_sort(n: i64) -> Sort
    ensures sort { result ≡ Sort.Int }
    ensures int { is_int n ≡ true }
{
    let _n = n;
    Sort::Int
}

fn text_sort(text: &OdeText) -> Sort
    ensures sort { result ≡ Sort.Text }
    ensures text { is_text text.now ≡ true }
{
    let _bytes = text.as_bytes();
    Sort::Text
}

// The sort of a literal. Each int has 64 bits, and each text's bytes are a text.
fn value_sort(alloc: Global, v: &Value, place: &Place) -> Result<Option<Option<Sort>>, AllocError>
    ensures { IfOk result (λ sort. sort ≡ value_sort place.now.known place.now.literals.now v.now) }
{
    match v {
        Value::Int(n) => Ok(Some(Some(int_sort(*n)))),
        Value::Bool(_) => Ok(Some(Some(Sort::Bool))),
        Value::Text(text) => Ok(Some(Some(text_sort(text)))),
        Value::Reference(r) => reference_sort(alloc, *r, place),
    }
}

// A checked expression with its sort.
fn gives(alloc: Global, expr: Expr, sort: Option<Sort>) -> Result<Boxed<Typed>, CheckStop>
    ensures { Answers (Ok (record { expr = expr; sort = sort })) result }
{
    let expr = Boxed::new(alloc, expr)?;
    boxed(alloc, Typed { expr, sort })
}

/// The expression that was checked, without its sort.
pub fn expr_of(checked: Boxed<Typed>) -> Boxed<Expr>
    ensures { result ≡ checked.expr }
{
    checked.into_inner().expr
}

fn literal(alloc: Global, v: &Value, place: &Place) -> Result<Boxed<Typed>, CheckStop>
    ensures { Answers (literal v.now (scope_at place.now)) result }
{
    match value_sort(alloc, v, place)? {
        Some(sort) => gives(alloc, Expr::Lit(v.copy(alloc)?), sort),
        None => wrong(alloc, place.member),
    }
}

fn slot(var: Var) -> Expr
    ensures { result ≡ slot var }
{
    match var {
        Var::Name(name) => Expr::Name(name),
        Var::Local(slot) => Expr::Local(slot),
        Var::Own(slot) => Expr::Own(slot),
    }
}

fn name_typed(
    alloc: Global,
    name: &Name,
    place: &Place,
    locals: &Locals,
) -> Result<Boxed<Typed>, CheckStop>
    ensures { Answers (name_typed name.now (scope_of place.now locals.now)) result }
{
    match place.meaning(alloc, locals, name)? {
        Some((var, sort)) => gives(alloc, slot(var), Some(sort)),
        None => unknown(alloc, name),
    }
}

// An expression isn't plain.
fn needs_free(alloc: Global, place: &Place) -> Result<(), CheckStop>
    ensures { Answers (needs (wrong (scope_at place.now)) (not place.now.is_plain)) result }
{
    if place.is_plain {
        wrong(alloc, place.member)
    } else {
        Ok(())
    }
}

fn this_typed(alloc: Global, place: &Place) -> Result<Boxed<Typed>, CheckStop>
    ensures { Answers (this_typed (scope_at place.now)) result }
{
    needs_free(alloc, place)?;
    match place.class {
        Some(class) => {
            let sort = Sort::Reference(class.name.copy(alloc)?);
            gives(alloc, Expr::This, Some(sort))
        }
        None => wrong(alloc, place.member),
    }
}

// A field of a class, of what was checked.
fn field_of(
    alloc: Global,
    of: Boxed<Expr>,
    class: &Class,
    name: &Name,
) -> Result<Boxed<Typed>, CheckStop>
    ensures { Answers (field_of of class.now name.now) result }
{
    match field_named(class.fields.as_slice(), name) {
        Some((slot, field)) => {
            let sort = field.sort.copy(alloc)?;
            gives(alloc, Expr::Slot(of, slot), Some(sort))
        }
        None => unknown(alloc, name),
    }
}

fn field_typed(
    alloc: Global,
    of: Boxed<Typed>,
    name: &Name,
    place: &Place,
) -> Result<Boxed<Typed>, CheckStop>
    ensures { Answers (field_typed of name.now (scope_at place.now)) result }
{
    needs_free(alloc, place)?;
    match class_of(&place.known, &of.get().sort) {
        Some(class) => field_of(alloc, expr_of(of), class, name),
        None => wrong(alloc, place.member),
    }
}

fn version_typed(alloc: Global, of: Boxed<Typed>, place: &Place) -> Result<Boxed<Typed>, CheckStop>
    ensures { Answers (version_typed of (scope_at place.now)) result }
{
    if is_reference(&of.get().sort) {
        let Typed { expr, sort } = of.into_inner();
        gives(alloc, Expr::Version(expr), sort)
    } else {
        wrong(alloc, place.member)
    }
}

fn unary_typed(
    alloc: Global,
    op: UnOp,
    a: Boxed<Typed>,
    place: &Place,
) -> Result<Boxed<Typed>, CheckStop>
    ensures { Answers (unary_typed op a (scope_at place.now)) result }
{
    match unary_sort(op, &a.get().sort) {
        Some(sort) => gives(alloc, Expr::Unary(op, expr_of(a)), Some(sort)),
        None => wrong(alloc, place.member),
    }
}

fn binary_typed(
    alloc: Global,
    op: BinOp,
    a: Boxed<Typed>,
    b: Boxed<Typed>,
    place: &Place,
) -> Result<Boxed<Typed>, CheckStop>
    ensures { Answers (binary_typed op a b (scope_at place.now)) result }
{
    match binary_sort(place.is_plain, op, &a.get().sort, &b.get().sort) {
        Some(sort) => gives(alloc, Expr::Binary(op, expr_of(a), expr_of(b)), Some(sort)),
        None => wrong(alloc, place.member),
    }
}

/// An expression with slots for its names, and its sort; or the first rule that it breaks. Operands are checked from left to right.
#[tactic(auto, using(ode_types::proofs::TypingLaws::typings))]
pub fn check_expr(
    alloc: Global,
    e: &Expr,
    place: &Place,
    locals: &Locals,
) -> Result<Boxed<Typed>, CheckStop>
    ensures { Answers (typed e.now (scope_of place.now locals.now)) result }
{
    match e {
        Expr::Lit(v) => literal(alloc, v, place),
        Expr::Name(name) => name_typed(alloc, name, place, locals),
        Expr::This => this_typed(alloc, place),
        Expr::Field(e, name) => {
            let of = check_expr(alloc, e.get(), place, locals)?;
            field_typed(alloc, of, name, place)
        }
        Expr::Version(e) => {
            needs_free(alloc, place)?;
            let of = check_expr(alloc, e.get(), place, locals)?;
            version_typed(alloc, of, place)
        }
        Expr::Unary(op, e) => {
            let a = check_expr(alloc, e.get(), place, locals)?;
            unary_typed(alloc, *op, a, place)
        }
        Expr::Binary(op, e, f) => {
            let a = check_expr(alloc, e.get(), place, locals)?;
            let b = check_expr(alloc, f.get(), place, locals)?;
            binary_typed(alloc, *op, a, b, place)
        }
        _ => wrong(alloc, place.member),
    }
}
