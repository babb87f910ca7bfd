//! What stands on top of a stack.
ghost use Rattle.std.specs.Prelude.{◌≡◌, ◌++◌, ◌∷◌, [], IfOk, None, OnOk, codes};
ghost use Rattle.ode_grammar.specs.Stacks.{rest, top};
ghost use Rattle.ode_syntax.specs.Built.{change_tree, class_tree, name, tree, event_tree, right, stmt_tree};

use crate::words::name_of;
use ode_grammar::Stack;
use ode_value::{Boxed, Change, ClassDecl, EventExpr, Expr, List, Name, Rhs, Stmt};
use std::alloc::{AllocError, Global};

/// Takes what is on top away. `none` stands for it where the stack is empty.
pub fn take<T: Drop>(stack: &mut Stack<T>, none: T) -> T
    ensures top { result ≡ top none stack.old }
    ensures rest { stack.new ≡ rest stack.old }
{
    match stack.pop() {
        Some(item) => item,
        None => none,
    }
}

/// Takes the list on top away.
pub fn take_list<T: Drop>(alloc: Global, stack: &mut Stack<List<T>>) -> List<T>
    ensures top { result ≡ top [] stack.old }
    ensures rest { stack.new ≡ rest stack.old }
{
    take(stack, List::new(alloc))
}

/// Adds an item to the list on top.
pub fn add<T: Drop>(alloc: Global, lists: &mut Stack<List<T>>, item: T) -> Result<(), AllocError>
    ensures { OnOk result (lists.new ≡ (top [] lists.old ++ item ∷ []) ∷ rest lists.old) }
{
    let mut list = take_list(alloc, lists);
    list.push(item)?;
    lists.push(list)
}

/// Takes the name on top away.
pub fn take_name(alloc: Global, names: &mut Stack<Name>) -> Result<Name, AllocError>
    ensures top { IfOk result (λ n. n ≡ name names.old) }
    ensures rest { names.new ≡ rest names.old }
{
    match names.pop() {
        Some(name) => Ok(name),
        None => name_of(alloc, b"x"),
    }
}

/// Takes the expression on top away.
pub fn take_expr(exprs: &mut Stack<Expr>) -> Expr
    ensures top { result ≡ tree exprs.old }
    ensures rest { exprs.new ≡ rest exprs.old }
{
    take(exprs, Expr::This)
}

/// Takes the expression on top away, into a box.
pub fn take_boxed(alloc: Global, exprs: &mut Stack<Expr>) -> Result<Boxed<Expr>, AllocError>
    ensures top { IfOk result (λ e. e ≡ tree exprs.old) }
    ensures rest { exprs.new ≡ rest exprs.old }
{
    let e = take_expr(exprs);
    Boxed::new(alloc, e)
}

/// Takes the event expression on top away.
pub fn take_event(events: &mut Stack<EventExpr>) -> EventExpr
    ensures top { result ≡ event_tree events.old }
    ensures rest { events.new ≡ rest events.old }
{
    take(events, EventExpr::Any)
}

/// Takes the event expression on top away, into a box.
pub fn take_boxed_event(
    alloc: Global,
    events: &mut Stack<EventExpr>,
) -> Result<Boxed<EventExpr>, AllocError>
    ensures top { IfOk result (λ e. e ≡ event_tree events.old) }
    ensures rest { events.new ≡ rest events.old }
{
    let e = take_event(events);
    Boxed::new(alloc, e)
}

/// Takes the right side on top away.
pub fn take_right_side(right_sides: &mut Stack<Rhs>) -> Rhs
    ensures top { result ≡ right right_sides.old }
    ensures rest { right_sides.new ≡ rest right_sides.old }
{
    take(right_sides, Rhs::Plain(Expr::This))
}

/// Takes the statement on top away.
pub fn take_statement(statements: &mut Stack<Stmt>) -> Stmt
    ensures top { result ≡ stmt_tree statements.old }
    ensures rest { statements.new ≡ rest statements.old }
{
    take(statements, Stmt::TAbort)
}

// A class with no members.
fn empty_class(alloc: Global) -> Result<ClassDecl, AllocError>
    ensures { IfOk result (λ class. class ≡ record { name = codes "x"; parent = None; members = [] }) }
{
    let name = name_of(alloc, b"x")?;
    Ok(ClassDecl {
        name,
        parent: None,
        members: List::new(alloc),
    })
}

/// Takes the class on top away.
pub fn take_class(alloc: Global, classes: &mut Stack<ClassDecl>) -> Result<ClassDecl, AllocError>
    ensures { IfOk result (λ class. class ≡ class_tree classes.old) }
{
    match classes.pop() {
        Some(class) => Ok(class),
        None => empty_class(alloc),
    }
}

// A change with no fields.
fn empty_change(alloc: Global) -> Result<Change, AllocError>
    ensures { IfOk result (λ change. change ≡ record { class = codes "x"; fields = [] }) }
{
    let class = name_of(alloc, b"x")?;
    Ok(Change {
        class,
        fields: List::new(alloc),
    })
}

/// Takes the change on top away.
pub fn take_change(alloc: Global, changes: &mut Stack<Change>) -> Result<Change, AllocError>
    ensures top { IfOk result (λ change. change ≡ change_tree changes.old) }
    ensures rest { changes.new ≡ rest changes.old }
{
    match changes.pop() {
        Some(change) => Ok(change),
        None => empty_change(alloc),
    }
}
