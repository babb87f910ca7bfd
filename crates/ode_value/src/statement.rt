//! Syntax trees. A checked one names parameters, locals and fields by their places.
ghost use Rattle.std.specs.Prelude.{◌≡◌, ◌↔◌, IfOk, IsTrue};
ghost use Rattle.ode_value.specs.Same.{same_expr, same_sort};

use crate::binding::Var;
use crate::boxed::Boxed;
use crate::event::Kind;
use crate::list::{Copied, List};
use crate::member::{Constraint, Method, TriggerDecl};
use crate::name::Name;
use crate::operator::{BinOp, UnOp};
use crate::text::OdeText;
use crate::value::Value;
use std::alloc::{AllocError, Global};

/// What a field, a parameter or a local may hold, and what a method returns.
#[derive(Drop)]
pub enum Sort {
    Int,
    Bool,
    Text,
    /// References to objects of the class of this name, or of a subclass.
    Reference(Name),
    /// Nothing: of a method's result alone.
    Void,
}

/// An expression.
#[derive(Drop)]
pub enum Expr {
    Lit(Value),
    /// A parameter, a local or a field, as it is written.
    Name(Name),
    /// A parameter or a local, counted from 0, parameters first.
    Local(u16),
    /// A field of the object, counted from 0.
    Own(u16),
    /// The reference that the body was called by.
    This,
    /// A field of the object behind a reference, as it is written.
    Field(Boxed<Expr>, Name),
    /// A field of the object behind a reference, counted from 0.
    Slot(Boxed<Expr>, u16),
    /// The version that a reference denotes.
    Version(Boxed<Expr>),
    Unary(UnOp, Boxed<Expr>),
    Binary(BinOp, Boxed<Expr>, Boxed<Expr>),
}

/// A call of a method, of the object itself where no reference is given.
#[derive(Drop)]
pub struct Call {
    pub of: Option<Expr>,
    pub method: Name,
    pub args: List<Expr>,
}

/// What gives a value: an expression, or what changes the database first.
#[derive(Drop)]
pub enum Rhs {
    Plain(Expr),
    Call(Call),
    /// A new object, some of its fields set.
    New {
        class: Name,
        fields: List<(Name, Expr)>,
    },
    NewVersion(Expr),
    /// An activation of a trigger.
    Activate {
        of: Expr,
        trigger: Name,
        args: List<Expr>,
    },
}

/// A simple statement.
#[derive(Drop)]
pub enum Stmt {
    Let(Var, Rhs),
    Set(Var, Rhs),
    Do(Rhs),
    If(Expr, List<Stmt>, List<Stmt>),
    Return(Option<Expr>),
    Delete(Expr),
    DropVersion(Expr),
    Deactivate(Expr, Expr),
    Show(Rhs),
    Say(Expr),
    TAbort,
}

/// A member of a class.
#[derive(Drop)]
pub enum Member {
    Field(Name, Sort),
    Method(Method),
    Constraint(Constraint),
    /// The kinds of points that the class lists.
    Events(List<Kind>),
    Trigger(TriggerDecl),
}

/// A class as it is written.
#[derive(Drop)]
pub struct ClassDecl {
    pub name: Name,
    pub parent: Option<Name>,
    pub members: List<Member>,
}

/// A statement of a script.
#[derive(Drop)]
pub enum Statement {
    Class(ClassDecl),
    Begin,
    Commit,
    Abort,
    /// The clock is set to the instant that this text says.
    Clock(OdeText),
    /// A lone `;`.
    Empty,
    Simple(Stmt),
}

impl Sort {
    /// Whether this is the other sort.
    pub fn same(&self, other: &Sort) -> bool
        ensures same { IsTrue result ↔ (self.now ≡ other.now) }
        ensures test { result ≡ same_sort self.now other.now }
    {
        match self {
            Sort::Int => matches!(other, Sort::Int),
            Sort::Bool => matches!(other, Sort::Bool),
            Sort::Text => matches!(other, Sort::Text),
            Sort::Reference(class) => match other {
                Sort::Reference(other) => class.same(other),
                _ => false,
            },
            Sort::Void => matches!(other, Sort::Void),
        }
    }

    /// The same sort again.
    pub fn copy(&self, alloc: Global) -> Result<Sort, AllocError>
        ensures { IfOk result (λ copy. copy ≡ self.now) }
    {
        match self {
            Sort::Int => Ok(Sort::Int),
            Sort::Bool => Ok(Sort::Bool),
            Sort::Text => Ok(Sort::Text),
            Sort::Reference(class) => Ok(Sort::Reference(class.copy(alloc)?)),
            Sort::Void => Ok(Sort::Void),
        }
    }
}

impl Expr {
    /// Whether this is the other expression.
    #[tactic(auto, using(crate::proofs::Sames::expr_decides))]
    pub fn same(&self, other: &Expr) -> bool
        ensures same { IsTrue result ↔ (self.now ≡ other.now) }
        ensures test { result ≡ same_expr self.now other.now }
    {
        self.agrees(other)
    }

    // Whether both agree in form and parts.
    #[tactic(auto, using(crate::proofs::Sames::same_exprs))]
    fn agrees(&self, other: &Expr) -> bool
        ensures { result ≡ same_expr self.now other.now }
    {
        match self {
            Expr::Lit(value) => match other {
                Expr::Lit(other) => value.same(other),
                _ => false,
            },
            Expr::Name(name) => match other {
                Expr::Name(other) => name.same(other),
                _ => false,
            },
            Expr::Local(place) => match other {
                Expr::Local(other) => place == other,
                _ => false,
            },
            Expr::Own(place) => match other {
                Expr::Own(other) => place == other,
                _ => false,
            },
            Expr::This => matches!(other, Expr::This),
            Expr::Field(of, name) => match other {
                Expr::Field(other, other_name) => {
                    of.get().agrees(other.get()) && name.same(other_name)
                }
                _ => false,
            },
            Expr::Slot(of, place) => match other {
                Expr::Slot(other, other_place) => {
                    of.get().agrees(other.get()) && place == other_place
                }
                _ => false,
            },
            Expr::Version(of) => match other {
                Expr::Version(other) => of.get().agrees(other.get()),
                _ => false,
            },
            Expr::Unary(op, e) => match other {
                Expr::Unary(other, f) => op.same(*other) && e.get().agrees(f.get()),
                _ => false,
            },
            Expr::Binary(op, e, g) => match other {
                Expr::Binary(other, f, h) => {
                    op.same(*other) && e.get().agrees(f.get()) && g.get().agrees(h.get())
                }
                _ => false,
            },
        }
    }

    /// The same expression again.
    #[cycle(exprs)]
    pub fn copy(&self, alloc: Global) -> Result<Expr, AllocError>
        ensures { IfOk result (λ copy. copy ≡ self.now) }
    {
        match self {
            Expr::Lit(value) => Ok(Expr::Lit(value.copy(alloc)?)),
            Expr::Name(name) => Ok(Expr::Name(name.copy(alloc)?)),
            Expr::Local(place) => Ok(Expr::Local(*place)),
            Expr::Own(place) => Ok(Expr::Own(*place)),
            Expr::This => Ok(Expr::This),
            Expr::Field(of, name) => {
                let of = copy_operand(alloc, of.get())?;
                Ok(Expr::Field(of, name.copy(alloc)?))
            }
            Expr::Slot(of, place) => Ok(Expr::Slot(copy_operand(alloc, of.get())?, *place)),
            Expr::Version(of) => Ok(Expr::Version(copy_operand(alloc, of.get())?)),
            Expr::Unary(op, e) => Ok(Expr::Unary(*op, copy_operand(alloc, e.get())?)),
            Expr::Binary(op, e, f) => {
                let e = copy_operand(alloc, e.get())?;
                let f = copy_operand(alloc, f.get())?;
                Ok(Expr::Binary(*op, e, f))
            }
        }
    }
}

#[cycle(exprs)]
fn copy_operand(alloc: Global, e: &Expr) -> Result<Boxed<Expr>, AllocError>
    ensures { IfOk result (λ copy. copy ≡ e.now) }
{
    let copy = e.copy(alloc)?;
    Boxed::new(alloc, copy)
}

impl Copied for Sort {
    fn copy_in(&self, alloc: Global) -> Result<Sort, AllocError> {
        self.copy(alloc)
    }
}

impl Copied for Expr {
    fn copy_in(&self, alloc: Global) -> Result<Expr, AllocError> {
        self.copy(alloc)
    }
}

impl Call {
    /// The same call again.
    pub fn copy(&self, alloc: Global) -> Result<Call, AllocError>
        ensures { IfOk result (λ copy. copy ≡ self.now) }
    {
        let of = self.of.copy_in(alloc)?;
        let (method, args) = copy_named(alloc, &self.method, &self.args)?;
        Ok(Call { of, method, args })
    }
}

// A name and its arguments.
fn copy_named(
    alloc: Global,
    name: &Name,
    args: &List<Expr>,
) -> Result<(Name, List<Expr>), AllocError>
    ensures { IfOk result (λ parts. parts ≡ (name.now, args.now)) }
{
    let name = name.copy(alloc)?;
    let args = args.copy(alloc)?;
    Ok((name, args))
}

// A class and the fields that are set.
fn copy_new(alloc: Global, class: &Name, fields: &List<(Name, Expr)>) -> Result<Rhs, AllocError>
    ensures { IfOk result (λ copy. copy ≡ Rhs.New class.now fields.now) }
{
    let class = class.copy(alloc)?;
    let fields = fields.copy(alloc)?;
    Ok(Rhs::New { class, fields })
}

// An object's trigger and its arguments.
fn copy_activation(
    alloc: Global,
    of: &Expr,
    trigger: &Name,
    args: &List<Expr>,
) -> Result<Rhs, AllocError>
    ensures { IfOk result (λ copy. copy ≡ Rhs.Activate of.now trigger.now args.now) }
{
    let of = of.copy(alloc)?;
    let (trigger, args) = copy_named(alloc, trigger, args)?;
    Ok(Rhs::Activate { of, trigger, args })
}

impl Rhs {
    /// The same right side again.
    pub fn copy(&self, alloc: Global) -> Result<Rhs, AllocError>
        ensures { IfOk result (λ copy. copy ≡ self.now) }
    {
        match self {
            Rhs::Plain(expr) => Ok(Rhs::Plain(expr.copy(alloc)?)),
            Rhs::Call(call) => Ok(Rhs::Call(call.copy(alloc)?)),
            Rhs::New { class, fields } => copy_new(alloc, class, fields),
            Rhs::NewVersion(of) => Ok(Rhs::NewVersion(of.copy(alloc)?)),
            Rhs::Activate { of, trigger, args } => copy_activation(alloc, of, trigger, args),
        }
    }
}

impl Stmt {
    /// The same statement again.
    #[cycle(statements)]
    pub fn copy(&self, alloc: Global) -> Result<Stmt, AllocError>
        ensures { IfOk result (λ copy. copy ≡ self.now) }
    {
        match self {
            Stmt::Let(var, rhs) => {
                let (var, rhs) = copy_assignment(alloc, var, rhs)?;
                Ok(Stmt::Let(var, rhs))
            }
            Stmt::Set(var, rhs) => {
                let (var, rhs) = copy_assignment(alloc, var, rhs)?;
                Ok(Stmt::Set(var, rhs))
            }
            Stmt::Do(rhs) => Ok(Stmt::Do(rhs.copy(alloc)?)),
            Stmt::If(test, first, second) => {
                let test = test.copy(alloc)?;
                let first = copy_body(alloc, first.as_slice())?;
                let second = copy_body(alloc, second.as_slice())?;
                Ok(Stmt::If(test, first, second))
            }
            Stmt::Return(value) => Ok(Stmt::Return(value.copy_in(alloc)?)),
            Stmt::Delete(of) => Ok(Stmt::Delete(of.copy(alloc)?)),
            Stmt::DropVersion(of) => Ok(Stmt::DropVersion(of.copy(alloc)?)),
            Stmt::Deactivate(of, number) => {
                let (of, number) = copy_two(alloc, of, number)?;
                Ok(Stmt::Deactivate(of, number))
            }
            Stmt::Show(rhs) => Ok(Stmt::Show(rhs.copy(alloc)?)),
            Stmt::Say(text) => Ok(Stmt::Say(text.copy(alloc)?)),
            Stmt::TAbort => Ok(Stmt::TAbort),
        }
    }
}

// What an assignment sets, and to what.
fn copy_assignment(alloc: Global, var: &Var, rhs: &Rhs) -> Result<(Var, Rhs), AllocError>
    ensures { IfOk result (λ parts. parts ≡ (var.now, rhs.now)) }
{
    let var = var.copy(alloc)?;
    let rhs = rhs.copy(alloc)?;
    Ok((var, rhs))
}

// Two expressions.
fn copy_two(alloc: Global, e: &Expr, f: &Expr) -> Result<(Expr, Expr), AllocError>
    ensures { IfOk result (λ parts. parts ≡ (e.now, f.now)) }
{
    let e = e.copy(alloc)?;
    let f = f.copy(alloc)?;
    Ok((e, f))
}

#[cycle(statements)]
fn copy_body(alloc: Global, body: &[Stmt]) -> Result<List<Stmt>, AllocError>
    ensures { IfOk result (λ copy. copy ≡ body.now) }
{
    let mut copy = List::new(alloc);
    for statement in body {
        copy.push(statement.copy(alloc)?)?;
    }
    Ok(copy)
}

impl Copied for Stmt {
    fn copy_in(&self, alloc: Global) -> Result<Stmt, AllocError> {
        self.copy(alloc)
    }
}

impl Member {
    /// The same member again.
    pub fn copy(&self, alloc: Global) -> Result<Member, AllocError>
        ensures { IfOk result (λ copy. copy ≡ self.now) }
    {
        match self {
            Member::Field(name, sort) => Ok(Member::Field(name.copy(alloc)?, sort.copy(alloc)?)),
            Member::Method(method) => Ok(Member::Method(method.copy(alloc)?)),
            Member::Constraint(constraint) => Ok(Member::Constraint(constraint.copy(alloc)?)),
            Member::Events(kinds) => Ok(Member::Events(kinds.copy(alloc)?)),
            Member::Trigger(trigger) => Ok(Member::Trigger(trigger.copy(alloc)?)),
        }
    }
}

impl Copied for Member {
    fn copy_in(&self, alloc: Global) -> Result<Member, AllocError> {
        self.copy(alloc)
    }
}

impl ClassDecl {
    /// The same class again.
    pub fn copy(&self, alloc: Global) -> Result<ClassDecl, AllocError>
        ensures { IfOk result (λ copy. copy ≡ self.now) }
    {
        Ok(ClassDecl {
            name: self.name.copy(alloc)?,
            parent: self.parent.copy_in(alloc)?,
            members: self.members.copy(alloc)?,
        })
    }
}

impl Statement {
    /// The same statement again.
    pub fn copy(&self, alloc: Global) -> Result<Statement, AllocError>
        ensures { IfOk result (λ copy. copy ≡ self.now) }
    {
        match self {
            Statement::Class(decl) => Ok(Statement::Class(decl.copy(alloc)?)),
            Statement::Begin => Ok(Statement::Begin),
            Statement::Commit => Ok(Statement::Commit),
            Statement::Abort => Ok(Statement::Abort),
            Statement::Clock(instant) => Ok(Statement::Clock(instant.copy(alloc)?)),
            Statement::Empty => Ok(Statement::Empty),
            Statement::Simple(stmt) => Ok(Statement::Simple(stmt.copy(alloc)?)),
        }
    }
}
