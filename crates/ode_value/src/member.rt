//! Members of classes.
ghost use Rattle.std.specs.Prelude.{◌≡◌, IfOk};

use crate::binding::Param;
use crate::event::{EventExpr, Mode};
use crate::list::{Copied, List};
use crate::name::Name;
use crate::statement::{Expr, Sort, Stmt};
use std::alloc::{AllocError, Global};

/// A method of a class.
#[derive(Drop)]
pub struct Method {
    pub name: Name,
    pub result: Sort,
    pub params: List<Param>,
    pub body: List<Stmt>,
}

/// A constraint of a class. A soft one is tested at the end of a transaction.
#[derive(Drop)]
pub struct Constraint {
    pub name: Name,
    pub soft: bool,
    pub test: Expr,
}

/// A trigger of a class.
#[derive(Drop)]
pub struct TriggerDecl {
    pub name: Name,
    /// Whether a new object begins with an activation.
    pub initial: bool,
    /// Whether an activation stays on behind a firing.
    pub perpetual: bool,
    /// Whether points of aborted transactions count.
    pub whole: bool,
    pub mode: Mode,
    pub params: List<Param>,
    pub event: EventExpr,
    pub action: List<Stmt>,
}

impl Method {
    /// The same method again.
    pub fn copy(&self, alloc: Global) -> Result<Method, AllocError>
        ensures { IfOk result (λ copy. copy ≡ self.now) }
    {
        let name = self.name.copy(alloc)?;
        let result = self.result.copy(alloc)?;
        let params = self.params.copy(alloc)?;
        let body = self.body.copy(alloc)?;
        Ok(Method {
            name,
            result,
            params,
            body,
        })
    }
}

impl Copied for Method {
    fn copy_in(&self, alloc: Global) -> Result<Method, AllocError> {
        self.copy(alloc)
    }
}

impl Constraint {
    /// The same constraint again.
    pub fn copy(&self, alloc: Global) -> Result<Constraint, AllocError>
        ensures { IfOk result (λ copy. copy ≡ self.now) }
    {
        Ok(Constraint {
            name: self.name.copy(alloc)?,
            soft: self.soft,
            test: self.test.copy(alloc)?,
        })
    }
}

impl Copied for Constraint {
    fn copy_in(&self, alloc: Global) -> Result<Constraint, AllocError> {
        self.copy(alloc)
    }
}

impl TriggerDecl {
    /// The same trigger again.
    pub fn copy(&self, alloc: Global) -> Result<TriggerDecl, AllocError>
        ensures { IfOk result (λ copy. copy ≡ self.now) }
    {
        let name = self.name.copy(alloc)?;
        let (params, event, action) = self.copy_body(alloc)?;
        Ok(TriggerDecl {
            name,
            initial: self.initial,
            perpetual: self.perpetual,
            whole: self.whole,
            mode: self.mode,
            params,
            event,
            action,
        })
    }

    // What it watches for and what it does.
    fn copy_body(&self, alloc: Global) -> Result<(List<Param>, EventExpr, List<Stmt>), AllocError>
        ensures { IfOk result (λ parts. parts ≡ (self.now.params, self.now.event, self.now.action)) }
    {
        let params = self.params.copy(alloc)?;
        let event = self.event.copy(alloc)?;
        let action = self.action.copy(alloc)?;
        Ok((params, event, action))
    }
}

impl Copied for TriggerDecl {
    fn copy_in(&self, alloc: Global) -> Result<TriggerDecl, AllocError> {
        self.copy(alloc)
    }
}
