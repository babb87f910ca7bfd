//! Event expressions, and the points that they speak of.
ghost use Rattle.std.specs.Prelude.{◌≡◌, ◌↔◌, IfOk, IsTrue};
ghost use Rattle.ode_value.specs.Same.{same_kind};

use crate::boxed::Boxed;
use crate::list::{Copied, List};
use crate::name::Name;
use crate::statement::Expr;
use crate::value::Value;
use std::alloc::{AllocError, Global};

/// The kind of a point.
#[derive(Drop)]
pub enum Kind {
    Create,
    Delete,
    /// After a new version.
    NewVersion,
    /// Before a version is removed.
    DropVersion,
    /// Before the method of this name.
    Before(Name),
    /// After the method of this name.
    After(Name),
    TBegin,
    TComplete,
    TCommit,
    TAbort,
    /// At each Unix second that this number divides.
    TimeEvery(u32),
    /// At this Unix second.
    TimeAt(i64),
}

/// When the action of a firing runs.
#[derive(Clone, Copy)]
pub enum Mode {
    Immediate,
    Deferred,
    Dependent,
    Independent,
}

/// An event expression. A leaf is a kind, perhaps with a mask.
#[derive(Drop)]
pub enum EventExpr {
    Leaf(Kind, Option<Expr>),
    Any,
    First,
    Not(Boxed<EventExpr>),
    And(Boxed<EventExpr>, Boxed<EventExpr>),
    Or(Boxed<EventExpr>, Boxed<EventExpr>),
    Relative(Boxed<EventExpr>, Boxed<EventExpr>),
    RelPlus(Boxed<EventExpr>),
    Prior(Boxed<EventExpr>, Boxed<EventExpr>),
    Sequence(Boxed<EventExpr>, Boxed<EventExpr>),
    Pipe(Boxed<EventExpr>, Boxed<EventExpr>),
    Choose(u32, Boxed<EventExpr>),
    Every(u32, Boxed<EventExpr>),
    Fa(Boxed<EventExpr>, Boxed<EventExpr>, Boxed<EventExpr>),
    FaAbs(Boxed<EventExpr>, Boxed<EventExpr>, Boxed<EventExpr>),
    /// With a mask on the whole of it.
    Masked(Boxed<EventExpr>, Expr),
}

/// A point of an object's history.
#[derive(Drop)]
pub struct Point {
    pub kind: Kind,
    /// The arguments of the event.
    pub args: List<Value>,
    /// The fields of the object's current version at that moment.
    pub fields: List<Value>,
}

impl Kind {
    /// Whether this is the other kind.
    #[tactic(auto, using(crate::proofs::Sames::kind_decides))]
    pub fn same(&self, other: &Kind) -> bool
        ensures same { IsTrue result ↔ (self.now ≡ other.now) }
        ensures test { result ≡ same_kind self.now other.now }
    {
        self.agrees(other)
    }

    // Whether both agree in form and parts.
    fn agrees(&self, other: &Kind) -> bool
        ensures { result ≡ same_kind self.now other.now }
    {
        match self {
            Kind::Create => matches!(other, Kind::Create),
            Kind::Delete => matches!(other, Kind::Delete),
            Kind::NewVersion => matches!(other, Kind::NewVersion),
            Kind::DropVersion => matches!(other, Kind::DropVersion),
            Kind::Before(name) => match other {
                Kind::Before(other) => name.same(other),
                _ => false,
            },
            Kind::After(name) => match other {
                Kind::After(other) => name.same(other),
                _ => false,
            },
            Kind::TBegin => matches!(other, Kind::TBegin),
            Kind::TComplete => matches!(other, Kind::TComplete),
            Kind::TCommit => matches!(other, Kind::TCommit),
            Kind::TAbort => matches!(other, Kind::TAbort),
            Kind::TimeEvery(seconds) => match other {
                Kind::TimeEvery(other) => seconds == other,
                _ => false,
            },
            Kind::TimeAt(second) => match other {
                Kind::TimeAt(other) => second == other,
                _ => false,
            },
        }
    }

    /// The same kind again.
    pub fn copy(&self, alloc: Global) -> Result<Kind, AllocError>
        ensures { IfOk result (λ copy. copy ≡ self.now) }
    {
        match self {
            Kind::Create => Ok(Kind::Create),
            Kind::Delete => Ok(Kind::Delete),
            Kind::NewVersion => Ok(Kind::NewVersion),
            Kind::DropVersion => Ok(Kind::DropVersion),
            Kind::Before(name) => Ok(Kind::Before(name.copy(alloc)?)),
            Kind::After(name) => Ok(Kind::After(name.copy(alloc)?)),
            Kind::TBegin => Ok(Kind::TBegin),
            Kind::TComplete => Ok(Kind::TComplete),
            Kind::TCommit => Ok(Kind::TCommit),
            Kind::TAbort => Ok(Kind::TAbort),
            Kind::TimeEvery(seconds) => Ok(Kind::TimeEvery(*seconds)),
            Kind::TimeAt(second) => Ok(Kind::TimeAt(*second)),
        }
    }
}

impl Copied for Kind {
    fn copy_in(&self, alloc: Global) -> Result<Kind, AllocError> {
        self.copy(alloc)
    }
}

impl EventExpr {
    /// The same expression again.
    #[cycle(events)]
    pub fn copy(&self, alloc: Global) -> Result<EventExpr, AllocError>
        ensures { IfOk result (λ copy. copy ≡ self.now) }
    {
        match self {
            EventExpr::Leaf(kind, mask) => Ok(EventExpr::Leaf(
                kind.copy(alloc)?,
                mask.copy_in(alloc)?,
            )),
            EventExpr::Any => Ok(EventExpr::Any),
            EventExpr::First => Ok(EventExpr::First),
            EventExpr::Not(e) => Ok(EventExpr::Not(copy_boxed(alloc, e.get())?)),
            EventExpr::And(e, f) => {
                let e = copy_boxed(alloc, e.get())?;
                let f = copy_boxed(alloc, f.get())?;
                Ok(EventExpr::And(e, f))
            }
            EventExpr::Or(e, f) => {
                let e = copy_boxed(alloc, e.get())?;
                let f = copy_boxed(alloc, f.get())?;
                Ok(EventExpr::Or(e, f))
            }
            EventExpr::Relative(e, f) => {
                let e = copy_boxed(alloc, e.get())?;
                let f = copy_boxed(alloc, f.get())?;
                Ok(EventExpr::Relative(e, f))
            }
            EventExpr::RelPlus(e) => Ok(EventExpr::RelPlus(copy_boxed(alloc, e.get())?)),
            EventExpr::Prior(e, f) => {
                let e = copy_boxed(alloc, e.get())?;
                let f = copy_boxed(alloc, f.get())?;
                Ok(EventExpr::Prior(e, f))
            }
            EventExpr::Sequence(e, f) => {
                let e = copy_boxed(alloc, e.get())?;
                let f = copy_boxed(alloc, f.get())?;
                Ok(EventExpr::Sequence(e, f))
            }
            EventExpr::Pipe(e, f) => {
                let e = copy_boxed(alloc, e.get())?;
                let f = copy_boxed(alloc, f.get())?;
                Ok(EventExpr::Pipe(e, f))
            }
            EventExpr::Choose(n, e) => Ok(EventExpr::Choose(*n, copy_boxed(alloc, e.get())?)),
            EventExpr::Every(n, e) => Ok(EventExpr::Every(*n, copy_boxed(alloc, e.get())?)),
            EventExpr::Fa(e, f, g) => {
                let e = copy_boxed(alloc, e.get())?;
                let f = copy_boxed(alloc, f.get())?;
                let g = copy_boxed(alloc, g.get())?;
                Ok(EventExpr::Fa(e, f, g))
            }
            EventExpr::FaAbs(e, f, g) => {
                let e = copy_boxed(alloc, e.get())?;
                let f = copy_boxed(alloc, f.get())?;
                let g = copy_boxed(alloc, g.get())?;
                Ok(EventExpr::FaAbs(e, f, g))
            }
            EventExpr::Masked(e, mask) => {
                let e = copy_boxed(alloc, e.get())?;
                Ok(EventExpr::Masked(e, mask.copy(alloc)?))
            }
        }
    }
}

#[cycle(events)]
fn copy_boxed(alloc: Global, e: &EventExpr) -> Result<Boxed<EventExpr>, AllocError>
    ensures { IfOk result (λ copy. copy ≡ e.now) }
{
    let copy = e.copy(alloc)?;
    Boxed::new(alloc, copy)
}

impl Copied for EventExpr {
    fn copy_in(&self, alloc: Global) -> Result<EventExpr, AllocError> {
        self.copy(alloc)
    }
}

impl Point {
    /// The same point again.
    pub fn copy(&self, alloc: Global) -> Result<Point, AllocError>
        ensures { IfOk result (λ copy. copy ≡ self.now) }
    {
        Ok(Point {
            kind: self.kind.copy(alloc)?,
            args: self.args.copy(alloc)?,
            fields: self.fields.copy(alloc)?,
        })
    }
}

impl Copied for Point {
    fn copy_in(&self, alloc: Global) -> Result<Point, AllocError> {
        self.copy(alloc)
    }
}
