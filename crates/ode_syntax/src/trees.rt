//! What is made of the parts of a text.
ghost use Rattle.std.specs.Prelude.{◌≡◌, IfOk};
ghost use Rattle.ode_syntax.specs.Built.{change_tree, class_tree, event_tree, script_tree, tree};
ghost use Rattle.ode_syntax.specs.Trees.{no_trees};

use crate::top::{take, take_change, take_class, take_event, take_expr};
use ode_grammar::Stack;
use ode_lex::Mark;
use ode_value::{
    Change, ClassDecl, EventExpr, Expr, Kind, List, Member, Mode, Name, Param, Rhs, Sort,
    Statement, Stmt,
};
use std::alloc::{AllocError, Global};

/// The words and trees of the parts that were read, each sort on a stack of its own.
#[derive(Drop)]
pub struct Trees {
    pub names: Stack<Name>,
    pub leaves: Stack<Expr>,
    pub marks: Stack<Mark>,
    pub exprs: Stack<Expr>,
    pub args: Stack<List<Expr>>,
    pub sets: Stack<List<(Name, Expr)>>,
    pub right_sides: Stack<Rhs>,
    pub statements: Stack<Stmt>,
    pub bodies: Stack<List<Stmt>>,
    pub kinds: Stack<Kind>,
    pub kind_lists: Stack<List<Kind>>,
    pub events: Stack<EventExpr>,
    pub sorts: Stack<Sort>,
    pub params: Stack<List<Param>>,
    pub parents: Stack<Option<Name>>,
    /// Whether a trigger is initial, perpetual and whole.
    pub flags: Stack<bool>,
    pub modes: Stack<Mode>,
    pub members: Stack<List<Member>>,
    pub classes: Stack<ClassDecl>,
    pub changes: Stack<Change>,
    pub scripts: Stack<Statement>,
}

impl Trees {
    /// No trees.
    pub fn new(alloc: Global) -> Trees
        ensures { result ≡ no_trees }
    {
        Trees {
            names: Stack::new(alloc),
            leaves: Stack::new(alloc),
            marks: Stack::new(alloc),
            exprs: Stack::new(alloc),
            args: Stack::new(alloc),
            sets: Stack::new(alloc),
            right_sides: Stack::new(alloc),
            statements: Stack::new(alloc),
            bodies: Stack::new(alloc),
            kinds: Stack::new(alloc),
            kind_lists: Stack::new(alloc),
            events: Stack::new(alloc),
            sorts: Stack::new(alloc),
            params: Stack::new(alloc),
            parents: Stack::new(alloc),
            flags: Stack::new(alloc),
            modes: Stack::new(alloc),
            members: Stack::new(alloc),
            classes: Stack::new(alloc),
            changes: Stack::new(alloc),
            scripts: Stack::new(alloc),
        }
    }
}

impl Trees {
    /// Lets all trees go, so that the many stacks are dropped at one place.
    pub(crate) fn let_go(self) {}

    /// The expression on top.
    pub fn into_expr(self) -> Expr
        ensures { result ≡ tree self.exprs }
    {
        let mut made = self;
        let e = take_expr(&mut made.exprs);
        made.let_go();
        e
    }

    /// The event expression on top.
    pub fn into_event(self) -> EventExpr
        ensures { result ≡ event_tree self.events }
    {
        let mut made = self;
        let e = take_event(&mut made.events);
        made.let_go();
        e
    }

    /// The class on top.
    pub fn into_class(self, alloc: Global) -> Result<ClassDecl, AllocError>
        ensures { IfOk result (λ class. class ≡ class_tree self.classes) }
    {
        let mut made = self;
        let class = take_class(alloc, &mut made.classes);
        made.let_go();
        class
    }

    /// The change of a class on top.
    pub fn into_change(self, alloc: Global) -> Result<Change, AllocError>
        ensures { IfOk result (λ change. change ≡ change_tree self.changes) }
    {
        let mut made = self;
        let change = take_change(alloc, &mut made.changes);
        made.let_go();
        change
    }

    /// The statement of a script on top.
    pub fn into_statement(self) -> Statement
        ensures { result ≡ script_tree self.scripts }
    {
        let mut made = self;
        let statement = take(&mut made.scripts, Statement::Empty);
        made.let_go();
        statement
    }
}
