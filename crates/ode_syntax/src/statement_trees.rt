//! Right sides and statements, and what each action makes.
ghost use Rattle.std.specs.Prelude.{◌≡◌, OnOk};
ghost use Rattle.ode_syntax.specs.Built.{built_right_side, built_statement};

use crate::top::{add, take_expr, take_list, take_name, take_right_side, take_statement};
use crate::trees::Trees;
use ode_grammar::Action;
use ode_value::{Call, List, Rhs, Stmt, Var};
use std::alloc::{AllocError, Global};

impl Trees {
    /// Makes what an action of right sides says.
    #[tactic(auto, unfolding(crate::specs::Built::built_right_side))]
    pub(crate) fn build_right_side(
        &mut self,
        alloc: Global,
        action: Action,
    ) -> Result<(), AllocError>
        ensures { OnOk result (self.new ≡ built_right_side action self.old) }
    {
        match action {
            Action::Arguments => self.args.push(List::new(alloc)),
            Action::Argument => {
                let e = take_expr(&mut self.exprs);
                add(alloc, &mut self.args, e)
            }
            Action::DropWord => {
                take_name(alloc, &mut self.names)?;
                Ok(())
            }
            Action::Sets => self.sets.push(List::new(alloc)),
            Action::AddSet => {
                let name = take_name(alloc, &mut self.names)?;
                let e = take_expr(&mut self.exprs);
                add(alloc, &mut self.sets, (name, e))
            }
            Action::Call => {
                let method = take_name(alloc, &mut self.names)?;
                let args = take_list(alloc, &mut self.args);
                let of = Some(take_expr(&mut self.exprs));
                self.right_sides.push(Rhs::Call(Call { of, method, args }))
            }
            Action::OwnCall => {
                let method = take_name(alloc, &mut self.names)?;
                let args = take_list(alloc, &mut self.args);
                self.right_sides.push(Rhs::Call(Call {
                    of: None,
                    method,
                    args,
                }))
            }
            Action::New => {
                let class = take_name(alloc, &mut self.names)?;
                let fields = take_list(alloc, &mut self.sets);
                self.right_sides.push(Rhs::New { class, fields })
            }
            Action::NewVersion => {
                let of = take_expr(&mut self.exprs);
                self.right_sides.push(Rhs::NewVersion(of))
            }
            Action::Activate => {
                let trigger = take_name(alloc, &mut self.names)?;
                let args = take_list(alloc, &mut self.args);
                let of = take_expr(&mut self.exprs);
                self.right_sides.push(Rhs::Activate { of, trigger, args })
            }
            Action::Plain => {
                let e = take_expr(&mut self.exprs);
                self.right_sides.push(Rhs::Plain(e))
            }
            _ => self.build_statement(alloc, action),
        }
    }

    // Makes what an action of statements says.
    #[tactic(auto, unfolding(crate::specs::Built::built_statement))]
    fn build_statement(&mut self, alloc: Global, action: Action) -> Result<(), AllocError>
        ensures { OnOk result (self.new ≡ built_statement action self.old) }
    {
        match action {
            Action::Body | Action::Absent => self.bodies.push(List::new(alloc)),
            Action::Append => {
                let statement = take_statement(&mut self.statements);
                add(alloc, &mut self.bodies, statement)
            }
            Action::Show => {
                let shown = take_right_side(&mut self.right_sides);
                self.statements.push(Stmt::Show(shown))
            }
            Action::Say => {
                let e = take_expr(&mut self.exprs);
                self.statements.push(Stmt::Say(e))
            }
            Action::Delete => {
                let e = take_expr(&mut self.exprs);
                self.statements.push(Stmt::Delete(e))
            }
            Action::DropVersion => {
                let e = take_expr(&mut self.exprs);
                self.statements.push(Stmt::DropVersion(e))
            }
            Action::Deactivate => {
                let number = take_expr(&mut self.exprs);
                let of = take_expr(&mut self.exprs);
                self.statements.push(Stmt::Deactivate(of, number))
            }
            Action::Do => {
                let done = take_right_side(&mut self.right_sides);
                self.statements.push(Stmt::Do(done))
            }
            Action::Let => {
                let name = take_name(alloc, &mut self.names)?;
                let value = take_right_side(&mut self.right_sides);
                self.statements.push(Stmt::Let(Var::Name(name), value))
            }
            Action::Set => {
                let name = take_name(alloc, &mut self.names)?;
                let value = take_right_side(&mut self.right_sides);
                self.statements.push(Stmt::Set(Var::Name(name), value))
            }
            Action::If => {
                let second = take_list(alloc, &mut self.bodies);
                let first = take_list(alloc, &mut self.bodies);
                let test = take_expr(&mut self.exprs);
                self.statements.push(Stmt::If(test, first, second))
            }
            Action::Return => {
                let e = take_expr(&mut self.exprs);
                self.statements.push(Stmt::Return(Some(e)))
            }
            Action::ReturnNothing => self.statements.push(Stmt::Return(None)),
            Action::TAbort => self.statements.push(Stmt::TAbort),
            _ => self.build_event(alloc, action),
        }
    }
}
