//! Classes, their members, statements of a script and changes of classes, and what each action makes.
ghost use Rattle.std.specs.Prelude.{◌≡◌, OnOk, IfOk, [], false};
ghost use Rattle.ode_grammar.specs.Stacks.{rest, top};
ghost use Rattle.ode_syntax.specs.Built.{built_class, built_member, built_script, clock_text, declared, event_tree, name, sort_on, tree};

use crate::change_trees::{add_field, begin_change, negate, take_value};
use crate::top::{add, take, take_event, take_expr, take_list, take_name, take_statement};
use crate::trees::Trees;
use crate::words::text_of;
use ode_grammar::{Action, Stack};
use ode_lex::Mark;
use ode_value::{
    ClassDecl, Constraint, Expr, Kind, List, Member, Method, Mode, OdeText, Param, Sort, Statement,
    TriggerDecl, Value,
};
use std::alloc::{AllocError, Global};

// Takes the class on top away, as a statement.
fn take_declared(classes: &mut Stack<ClassDecl>) -> Statement
    ensures top { result ≡ declared classes.old }
    ensures rest { classes.new ≡ rest classes.old }
{
    match classes.pop() {
        Some(class) => Statement::Class(class),
        None => Statement::Empty,
    }
}

fn clock_text(alloc: Global, leaf: Expr) -> Result<OdeText, AllocError>
    ensures { IfOk result (λ text. text ≡ clock_text leaf) }
{
    match leaf {
        Expr::Lit(Value::Text(text)) => Ok(text),
        _ => text_of(alloc, b""),
    }
}

impl Trees {
    /// Makes what an action of classes says.
    #[tactic(auto, unfolding(crate::specs::Built::built_class))]
    pub(crate) fn build_class(&mut self, alloc: Global, action: Action) -> Result<(), AllocError>
        ensures { OnOk result (self.new ≡ built_class action self.old) }
    {
        match action {
            Action::RefSort => {
                let class = take_name(alloc, &mut self.names)?;
                self.sorts.push(Sort::Reference(class))
            }
            Action::VoidSort => self.sorts.push(Sort::Void),
            Action::Params => self.params.push(List::new(alloc)),
            Action::Param => {
                let name = take_name(alloc, &mut self.names)?;
                let sort = take(&mut self.sorts, Sort::Void);
                add(alloc, &mut self.params, Param { name, sort })
            }
            Action::Kinds => self.kind_lists.push(List::new(alloc)),
            Action::Listed => {
                let kind = take(&mut self.kinds, Kind::Create);
                add(alloc, &mut self.kind_lists, kind)
            }
            Action::Initial => self.flags.push(true),
            Action::NotInitial | Action::Once | Action::Committed => self.flags.push(false),
            Action::Immediate => self.modes.push(Mode::Immediate),
            Action::Members => self.members.push(List::new(alloc)),
            Action::Parent => {
                let name = take_name(alloc, &mut self.names)?;
                self.parents.push(Some(name))
            }
            Action::NoParent => self.parents.push(None),
            Action::Class => {
                let name = take_name(alloc, &mut self.names)?;
                let members = take_list(alloc, &mut self.members);
                let parent = take(&mut self.parents, None);
                self.classes.push(ClassDecl {
                    name,
                    parent,
                    members,
                })
            }
            _ => self.build_member(alloc, action),
        }
    }

    fn take_method(&mut self, alloc: Global) -> Result<Method, AllocError>
        ensures method { IfOk result (λ m. m ≡ record { name = name self.old.names; result = sort_on self.old.sorts; params = top [] self.old.params; body = top [] self.old.bodies }) }
        ensures rest { OnOk result (self.new ≡ record self.old { bodies = rest self.old.bodies; params = rest self.old.params; names = rest self.old.names; sorts = rest self.old.sorts }) }
    {
        let name = take_name(alloc, &mut self.names)?;
        let body = take_list(alloc, &mut self.bodies);
        let params = take_list(alloc, &mut self.params);
        let result = take(&mut self.sorts, Sort::Void);
        Ok(Method {
            name,
            result,
            params,
            body,
        })
    }

    fn take_constraint(&mut self, alloc: Global, soft: bool) -> Result<Constraint, AllocError>
        ensures constraint { IfOk result (λ c. c ≡ record { name = name self.old.names; soft = soft; test = tree self.old.exprs }) }
        ensures rest { OnOk result (self.new ≡ record self.old { exprs = rest self.old.exprs; names = rest self.old.names }) }
    {
        let name = take_name(alloc, &mut self.names)?;
        let test = take_expr(&mut self.exprs);
        Ok(Constraint { name, soft, test })
    }

    fn take_trigger(&mut self, alloc: Global) -> Result<TriggerDecl, AllocError>
        ensures trigger { IfOk result (λ t. t ≡ record {
          name = name self.old.names;
          initial = top false (rest (rest self.old.flags));
          perpetual = top false (rest self.old.flags);
          whole = top false self.old.flags;
          mode = top Mode.Immediate self.old.modes;
          params = top [] self.old.params;
          event = event_tree self.old.events;
          action = top [] self.old.bodies;
        }) }
        ensures rest { OnOk result (self.new ≡ record self.old {
          bodies = rest self.old.bodies;
          events = rest self.old.events;
          params = rest self.old.params;
          names = rest self.old.names;
          modes = rest self.old.modes;
          flags = rest (rest (rest self.old.flags));
        }) }
    {
        let name = take_name(alloc, &mut self.names)?;
        let action = take_list(alloc, &mut self.bodies);
        let event = take_event(&mut self.events);
        let params = take_list(alloc, &mut self.params);
        let mode = take(&mut self.modes, Mode::Immediate);
        let whole = take(&mut self.flags, false);
        let perpetual = take(&mut self.flags, false);
        let initial = take(&mut self.flags, false);
        Ok(TriggerDecl {
            name,
            initial,
            perpetual,
            whole,
            mode,
            params,
            event,
            action,
        })
    }

    // Makes what an action of members says.
    #[tactic(auto, unfolding(crate::specs::Built::built_member))]
    fn build_member(&mut self, alloc: Global, action: Action) -> Result<(), AllocError>
        ensures { OnOk result (self.new ≡ built_member action self.old) }
    {
        match action {
            Action::FieldMember => {
                let name = take_name(alloc, &mut self.names)?;
                let sort = take(&mut self.sorts, Sort::Void);
                add(alloc, &mut self.members, Member::Field(name, sort))
            }
            Action::Method => {
                let method = self.take_method(alloc)?;
                add(alloc, &mut self.members, Member::Method(method))
            }
            Action::Constraint => {
                let constraint = self.take_constraint(alloc, false)?;
                add(alloc, &mut self.members, Member::Constraint(constraint))
            }
            Action::SoftConstraint => {
                let constraint = self.take_constraint(alloc, true)?;
                add(alloc, &mut self.members, Member::Constraint(constraint))
            }
            Action::Events => {
                let kinds = take_list(alloc, &mut self.kind_lists);
                add(alloc, &mut self.members, Member::Events(kinds))
            }
            Action::Trigger => {
                let trigger = self.take_trigger(alloc)?;
                add(alloc, &mut self.members, Member::Trigger(trigger))
            }
            _ => self.build_script(alloc, action),
        }
    }

    // Makes what an action of a script's statements and of changes of classes says.
    #[tactic(auto, unfolding(crate::specs::Built::built_script))]
    fn build_script(&mut self, alloc: Global, action: Action) -> Result<(), AllocError>
        ensures { OnOk result (self.new ≡ built_script action self.old) }
    {
        match action {
            Action::Declare => {
                let class = take_declared(&mut self.classes);
                self.scripts.push(class)
            }
            Action::Begin => self.scripts.push(Statement::Begin),
            Action::Commit => self.scripts.push(Statement::Commit),
            Action::Abort => self.scripts.push(Statement::Abort),
            Action::Clock => {
                let text = clock_text(alloc, take_expr(&mut self.leaves))?;
                self.scripts.push(Statement::Clock(text))
            }
            Action::Simple => {
                let statement = take_statement(&mut self.statements);
                self.scripts.push(Statement::Simple(statement))
            }
            Action::Empty => self.scripts.push(Statement::Empty),
            Action::Change => begin_change(alloc, &mut self.names, &mut self.changes),
            Action::Negative => {
                take(&mut self.marks, Mark::Plus);
                negate(&mut self.leaves)
            }
            Action::Addition => {
                let name = take_name(alloc, &mut self.names)?;
                let sort = take(&mut self.sorts, Sort::Void);
                let value = take_value(&mut self.leaves);
                add_field(alloc, &mut self.changes, (name, sort, value))
            }
            _ => Ok(()),
        }
    }
}
