//! The declared classes as the interpreter sees them.
use crate::program::Program;
use ode_interpreter::{Schema, Trigger};
use ode_value::{Class, Method, Mode, Name, Stmt};

impl<'a> Schema for Program<'a> {
    ghost use Rattle.std.specs.Prelude.{◌≡◌};
    ghost use Rattle.ode_states.specs.Machine.{checked};
    ghost use Rattle.ode_schema.specs.Parts.{longest as longest_body, table_by, trigger_of};

    ghost declares = { λ p classes. checked classes ≡ p.classes };

    ghost tables = { λ p. table_by p.tables p.maps };

    ghost trigger = { λ p. trigger_of p.classes };

    ghost longest = { λ p size. longest_body size p.classes };

    fn method(&self, class: u32, name: &Name) -> Option<&Method> {
        self.nearest(class, name)
    }

    fn named(&self, name: &Name) -> Option<&Class> {
        self.classes().named(name)
    }

    fn mode(&self, t: Trigger) -> Mode {
        match self.trigger_at(t) {
            Some(trigger) => trigger.mode,
            None => Mode::Immediate,
        }
    }

    fn action(&self, t: Trigger) -> &[Stmt] {
        match self.trigger_at(t) {
            Some(trigger) => trigger.action.as_slice(),
            None => &[],
        }
    }
}
