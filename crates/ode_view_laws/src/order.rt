//! Acts keep parts in the order of their numbers.
ghost use Rattle.std.specs.Prelude.{ℕ, List as Items};
ghost use Rattle.ode_laws.specs.Alike.{NumberTx};
ghost use Rattle.ode_value.specs.declared.event.Kind.{Kind};
ghost use Rattle.ode_value.specs.declared.value.Ref.{Ref};
ghost use Rattle.ode_value.specs.declared.value.Value.{Value};
ghost use Rattle.ode_value.specs.Acts.{reached};
ghost use Rattle.ode_value.specs.Classes.{Trigger};
ghost use Rattle.ode_value.specs.Firings.{arises, both_lists};
ghost use Rattle.ode_value.specs.Making.{derives, drops, makes, removes, sets_field};
ghost use Rattle.ode_value.specs.Pasts.{numbers};
ghost use Rattle.ode_value.specs.Posting.{joins};
ghost use Rattle.ode_value.specs.Statements.{activates_initial, switches_off_numbered, switches_on_named};
ghost use Rattle.ode_value.specs.Tables.{Table};
ghost use Rattle.ode_view_laws.specs.Ordering.{IsOrdered};

/// Where the numbers of a world's objects rise, they rise behind each act.
pub fn acts_keep_order()
    ensures set { (r : Ref) (place : ℕ) (v : Value) (y : NumberTx) → IsOrdered y.now → IsOrdered (reached (sets_field r place v y)).now }
    ensures derive { (r : Ref) (y : NumberTx) → IsOrdered y.now → IsOrdered (reached (derives r y)).now }
    ensures drop { (r : Ref) (y : NumberTx) → IsOrdered y.now → IsOrdered (reached (drops r y)).now }
    ensures remove { (id : ℕ) (y : NumberTx) → IsOrdered y.now → IsOrdered (reached (removes id y)).now }
    ensures make { (tables : ℕ → ℕ → Table) (class : ℕ) (fields : Items Value) (y : NumberTx) → IsOrdered y.now → IsOrdered (reached (makes (numbers tables) class fields y)).now }
    ensures join { (id : ℕ) (y : NumberTx) → IsOrdered y.now → IsOrdered (reached (joins id y)).now }
    ensures activate { (tables : ℕ → ℕ → Table) (r : Ref) (name : Items ℕ) (args : Items Value) (y : NumberTx) → IsOrdered y.now → IsOrdered (reached (switches_on_named (numbers tables) r name args y)).now }
    ensures initial { (tables : ℕ → ℕ → Table) (id : ℕ) (t : Trigger) (y : NumberTx) → IsOrdered y.now → IsOrdered (reached (activates_initial (numbers tables) id t y)).now }
    ensures deactivate { (tables : ℕ → ℕ → Table) (r : Ref) (v : Value) (y : NumberTx) → IsOrdered y.now → IsOrdered (reached (switches_off_numbered (numbers tables) r v y)).now }
    ensures arise { (tables : ℕ → ℕ → Table) (id : ℕ) (kind : Kind) (args : Items Value) (y : NumberTx) → IsOrdered y.now
        → IsOrdered (reached (arises (numbers tables) (both_lists (numbers tables)) id kind args y)).now }
{}
