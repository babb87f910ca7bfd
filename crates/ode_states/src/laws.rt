//! The laws of the activations of an object, each carried by the contract of a function that does nothing.
ghost use Rattle.std.specs.List.{AllByRecursion};
ghost use Rattle.std.specs.Prelude.{◌≡◌, ℕ, List as Items, map};
ghost use Rattle.ode_value.specs.declared.event.Point.{Point};
ghost use Rattle.ode_value.specs.Firings.{object_after};
ghost use Rattle.ode_value.specs.Objects.{Histories, Starts, grown};
ghost use Rattle.ode_value.specs.Pasts.{Kept, lists, numbers};
ghost use Rattle.ode_value.specs.Symbols.{Alphabet};
ghost use Rattle.ode_value.specs.Tables.{Table as States};
ghost use Rattle.ode_value.specs.Worlds.{Declared, Object};
ghost use Rattle.ode_types.specs.declared.running.Running.{Running};
ghost use Rattle.ode_states.specs.Advance.{advanced, fired_in};
ghost use Rattle.ode_states.specs.Machine.{activation_of, state_of, row_of, fired_as, checked, kept_behind, machine_firings, AreOf, IsStanding};

/// Activations that go on by a point are the machine's by numbers: the states are those that it keeps behind the point, the
/// firings are its list, in its order, and those go off that end by its firings.
pub fn activations_are_the_machines()
    ensures states { (by : ℕ → ℕ → States) (tables : Items States) (alphabets : Items Alphabet) (classes : Items Declared)
        (p : Point) (o : Object) (acts : Items Running) (kept : Kept (Unit {0}) ℕ) →
        AreOf by tables alphabets classes o acts → kept.activations ≡ map (row_of state_of) acts →
        (kept_behind (numbers by) classes p o kept).activations ≡ map (row_of state_of) (map (advanced tables alphabets (checked classes) p) acts) }
    ensures firings { (by : ℕ → ℕ → States) (tables : Items States) (alphabets : Items Alphabet) (classes : Items Declared)
        (p : Point) (o : Object) (acts : Items Running) (kept : Kept (Unit {0}) ℕ) →
        AreOf by tables alphabets classes o acts → kept.activations ≡ map (row_of state_of) acts →
        map fired_as (machine_firings (numbers by) classes p o kept) ≡ fired_in tables alphabets (checked classes) p acts }
    ensures ends { (by : ℕ → ℕ → States) (tables : Items States) (alphabets : Items Alphabet) (classes : Items Declared)
        (p : Point) (o : Object) (acts : Items Running) (kept : Kept (Unit {0}) ℕ) →
        AreOf by tables alphabets classes o acts → kept.activations ≡ map (row_of state_of) acts →
        (object_after (machine_firings (numbers by) classes p o kept) o).activations
        ≡ map activation_of (map (advanced tables alphabets (checked classes) p) acts) }
{}

/// Where the tables of activations mean their triggers' events and their numbers stand for their views, each number stands behind a
/// point for its view with the point, and the firings are those of the views, in the machine's order.
pub fn activations_answer_for_views()
    ensures stand { (by : ℕ → ℕ → States) (tables : Items States) (alphabets : Items Alphabet) (classes : Items Declared)
        (p : Point) (o : Object) (acts : Items Running) (h : Histories) (starts : ℕ → Starts) →
        AllByRecursion (IsStanding by tables alphabets classes o.class h starts) acts →
        AllByRecursion (IsStanding by tables alphabets classes o.class (grown h p) starts) (map (advanced tables alphabets (checked classes) p) acts) }
    ensures firings { (by : ℕ → ℕ → States) (tables : Items States) (alphabets : Items Alphabet) (classes : Items Declared)
        (p : Point) (o : Object) (acts : Items Running) (kept : Kept Histories Starts) (starts : ℕ → Starts) →
        AreOf by tables alphabets classes o acts → kept.activations ≡ map (row_of (λ (a : Running). starts a.id)) acts →
        AllByRecursion (IsStanding by tables alphabets classes o.class kept.own starts) acts →
        map fired_as (machine_firings lists classes p o kept) ≡ fired_in tables alphabets (checked classes) p acts }
{}
