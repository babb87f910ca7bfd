//! The machine's look-ups over declared classes are those over the classes as they were checked.
ghost use Rattle.std.specs.Prelude.{◌≡◌, ℕ, List as Items, Some, map};
ghost use Rattle.std.specs.Option.{option_map};
ghost use Rattle.ode_value.specs.declared.class.Class.{Class};
ghost use Rattle.ode_value.specs.Classes as machine;
ghost use Rattle.ode_value.specs.GoodWorlds.{RiseFrom};
ghost use Rattle.ode_value.specs.Worlds as worlds;
ghost use Rattle.ode_value.specs.Worlds.{Declared};
ghost use Rattle.ode_types.specs.Checked.{AreChecked};
ghost use Rattle.ode_types.specs.Families as families;
ghost use Rattle.ode_types.specs.declared.running.Running.{Running};
ghost use Rattle.ode_states.specs.Advance.{alphabet_of, table_of};
ghost use Rattle.ode_states.specs.Machine.{checked};
ghost use Rattle.ode_value.specs.Symbols.{alphabet};
ghost use Rattle.ode_value.specs.declared.member.TriggerDecl.{TriggerDecl};
ghost use Rattle.ode_schema.specs.Parts.{AreFit, Parts, table_by, table_place, trigger_under};

/// Of classes, each of which was checked against those before it, the machine finds by a class's number what the checks find for the
/// class itself: the class, by its name too, its line of ancestors, whether it has an ancestor of a name, its methods and its triggers.
pub fn lookups_agree()
    ensures numbered { (classes : Items Declared) (number : ℕ) → worlds.class_numbered number classes ≡ families.class_numbered (checked classes) number }
    ensures named { (classes : Items Declared) (name : Items ℕ) → worlds.class_named name classes ≡ families.class_named (checked classes) name }
    ensures line { (classes : Items Declared) → AreChecked (checked classes) → (number : ℕ) (c : Class) → families.class_numbered (checked classes) number ≡ Some c →
        machine.line_of classes number ≡ families.line_of (checked classes) c }
    ensures is { (classes : Items Declared) → AreChecked (checked classes) → (number : ℕ) (c : Class) → families.class_numbered (checked classes) number ≡ Some c →
        (name : Items ℕ) → machine.is_a classes number name ≡ families.is_a (checked classes) c name }
    ensures method { (classes : Items Declared) → AreChecked (checked classes) → (number : ℕ) (c : Class) → families.class_numbered (checked classes) number ≡ Some c →
        (name : Items ℕ) → machine.method_named classes number name ≡ families.method_named (families.line_of (checked classes) c) name }
    ensures trigger { (classes : Items Declared) → AreChecked (checked classes) → (number : ℕ) (c : Class) → families.class_numbered (checked classes) number ≡ Some c →
        (name : Items ℕ) → option_map (λ (t : machine.Trigger). t.decl) (machine.trigger_named classes number name) ≡ families.trigger_named (families.line_of (checked classes) c) name }
    ensures rising { (classes : Items Declared) → AreChecked (checked classes) → RiseFrom 0 (map (λ (d : Declared). d.class.number) classes) }
{}

/// An activation of a declared trigger, whose table stands at the trigger's place, has a table and the alphabet of its trigger's event
/// in the lists, and goes on by the trigger's table.
pub fn fit_activations_have_tables()
    ensures table { (p : Parts) (a : Running) (t : TriggerDecl) → AreFit p → trigger_under p.classes a.class a.trigger ≡ Some t → table_place p.maps a.class a.trigger ≡ Some a.table →
        table_of p.tables a ≡ table_by p.tables p.maps a.class a.trigger }
    ensures alphabet { (p : Parts) (a : Running) (t : TriggerDecl) → AreFit p → trigger_under p.classes a.class a.trigger ≡ Some t → table_place p.maps a.class a.trigger ≡ Some a.table →
        alphabet_of p.alphabets a ≡ alphabet t.event }
{}
