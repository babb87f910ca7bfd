//! Look-ups of typed statements.
ghost use Rattle.std.specs.Prelude.{◌≡◌, ◌<◌, ℕ, List as Items, Ok, Option, Some, length, slice_get, true};
ghost use Rattle.std.specs.List.{AllByRecursion};
ghost use Rattle.std.specs.Option.{IsSome, IsSomeAnd};
ghost use Rattle.ode_value.specs.declared.binding.Var.TheVariants.{Local, Own};
ghost use Rattle.ode_value.specs.declared.class.Class.{Class};
ghost use Rattle.ode_value.specs.declared.member.Method.{Method};
ghost use Rattle.ode_value.specs.declared.statement.Call.{Call};
ghost use Rattle.ode_value.specs.declared.statement.Expr.{Expr};
ghost use Rattle.ode_value.specs.declared.statement.Rhs.{Rhs};
ghost use Rattle.ode_value.specs.declared.statement.Rhs.TheVariants as rhs;
ghost use Rattle.ode_value.specs.declared.statement.Sort.{Sort};
ghost use Rattle.ode_value.specs.declared.value.Ref.{Ref};
ghost use Rattle.ode_value.specs.Classes.{Trigger, method_named, trigger_at, trigger_named};
ghost use Rattle.ode_value.specs.Denoting.{denoted, object_of};
ghost use Rattle.ode_value.specs.Evaluation.{Frame};
ghost use Rattle.ode_value.specs.Versions.{Version};
ghost use Rattle.ode_value.specs.Worlds.{Bones, Entry, Object, class_named};
ghost use Rattle.ode_types.specs.Families.{field_named};
ghost use Rattle.ode_types.specs.Kept.{Setting, is_assigned, right_sort};
ghost use Rattle.ode_sound_laws.specs.Fits.{FitsEntry, IsReadable};
ghost use Rattle.ode_lookup_laws.specs.Receiving.{Receives};

/// In a world of sound classes whose objects fit, and with a frame that fits, a look-up that a typed tree asks for finds something: the
/// method of a call and the trigger of an activation, each in the class of the object that is there, with as many parameters as there are
/// arguments; the class of a new object, with each field that is set; the field and the local that a statement sets; and the trigger of an
/// entry that fits. So where a statement aborts with object 0, it has followed null.
pub fn typed_names_are_found()
    ensures method { (b : Bones) (at : Setting) (frame : Frame) → IsReadable b at frame → (c : Call) (s : Option Sort) → right_sort at (rhs.Call c) ≡ Some s → (r : Ref) → Receives c.of b frame r →
        (o : Object) → object_of b r ≡ Some o → IsSomeAnd (method_named b.classes o.class c.method) (λ (m : Method). length m.params ≡ length c.args) }
    ensures trigger { (b : Bones) (at : Setting) (frame : Frame) → IsReadable b at frame → (e : Expr) (name : Items ℕ) (args : Items Expr) (s : Option Sort) → right_sort at (rhs.Activate e name args) ≡ Some s →
        (r : Ref) → Receives (Some e) b frame r → (o : Object) → object_of b r ≡ Some o → IsSomeAnd (trigger_named b.classes o.class name) (λ (t : Trigger). length t.decl.params ≡ length args) }
    ensures class { (b : Bones) (at : Setting) (frame : Frame) → IsReadable b at frame → (name : Items ℕ) (sets : Items (Items ℕ × Expr)) (s : Option Sort) → right_sort at (rhs.New name sets) ≡ Some s →
        IsSomeAnd (class_named name b.classes) (λ (c : Class). AllByRecursion (λ (set : Items ℕ × Expr). IsSome (field_named c.fields set.0)) sets) }
    ensures field { (b : Bones) (at : Setting) (frame : Frame) → IsReadable b at frame → (place : ℕ) (r : Rhs) → is_assigned (Own place) r at ≡ true → (v : Version) → denoted b frame.this ≡ Ok v → place < length v.fields }
    ensures local { (b : Bones) (at : Setting) (frame : Frame) → IsReadable b at frame → (place : ℕ) (r : Rhs) → is_assigned (Local place) r at ≡ true → IsSome (slice_get frame.locals place) }
    ensures entry { (b : Bones) (e : Entry) → FitsEntry b e → IsSome (trigger_at b.classes e.class e.trigger) }
{}
