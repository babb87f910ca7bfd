//! What expressions come to fits their sorts, and where they fail.
ghost use Rattle.std.specs.Prelude.{◌≡◌, Err, Ok, Option, Some};
ghost use Rattle.ode_value.specs.declared.arithmetic.Fault.TheVariants.{NoObject};
ghost use Rattle.ode_value.specs.declared.statement.Expr.{Expr};
ghost use Rattle.ode_value.specs.declared.statement.Sort.{Sort};
ghost use Rattle.ode_value.specs.declared.value.Value.{Value};
ghost use Rattle.ode_value.specs.Evaluation.{Frame, evaluate};
ghost use Rattle.ode_value.specs.Worlds.{Bones};
ghost use Rattle.ode_sound_laws.specs.Fits.{Fits, IsReadable};
ghost use Rattle.ode_types.specs.Kept.{Setting, sort_in};
ghost use Rattle.ode_sound_laws.specs.Nulls.{FollowsNull};

/// In a world whose objects fit, and with a frame that fits, the value of a typed expression fits its sort.
pub fn expressions_fit()
    ensures { (b : Bones) (at : Setting) (frame : Frame) → IsReadable b at frame → (e : Expr) (s : Option Sort) → sort_in e at ≡ Some s → (v : Value) → evaluate e b frame ≡ Ok v → Fits b s v }
{}

/// A typed expression never reads what isn't there: it fails with object 0 only where it asks for a field or a version of null.
pub fn expressions_find_what_they_read()
    ensures { (b : Bones) (at : Setting) (frame : Frame) → IsReadable b at frame → (e : Expr) (s : Option Sort) → sort_in e at ≡ Some s → evaluate e b frame ≡ Err (NoObject 0) → FollowsNull b frame e }
{}
