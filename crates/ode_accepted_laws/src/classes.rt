//! What holds of classes that were accepted, and of languages that accept them.
ghost use Rattle.std.specs.Prelude.{List};
ghost use Rattle.ode_types.specs.Checked.{AreChecked};
ghost use Rattle.ode_value.specs.Language.{Language};
ghost use Rattle.ode_value.specs.Worlds.{Declared};
ghost use Rattle.ode_accepted_laws.specs.Languages.{HasSoundRules, HasStaticRules};
ghost use Rattle.ode_sound_laws.specs.Sound.{AreSound, checked_classes};

/// Classes, each of which was checked against those before it, are sound in the words of the machine: their names and numbers tell them
/// apart, a class has its ancestors' fields at the same places, methods are redefined with the same sorts, and methods and triggers are
/// found and typed.
#[tactic(auto, using(crate::proofs::Accepted::accepted_sound))]
pub fn accepted_classes_are_sound()
    ensures { (cs : List Declared) → AreChecked (checked_classes cs) → AreSound cs }
{}

/// A language that checks classes and statements by the static rules has sound rules: what it checks is typed, what it accepts is sound,
/// its classes list no more kinds than their texts have bytes together, and each has the next number, of 32 bits.
#[tactic(auto, using(crate::proofs::Rules::rules_sound))]
pub fn static_rules_are_sound()
    ensures { (l : Language) → HasStaticRules l → HasSoundRules l }
{}
