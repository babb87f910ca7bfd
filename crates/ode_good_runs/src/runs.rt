//! Worlds of runs.
ghost use Rattle.std.specs.Prelude.{◌≡◌, ◌<◌, ℕ, List as Items, Ok};
ghost use Rattle.std.specs.List.{AllByRecursion};
ghost use Rattle.ode_value.specs.declared.statement.ClassDecl.{ClassDecl};
ghost use Rattle.ode_value.specs.declared.statement.Statement.TheVariants.{Class};
ghost use Rattle.ode_value.specs.GoodWorlds.{IsGood};
ghost use Rattle.ode_value.specs.Language.{Language, ListWorld};
ghost use Rattle.ode_value.specs.Limits.{transaction_limit};
ghost use Rattle.ode_value.specs.Pasts.{lists};
ghost use Rattle.ode_value.specs.Settling.{transaction};
ghost use Rattle.ode_value.specs.Transactions.{Script};
ghost use Rattle.ode_value.specs.Worlds.{Declared, empty_world};
ghost use Rattle.ode_machine.specs.Refusals.{declared_in};
ghost use Rattle.ode_machine.specs.Works.{declares};
ghost use Rattle.ode_machine.specs.Runs.{trace, worlds};
ghost use Rattle.ode_accepted_laws.specs.Languages.{HasSoundRules};
ghost use Rattle.ode_good_laws.specs.Changed.{HasSoundChanges};
ghost use Rattle.ode_good_laws.specs.Well.{IsWell};
ghost use Rattle.ode_sound_laws.specs.Sound.{AreSound};
ghost use Rattle.ode_sound_laws.specs.Typed.{AreFromOne};
ghost use Rattle.ode_good_runs.specs.Reading.{ReadsWell};

/// By a language with sound rules a fresh database is a good world, and the classes of a good world are sound. If it also reads well, then
/// from a good world whose versions' numbers begin at 1 the declaration of a class leaves such a world again, which was read and is
/// accepted; and where its changes of classes are sound, each world of a run of any script is one.
pub fn runs_stay_good()
    ensures fresh { (l : Language) → HasSoundRules l → IsWell l empty_world }
    ensures sound { (l : Language) → HasSoundRules l → (w : ListWorld) → IsGood l w → AreSound w.bones.classes }
    ensures run { (l : Language) → HasSoundRules l → HasSoundChanges l → ReadsWell l → (w : ListWorld) → IsGood l w → AreFromOne w.bones → (script : Items ℕ) → AllByRecursion (IsWell l) (worlds (trace l w script)) }
    ensures declared { (l : Language) → HasSoundRules l → ReadsWell l → (w : ListWorld) → IsGood l w → AreFromOne w.bones → w.bones.transaction < transaction_limit →
        (piece : Items ℕ) (d : ClassDecl) → l.statement_of piece ≡ Ok (Class d) → (c : Declared) → declared_in l w.bones d ≡ Ok c → IsWell l (transaction lists Script (declares c) w).0 }
{}
