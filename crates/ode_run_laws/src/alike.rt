//! Over state numbers the clock and class declarations do as over lists of points.
ghost use Rattle.std.specs.Prelude.{ℕ, List as Items, [], ◌∷◌, ◌++◌, map};
ghost use Rattle.std.specs.List.{AllZip};
ghost use Rattle.ode_codec.specs.Standing.{HasTables};
ghost use Rattle.ode_machine.specs.Works.{clock_run, declares, tick};
ghost use Rattle.ode_laws.specs.Alike.{IsAlike, NumberWorld, SettledAs};
ghost use Rattle.ode_value.specs.GoodWorlds.{RiseFrom};
ghost use Rattle.ode_value.specs.Language.{ListWorld};
ghost use Rattle.ode_value.specs.Pasts.{lists, numbers};
ghost use Rattle.ode_value.specs.Settling.{transaction};
ghost use Rattle.ode_value.specs.Tables.{Table};
ghost use Rattle.ode_value.specs.Transactions.{Script};
ghost use Rattle.ode_value.specs.Worlds.{Declared, Position};

/// A tick of the clock, and a whole run of one, settle over state numbers as over lists. So does the declaration of a class whose
/// tables mean their events, and whose number is above the earlier ones.
pub fn clocks_and_classes_settle_alike()
    ensures tick { (tables : ℕ → ℕ → Table) (p : Position) (v : NumberWorld) (w : ListWorld) → IsAlike tables v w → SettledAs tables (tick (numbers tables) p v) (tick lists p w) }
    ensures clock { (tables : ℕ → ℕ → Table) (ps : Items Position) (last : Position) (most : ℕ) (v : NumberWorld) (w : ListWorld) → IsAlike tables v w →
        AllZip (SettledAs tables) (clock_run (numbers tables) ps last most v) (clock_run lists ps last most w) }
    ensures class { (tables : ℕ → ℕ → Table) (v : NumberWorld) (w : ListWorld) → IsAlike tables v w → (c : Declared) → HasTables tables c →
        RiseFrom 0 (map (λ (d : Declared). d.class.number) (w.bones.classes ++ c ∷ [])) →
        SettledAs tables (transaction (numbers tables) Script (declares c) v) (transaction lists Script (declares c) w) }
{}
