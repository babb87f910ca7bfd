//! Laws of runs, each carried by the contract of a function that does nothing.
ghost use Rattle.std.specs.Prelude.{◌≡◌, ◌++◌, ℕ, List as Items, map};
ghost use Rattle.std.specs.List.{AllByRecursion};
ghost use Rattle.ode_machine.specs.Sessions.{Session};
ghost use Rattle.ode_script.specs.Cutting.{Pieces};
ghost use Rattle.ode_machine.specs.Runs.{Item, final, followed_by, pieces_items, text_of, text_until, trace, worlds};
ghost use Rattle.ode_machine.specs.Stability.{IsStable};
ghost use Rattle.ode_value.specs.GoodWorlds.{IsGood};
ghost use Rattle.ode_value.specs.Language.{Language, ListWorld};
ghost use Rattle.ode_value.specs.Worlds.{Bones};
ghost use Rattle.ode_run_laws.specs.Joining.{BeginsWith, before_pieces, pieces_stretch};
ghost use Rattle.ode_run_laws.specs.Orders.{IsOrdered};

/// The items of pieces are those of the first ones followed by those of the rest, from the session reached; texts, worlds and last
/// worlds of items join too.
pub fn runs_join()
    ensures pieces { (l : Language) (first : Items (ℕ × Items ℕ)) (rest : Pieces) (session : Session) →
        pieces_items l (before_pieces first rest) session ≡ followed_by l (pieces_stretch l first session) (pieces_items l rest) }
    ensures texts { (items more : Items Item) → text_of (items ++ more) ≡ text_of items ++ text_of more }
    ensures worlds { (items more : Items Item) → worlds (items ++ more) ≡ worlds items ++ worlds more }
    ensures last { (w : ListWorld) (items more : Items Item) → final w (items ++ more) ≡ final (final w items) more }
{}

/// The whole text of items begins with all that is printed before each settled transaction.
pub fn texts_begin_with_earlier_ones()
    ensures { (k : ℕ) (items : Items Item) → BeginsWith (text_of items) (text_until k items) }
{}

/// References are stable over the worlds of a run from a world whose numbers rise, as a good world's do: no number falls, none is
/// given twice, and what a reference denotes stays until a transaction removes it.
pub fn references_are_stable()
    ensures stable { (l : Language) (w : ListWorld) (script : Items ℕ) → IsOrdered w.bones → IsStable w.bones (map (λ (v : ListWorld). v.bones) (worlds (trace l w script))) }
    ensures ordered { (l : Language) (w : ListWorld) (script : Items ℕ) → IsOrdered w.bones → AllByRecursion IsOrdered (map (λ (v : ListWorld). v.bones) (worlds (trace l w script))) }
    ensures good { (l : Language) (w : ListWorld) → IsGood l w → IsOrdered w.bones }
{}
