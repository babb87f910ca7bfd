//! What transactions leave.
ghost use Rattle.std.specs.Prelude.{◌+◌, ◌<◌, ℕ, List as Items, length};
ghost use Rattle.std.specs.List.{AllByRecursion};
ghost use Rattle.ode_value.specs.declared.statement.Stmt.{Stmt};
ghost use Rattle.ode_value.specs.declared.value.Ref.{Ref};
ghost use Rattle.ode_machine.specs.Works.{clock_run, tick};
ghost use Rattle.ode_value.specs.Acts.{nothing};
ghost use Rattle.ode_value.specs.Draining.{drain, entry_settled};
ghost use Rattle.ode_value.specs.Executing.{commands};
ghost use Rattle.ode_value.specs.Language.{Language, ListWorld};
ghost use Rattle.ode_value.specs.Limits.{number_limit, transaction_limit};
ghost use Rattle.ode_value.specs.Pasts.{lists};
ghost use Rattle.ode_value.specs.GoodWorlds.{IsPosition};
ghost use Rattle.ode_value.specs.Objects.{Histories, Starts};
ghost use Rattle.ode_value.specs.Settling.{Settled, transaction};
ghost use Rattle.ode_value.specs.Transactions.{Clock, Script};
ghost use Rattle.ode_value.specs.Worlds.{Entry, Position};
ghost use Rattle.ode_sound_laws.specs.Fits.{FitsEntry, FitsLiteral};
ghost use Rattle.ode_types.specs.Kept.{IsTypedStatement};
ghost use Rattle.ode_sound_laws.specs.Sound.{checked_classes};
ghost use Rattle.ode_good_laws.specs.Well.{IsWell};

/// From a good world of sound classes, whose versions' numbers begin at 1 and which has a number for a transaction, that of a typed
/// statement whose literals have objects of their classes leaves such a world again, by commit or by abort. So does that of an entry
/// that fits, a tick of the clock, and the move that ends a clock command; and each transaction of a drain, which tests the number itself.
/// So does each of a whole run of the clock, over positions in their range, where as many numbers as ticks are left beyond the drains'.
pub fn transactions_leave_good_worlds()
    ensures statement { (l : Language) (w : ListWorld) → IsWell l w → w.bones.transaction < transaction_limit →
        (literals : Items (Ref × ℕ)) → AllByRecursion (FitsLiteral w.bones) literals → (s : Stmt) → IsTypedStatement (checked_classes w.bones.classes) literals s →
        IsWell l (transaction lists Script (commands lists s) w).0 }
    ensures entry { (l : Language) (w : ListWorld) → IsWell l w → w.bones.transaction < transaction_limit → (q : ℕ × Entry) → FitsEntry w.bones q.1 → IsWell l (entry_settled lists w q).0 }
    ensures tick { (l : Language) (w : ListWorld) → IsWell l w → w.bones.transaction < transaction_limit → (p : Position) → IsPosition p → IsWell l (tick lists p w).0 }
    ensures moved { (l : Language) (w : ListWorld) → IsWell l w → w.bones.transaction < transaction_limit → (p : Position) → IsPosition p → IsWell l (transaction lists (Clock p) nothing w).0 }
    ensures drain { (l : Language) (most : ℕ) (w : ListWorld) → IsWell l w → AllByRecursion (λ (s : Settled Histories Starts). IsWell l s.0) (drain lists most w) }
    ensures clock { (l : Language) (ps : Items Position) (last : Position) (most : ℕ) (w : ListWorld) → IsWell l w → AllByRecursion IsPosition ps → IsPosition last → number_limit + length ps < transaction_limit →
        w.bones.transaction + length ps < transaction_limit → AllByRecursion (λ (s : Settled Histories Starts). IsWell l s.0) (clock_run lists ps last most w) }
{}
