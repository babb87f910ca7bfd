//! The view of an overlay.
ghost use Rattle.std.specs.Prelude.{◌≡◌, List as Items};
ghost use Rattle.ode_laws.specs.Alike.{NumberTx, NumberWorld};
ghost use Rattle.ode_overlay.specs.Layers.{Layer};
ghost use Rattle.ode_overlay.specs.declared.origin.Origin.{Origin};
ghost use Rattle.ode_overlay_laws.specs.Following.{Continues};
ghost use Rattle.ode_overlay_laws.specs.Standing.{Stands, origin_as};
ghost use Rattle.ode_value.specs.Transactions.{begun};
ghost use Rattle.ode_value.specs.Worlds.{Declared};
ghost use Rattle.ode_view_laws.specs.Ordering.{IsOrdered};
ghost use Rattle.ode_view_laws.specs.Showing.{IsViewed};
ghost use Rattle.ode_view_laws.specs.Viewing.{Beside, IsOver, began_over, nothing_beside, running};

/// An overlay stands for its view, whatever the classes are and whatever the transaction has beside it. What continues the view, and keeps its
/// parts in the order of their numbers, is the view of the overlay that stands for it.
pub fn overlays_have_views()
    ensures stands { (classes : Items Declared) (first : NumberWorld) (x : Layer) (beside : Beside) → IsOver first x → Stands x (running classes first x beside) }
    ensures only { (classes : Items Declared) (first : NumberWorld) (x : Layer) (beside : Beside) → IsOrdered first → (now : Layer) (z : NumberTx) → Stands now z → IsOrdered z.now
        → Continues (running classes first x beside) z → z ≡ running classes first now beside }
{}

/// At its start a transaction is the view of its overlay.
#[tactic(auto, using(crate::proofs::BegunLaws::begun_viewed, crate::proofs::BegunLaws::begun_view))]
pub fn transactions_begin_with_views()
    ensures viewed { (origin : Origin) (w : NumberWorld) → IsOrdered w → IsViewed w (began_over origin w) }
    ensures view { (origin : Origin) (w : NumberWorld) → running w.bones.classes w (began_over origin w) nothing_beside ≡ begun (origin_as origin) w }
{}
