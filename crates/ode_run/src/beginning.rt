//! A context begins.
ghost use Rattle.std.specs.Prelude.{◌≡◌};
ghost use Rattle.ode_heap_laws.specs.Few.{HoldsCounted};
ghost use Rattle.ode_keep.specs.Entries.{Entries};
ghost use Rattle.ode_overlay.specs.declared.origin.Origin.{Origin};
ghost use Rattle.ode_overlay_laws.specs.Standing.{origin_as};
ghost use Rattle.ode_run.specs.Contexts.{ContextRuns, IsBeginning, parts_of, tables_of};
ghost use Rattle.ode_run.specs.declared.context.Ctx.{Ctx};
ghost use Rattle.ode_schema.specs.Parts.{AreFit};
ghost use Rattle.ode_value.specs.Language.{Language, ListWorld};
ghost use Rattle.ode_value.specs.Transactions.{begun};

use ode_host::Host;
use ode_keep::Keep;
use ode_known_laws::transactions_begin_known;
use ode_laws::{acts_run_alike, good_worlds_are_numbered};
use ode_view_laws::transactions_begin_with_views;

/// At its start a context runs as the transaction that begins with the world that its records hold.
pub fn contexts_begin<H: Host, K: Keep<H>>()
    ensures { (l : Language) (entries : Entries) (w : ListWorld) (world : HoldsCounted l entries w) (origin : Origin) (ctx : Ctx K) (host : H) → world.world.stored.tables ≡ tables_of ctx
        → AreFit (parts_of ctx) → IsBeginning H.view K.holds K.live entries world.world.stored.world origin ctx host
        → ContextRuns H.view K.holds K.live l w ctx host (begun (origin_as origin) w) }
{
    transactions_begin_known();
    transactions_begin_with_views();
    good_worlds_are_numbered();
    acts_run_alike();
}
