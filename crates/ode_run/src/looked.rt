//! A context that looked.
ghost use Rattle.std.specs.Prelude.{ℕ, List};
ghost use Rattle.ode_overlay.specs.Layers.{looking as looking_over};
ghost use Rattle.ode_run.specs.Contexts.{ContextRuns};
ghost use Rattle.ode_run.specs.declared.context.Ctx.{Ctx};
ghost use Rattle.ode_value.specs.Language.{Language, ListTx, ListWorld};
ghost use Rattle.ode_value.specs.Transactions.{looking};

use ode_host::Host;
use ode_keep::Keep;

/// A context whose overlay looked at more objects runs as the transaction that looked at them.
pub fn contexts_look<H: Host, K: Keep<H>>()
    ensures { (l : Language) (w : ListWorld) (ctx : Ctx K) (host : H) (x : ListTx) (ids : List ℕ) → ContextRuns H.view K.holds K.live l w ctx host x
        → ContextRuns H.view K.holds K.live l w (record ctx { overlay = looking_over ids ctx.overlay }) host (looking ids x) }
{}
