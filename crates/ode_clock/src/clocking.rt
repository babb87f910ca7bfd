//! The clock comes to an instant: the ticks that are due, and then the move behind everything of it.
ghost use Rattle.std.specs.Prelude.{◌≡◌, ◌<◌, ◌≤◌, ◌+◌, ◌-◌, ◌^◌, ◌++◌, ℤ, ℕ, List as Items, Err, IfErr, IfOk, IsErrOf, IsTrue, Ok, OnOk, Some, length, true};
ghost use Rattle.std.specs.List.{AllByRecursion};
ghost use Rattle.ode_clock.specs.Clocking.{Clocks, clock_settled, settled_with};
ghost use Rattle.ode_good_laws.specs.Well.{IsWell};
ghost use Rattle.ode_host.specs.Host.{HostCalls, LeavesOnly, Looks, Printed};
ghost use Rattle.ode_keep.specs.Entries.{Entries};
ghost use Rattle.ode_language.specs.Languages.{ode};
ghost use Rattle.ode_machine.specs.Moments.{IsAfterSome};
ghost use Rattle.ode_machine.specs.Refusals.{ticks_in};
ghost use Rattle.ode_machine.specs.Runs.{Item};
ghost use Rattle.ode_schema.specs.Parts.{AreFit};
ghost use Rattle.ode_transact.specs.Errors.{OnDamaged};
ghost use Rattle.ode_transact.specs.Items.{items_of, texts_of};
ghost use Rattle.ode_transact.specs.Logging.{DiskHas, HasGrown, Logs};
ghost use Rattle.ode_transact.specs.Output.{all_heard, counting};
ghost use Rattle.ode_transact.specs.Resting.{HoldsBy, IsAtRest, resting_parts};
ghost use Rattle.ode_value.specs.Draining.{world_after};
ghost use Rattle.ode_value.specs.GoodWorlds.{IsPosition};
ghost use Rattle.ode_value.specs.Language.{ListWorld};
ghost use Rattle.ode_value.specs.Limits.{due_limit, number_limit};
ghost use Rattle.ode_value.specs.Worlds.{Position};

use crate::ticking::tick;
use crate::ticks::ticks;
use ode_good_laws::transactions_leave_good_worlds;
use ode_host::Host;
use ode_keep::Roomy;
use ode_opened::Opened;
use ode_overlay::Origin;
use ode_timer::Clock;
use ode_transact::{EngineError, Log, Output, Work, transact_and_drain};
use ode_value::limits::DRAIN_LIMIT;
use ode_value::{OdeText, Refusal};
use std::alloc::Global;

// How many entries may still run behind a tick.
fn left_behind(left: u32, ran: Option<u32>) -> u32
    ensures { result ≡ left - (settled_with ran - 1) }
{
    match ran {
        Some(ran) => left.saturating_sub(ran),
        None => left,
    }
}

// How many transactions settled, with those of a tick.
fn settled_behind(settled: u32, ran: Option<u32>) -> u32
    ensures { settled + settled_with ran < 2 ^ 32 → result ≡ settled + settled_with ran }
{
    match ran {
        Some(ran) => settled.saturating_add(ran).saturating_add(1),
        None => settled,
    }
}

// The clock goes through these positions, and then behind everything of an instant. How many transactions settled.
fn run_clock<H: Host, K: Roomy<H> + Drop>(
    alloc: Global,
    rest: Opened<K>,
    host: &mut H,
    output: &mut Output,
    log: &mut Log,
    due: &[Clock],
    to: i64,
) -> Result<(Opened<K>, u32), EngineError>
    requires live { IsTrue (K.live rest.keeper) }
    requires fit { AreFit (resting_parts rest) }
    ensures done { (w : ListWorld) → IsWell ode w → AllByRecursion IsPosition due.now → length due.now ≤ due_limit → w.bones.transaction < number_limit → IsAtRest H.view K.holds K.live ode w rest host.old
        → let settled = clock_settled w (to, due.now) in
        IfOk result (λ r. IsAtRest H.view K.holds K.live ode (world_after w settled) r.0 host.new × (r.1 ≡ length settled))
        × OnOk result (Printed (texts_of (all_heard output.old.quiet settled)) (H.view host.old) (H.view host.new)) }
    ensures counts { (w : ListWorld) → IsWell ode w → AllByRecursion IsPosition due.now → length due.now ≤ due_limit → w.bones.transaction < number_limit → IsAtRest H.view K.holds K.live ode w rest host.old
        → OnOk result (output.new ≡ counting output.old (texts_of (clock_settled w (to, due.now)))) }
    // What was settled is kept in the log, where there is one.
    ensures logs { (w : ListWorld) (entries : Entries) → IsWell ode w → AllByRecursion IsPosition due.now → length due.now ≤ due_limit → w.bones.transaction < number_limit → IsAtRest H.view K.holds K.live ode w rest host.old
        → DiskHas K.means entries (H.view host.old) → OnOk result (Logs K.means ode w entries (clock_settled w (to, due.now)) log.old log.new (H.view host.new)) }
    ensures grown { HasGrown log.old log.new }
    ensures any_moment { (w : ListWorld) (said : Items ℕ) (more : Items Item) → IsWell ode w → AllByRecursion IsPosition due.now → length due.now ≤ due_limit → w.bones.transaction < number_limit
        → IsAtRest H.view K.holds K.live ode w rest host.old → (H.view host.old).text ≡ Some said
        → LeavesOnly (H.view host.old) (H.view host.new) (IsAfterSome (HoldsBy ode K.means) (items_of (all_heard output.old.quiet (clock_settled w (to, due.now))) ++ more) w said) }
    ensures parts { IfOk result (λ r. resting_parts r.0 ≡ resting_parts rest) }
    ensures usable { IfOk result (λ r. K.live r.0.keeper ≡ true) }
    ensures leaves { HostCalls (IsErrOf result EngineError.DiskFault) (IsErrOf result EngineError.WriteFault) (H.view host.old) (H.view host.new) }
    ensures undamaged { OnDamaged result ((w : ListWorld) → IsWell ode w → AllByRecursion IsPosition due.now → length due.now ≤ due_limit → w.bones.transaction < number_limit
        → IsAtRest H.view K.holds K.live ode w rest host.old → ⊥) }
{
    transactions_leave_good_worlds();
    let mut rest = rest;
    let mut left = DRAIN_LIMIT;
    let mut settled = 0u32;
    'ticks: for at in due {
        let (back, ran) = tick(alloc, rest, host, output, log, at, left)?;
        rest = back;
        left = left_behind(left, ran);
        settled = settled_behind(settled, ran);
    }
    let origin = Origin::Move { instant: to };
    let (rest, ran) = transact_and_drain(alloc, rest, host, output, log, origin, Work::Move, left)?;
    Ok((rest, settled.saturating_add(ran).saturating_add(1)))
}

/// The clock comes to an instant, or why it doesn't. How many transactions settled.
pub fn set_clock<H: Host, K: Roomy<H> + Drop>(
    alloc: Global,
    rest: Opened<K>,
    host: &mut H,
    output: &mut Output,
    log: &mut Log,
    text: &OdeText,
) -> Result<(Opened<K>, Result<u32, Refusal>), EngineError>
    requires live { IsTrue (K.live rest.keeper) }
    requires fit { AreFit (resting_parts rest) }
    // It is refused exactly where the machine refuses it; else the file holds what the machine's ticks and move leave.
    ensures done { (w : ListWorld) → IsWell ode w → w.bones.transaction < number_limit → IsAtRest H.view K.holds K.live ode w rest host.old
        → IfOk result (λ r. Clocks (ticks_in ode w.bones text.now) r.1 (IsAtRest H.view K.holds K.live ode w r.0 host.new)
        (λ t count. (count ≡ length (clock_settled w t)) × IsAtRest H.view K.holds K.live ode (world_after w (clock_settled w t)) r.0 host.new
        × Printed (texts_of (all_heard output.old.quiet (clock_settled w t))) (H.view host.old) (H.view host.new))) }
    ensures counts { (w : ListWorld) → IsWell ode w → w.bones.transaction < number_limit → IsAtRest H.view K.holds K.live ode w rest host.old
        → IfOk result (λ r. Clocks (ticks_in ode w.bones text.now) r.1 (output.new ≡ output.old) (λ t count. output.new ≡ counting output.old (texts_of (clock_settled w t)))) }
    // What was settled is kept in the log, where there is one.
    ensures logs { (w : ListWorld) (entries : Entries) → IsWell ode w → w.bones.transaction < number_limit → IsAtRest H.view K.holds K.live ode w rest host.old → DiskHas K.means entries (H.view host.old)
        → IfOk result (λ r. Clocks (ticks_in ode w.bones text.now) r.1 (log.new ≡ log.old) (λ t count. Logs K.means ode w entries (clock_settled w t) log.old log.new (H.view host.new))) }
    ensures grown { HasGrown log.old log.new }
    // Where it is refused the host only looked, and where the machine refuses it too, even at an error.
    ensures refused { IfOk result (λ r. IfErr r.1 (λ why. Looks (H.view host.old) (H.view host.new))) }
    ensures declined { (w : ListWorld) (why : Refusal) → IsAtRest H.view K.holds K.live ode w rest host.old → ticks_in ode w.bones text.now ≡ Err why → Looks (H.view host.old) (H.view host.new) }
    // A stop leaves the world that some of the settled transactions left, and a front of the text up to the next one; whatever comes behind.
    ensures any_moment { (w : ListWorld) (t : ℤ × Items Position) (said : Items ℕ) (more : Items Item) → IsWell ode w → w.bones.transaction < number_limit → IsAtRest H.view K.holds K.live ode w rest host.old
        → ticks_in ode w.bones text.now ≡ Ok t → (H.view host.old).text ≡ Some said
        → LeavesOnly (H.view host.old) (H.view host.new) (IsAfterSome (HoldsBy ode K.means) (items_of (all_heard output.old.quiet (clock_settled w t)) ++ more) w said) }
    ensures parts { IfOk result (λ r. resting_parts r.0 ≡ resting_parts rest) }
    ensures usable { IfOk result (λ r. K.live r.0.keeper ≡ true) }
    ensures leaves { HostCalls (IsErrOf result EngineError.DiskFault) (IsErrOf result EngineError.WriteFault) (H.view host.old) (H.view host.new) }
    // Over a good world with a number left no record is damaged.
    ensures undamaged { OnDamaged result ((w : ListWorld) → IsWell ode w → w.bones.transaction < number_limit → IsAtRest H.view K.holds K.live ode w rest host.old → ⊥) }
{
    let (rest, found) = ticks(alloc, rest, host, text)?;
    match found {
        Ok((to, due)) => {
            let (rest, settled) = run_clock(alloc, rest, host, output, log, due.as_slice(), to)?;
            Ok((rest, Ok(settled)))
        }
        Err(why) => Ok((rest, Err(why))),
    }
}
