//! Statements, calls and points over what a context has.
ghost use Rattle.std.specs.Prelude.{◌≡◌, true};
ghost use Rattle.ode_interpreter.specs.Seen.{Ends, firing};
ghost use Rattle.ode_keep.specs.Entries.{Entries};
ghost use Rattle.ode_known_laws.specs.Knowing.{declared_in};
ghost use Rattle.ode_laws.specs.Alike.{NumberWorld};
ghost use Rattle.ode_run.specs.Contexts.{IsOpen, LeavesOpen, tables_in, tx_over};
ghost use Rattle.ode_run.specs.Serving.{LeavesUsable};
ghost use Rattle.ode_schema.specs.Parts.{trigger_of};
ghost use Rattle.ode_value.specs.Completing.{completes};
ghost use Rattle.ode_value.specs.Executing.{commands, first_actions, outermost};
ghost use Rattle.ode_value.specs.Pasts.{numbers};
ghost use Rattle.ode_value.specs.Posting.{is_touched, posts, runs, touches};
ghost use Rattle.ode_value.specs.Statements.{calls_deeper};

use crate::work::Work;
use ode_heap::Heap;
use ode_host::Host;
use ode_interpreter::{Firing, Stop, call, complete, execute, fire_now, post, touch};
use ode_keep::Keep;
use ode_overlay::Overlay;
use ode_schema::Program;
use ode_states::Fired;
use ode_value::{Kind, List, Name, Ref, Stmt, Value};
use std::alloc::Global;

// A script's own statement.
pub(crate) fn exec_over<'a, H: Host, K: Keep<H>>(
    alloc: Global,
    program: &Program,
    heap: &'a mut Heap<K>,
    overlay: &'a mut Overlay,
    deferred: &'a mut List<(u64, Fired)>,
    text: &'a mut List<u8>,
    budget: &'a mut u32,
    bytes: u64,
    host: &'a mut H,
    s: &Stmt,
) -> Result<(), Stop>
    ensures acts { (entries : Entries) (first : NumberWorld) → program.now.classes ≡ declared_in first → IsOpen (K.holds heap.old (H.view host.old)) (K.live heap.old) overlay.old budget.old bytes entries first
        → Ends result (tx_over first overlay.new deferred.new text.new budget.new) (commands (numbers (tables_in program.now)) s.now (tx_over first overlay.old deferred.old text.old budget.old)) }
    ensures leaves { (entries : Entries) (first : NumberWorld) → program.now.classes ≡ declared_in first → IsOpen (K.holds heap.old (H.view host.old)) (K.live heap.old) overlay.old budget.old bytes entries first
        → LeavesOpen result (IsOpen (K.holds heap.new (H.view host.new)) (K.live heap.new) overlay.new budget.new bytes entries first) (H.view host.old) (H.view host.new) }
    ensures faults { K.live heap.old ≡ true → LeavesUsable result (K.live heap.new) (H.view host.old) (H.view host.new) }
{
    let mut work = Work {
        alloc,
        heap,
        overlay,
        deferred,
        text,
        budget,
        bytes,
        host,
    };
    execute(alloc, program, &mut work, s)
}

// A call of a method, of the version that a reference denotes.
pub(crate) fn call_over<'a, H: Host, K: Keep<H>>(
    alloc: Global,
    program: &Program,
    heap: &'a mut Heap<K>,
    overlay: &'a mut Overlay,
    deferred: &'a mut List<(u64, Fired)>,
    text: &'a mut List<u8>,
    budget: &'a mut u32,
    bytes: u64,
    host: &'a mut H,
    of: Ref,
    method: &Name,
    args: List<Value>,
) -> Result<Value, Stop>
    ensures acts { (entries : Entries) (first : NumberWorld) → program.now.classes ≡ declared_in first → IsOpen (K.holds heap.old (H.view host.old)) (K.live heap.old) overlay.old budget.old bytes entries first
        → Ends result (tx_over first overlay.new deferred.new text.new budget.new) (calls_deeper (numbers (tables_in program.now)) (outermost (numbers (tables_in program.now))) of method.now args (tx_over first overlay.old deferred.old text.old budget.old)) }
    ensures leaves { (entries : Entries) (first : NumberWorld) → program.now.classes ≡ declared_in first → IsOpen (K.holds heap.old (H.view host.old)) (K.live heap.old) overlay.old budget.old bytes entries first
        → LeavesOpen result (IsOpen (K.holds heap.new (H.view host.new)) (K.live heap.new) overlay.new budget.new bytes entries first) (H.view host.old) (H.view host.new) }
    ensures faults { K.live heap.old ≡ true → LeavesUsable result (K.live heap.new) (H.view host.old) (H.view host.new) }
{
    let mut work = Work {
        alloc,
        heap,
        overlay,
        deferred,
        text,
        budget,
        bytes,
        host,
    };
    call(alloc, program, &mut work, of, method, args)
}

// A touch of an object that is there.
pub(crate) fn touch_over<'a, H: Host, K: Keep<H>>(
    alloc: Global,
    program: &Program,
    heap: &'a mut Heap<K>,
    overlay: &'a mut Overlay,
    deferred: &'a mut List<(u64, Fired)>,
    text: &'a mut List<u8>,
    budget: &'a mut u32,
    bytes: u64,
    host: &'a mut H,
    id: u64,
) -> Result<(), Stop>
    ensures acts { (entries : Entries) (first : NumberWorld) → program.now.classes ≡ declared_in first → IsOpen (K.holds heap.old (H.view host.old)) (K.live heap.old) overlay.old budget.old bytes entries first
        → Ends result (tx_over first overlay.new deferred.new text.new budget.new) (touches (numbers (tables_in program.now)) (first_actions (numbers (tables_in program.now))) id (tx_over first overlay.old deferred.old text.old budget.old)) }
    ensures leaves { (entries : Entries) (first : NumberWorld) → program.now.classes ≡ declared_in first → IsOpen (K.holds heap.old (H.view host.old)) (K.live heap.old) overlay.old budget.old bytes entries first
        → LeavesOpen result (IsOpen (K.holds heap.new (H.view host.new)) (K.live heap.new) overlay.new budget.new bytes entries first) (H.view host.old) (H.view host.new) }
    ensures faults { K.live heap.old ≡ true → LeavesUsable result (K.live heap.new) (H.view host.old) (H.view host.new) }
{
    let mut work = Work {
        alloc,
        heap,
        overlay,
        deferred,
        text,
        budget,
        bytes,
        host,
    };
    touch(alloc, program, &mut work, id)
}

// A point of a touched object, where its kind is listed.
pub(crate) fn post_over<'a, H: Host, K: Keep<H>>(
    alloc: Global,
    program: &Program,
    heap: &'a mut Heap<K>,
    overlay: &'a mut Overlay,
    deferred: &'a mut List<(u64, Fired)>,
    text: &'a mut List<u8>,
    budget: &'a mut u32,
    bytes: u64,
    host: &'a mut H,
    id: u64,
    kind: &Kind,
    args: &[Value],
) -> Result<(), Stop>
    ensures acts { (entries : Entries) (first : NumberWorld) → program.now.classes ≡ declared_in first → IsOpen (K.holds heap.old (H.view host.old)) (K.live heap.old) overlay.old budget.old bytes entries first
        → is_touched id (tx_over first overlay.old deferred.old text.old budget.old) ≡ true → Ends result (tx_over first overlay.new deferred.new text.new budget.new) (posts (numbers (tables_in program.now)) (first_actions (numbers (tables_in program.now))) id kind.now args.now (tx_over first overlay.old deferred.old text.old budget.old)) }
    ensures leaves { (entries : Entries) (first : NumberWorld) → program.now.classes ≡ declared_in first → IsOpen (K.holds heap.old (H.view host.old)) (K.live heap.old) overlay.old budget.old bytes entries first
        → LeavesOpen result (IsOpen (K.holds heap.new (H.view host.new)) (K.live heap.new) overlay.new budget.new bytes entries first) (H.view host.old) (H.view host.new) }
    ensures faults { K.live heap.old ≡ true → LeavesUsable result (K.live heap.new) (H.view host.old) (H.view host.new) }
{
    let mut work = Work {
        alloc,
        heap,
        overlay,
        deferred,
        text,
        budget,
        bytes,
        host,
    };
    post(alloc, program, &mut work, id, kind, args)
}

// A firing whose action runs now.
pub(crate) fn fire_now_over<'a, H: Host, K: Keep<H>>(
    alloc: Global,
    program: &Program,
    heap: &'a mut Heap<K>,
    overlay: &'a mut Overlay,
    deferred: &'a mut List<(u64, Fired)>,
    text: &'a mut List<u8>,
    budget: &'a mut u32,
    bytes: u64,
    host: &'a mut H,
    f: &Firing,
) -> Result<(), Stop>
    ensures acts { (entries : Entries) (first : NumberWorld) → program.now.classes ≡ declared_in first → IsOpen (K.holds heap.old (H.view host.old)) (K.live heap.old) overlay.old budget.old bytes entries first
        → Ends result (tx_over first overlay.new deferred.new text.new budget.new) (runs (first_actions (numbers (tables_in program.now))) (firing (trigger_of program.now.classes) f.now) (tx_over first overlay.old deferred.old text.old budget.old)) }
    ensures leaves { (entries : Entries) (first : NumberWorld) → program.now.classes ≡ declared_in first → IsOpen (K.holds heap.old (H.view host.old)) (K.live heap.old) overlay.old budget.old bytes entries first
        → LeavesOpen result (IsOpen (K.holds heap.new (H.view host.new)) (K.live heap.new) overlay.new budget.new bytes entries first) (H.view host.old) (H.view host.new) }
    ensures faults { K.live heap.old ≡ true → LeavesUsable result (K.live heap.new) (H.view host.old) (H.view host.new) }
{
    let mut work = Work {
        alloc,
        heap,
        overlay,
        deferred,
        text,
        budget,
        bytes,
        host,
    };
    fire_now(alloc, program, &mut work, f)
}

// The whole completion.
pub(crate) fn complete_over<'a, H: Host, K: Keep<H>>(
    alloc: Global,
    program: &Program,
    heap: &'a mut Heap<K>,
    overlay: &'a mut Overlay,
    deferred: &'a mut List<(u64, Fired)>,
    text: &'a mut List<u8>,
    budget: &'a mut u32,
    bytes: u64,
    host: &'a mut H,
) -> Result<(), Stop>
    ensures acts { (entries : Entries) (first : NumberWorld) → program.now.classes ≡ declared_in first → IsOpen (K.holds heap.old (H.view host.old)) (K.live heap.old) overlay.old budget.old bytes entries first
        → Ends result (tx_over first overlay.new deferred.new text.new budget.new) (completes (numbers (tables_in program.now)) (tx_over first overlay.old deferred.old text.old budget.old)) }
    ensures leaves { (entries : Entries) (first : NumberWorld) → program.now.classes ≡ declared_in first → IsOpen (K.holds heap.old (H.view host.old)) (K.live heap.old) overlay.old budget.old bytes entries first
        → LeavesOpen result (IsOpen (K.holds heap.new (H.view host.new)) (K.live heap.new) overlay.new budget.new bytes entries first) (H.view host.old) (H.view host.new) }
    ensures faults { K.live heap.old ≡ true → LeavesUsable result (K.live heap.new) (H.view host.old) (H.view host.new) }
{
    let mut work = Work {
        alloc,
        heap,
        overlay,
        deferred,
        text,
        budget,
        bytes,
        host,
    };
    complete(alloc, program, &mut work)
}
