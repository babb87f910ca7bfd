//! A database in memory.
ghost use Rattle.std.specs.Prelude.{◌≡◌, ◌+◌, ◌<◌, ◌≤◌, ◌^◌, IfOk, IsTrue, length};
ghost use Rattle.std.specs.List.{All};
ghost use Rattle.std.specs.Map.{values_of};
ghost use Rattle.std.specs.Option.{IfSome};
ghost use Rattle.ode_codec.specs.Rules.{IsClock, IsKeptCounters};
ghost use Rattle.ode_overlay.specs.Layers.{IsGeneration};
ghost use Rattle.ode_overlay_tests.specs.Watched.{trigger_of, watched};

use crate::acts::Scene;
use ode_areas::Areas;
use ode_codec::Counters;
use ode_gate::read_header;
use ode_heap::Heap;
use ode_host::{Host, MemHost, Plan};
use ode_keep::{Batch, MAX_CHANGES, MAX_VALUE};
use ode_overlay::{Origin, Overlay};
use ode_types::Classes;
use ode_value::limits::{GENERATION_LIMIT, NUMBER_LIMIT, TRANSACTION_LIMIT};
use ode_value::{Class, EventExpr, Field, Kind, List, Mode, Name, OdeText, Sort, TriggerDecl};
use std::alloc::{AllocError, Global};
use std::test::Fail;

// A new file: one slot is open, and behind the counters' record stands a gate that is shut.
const SLOT: &[u8; 57] = b"\xA5ODEBASE1\0\0\0\x01\0\0\0\x01\0\0\0\0\0\0\0\x01\
    \0\0\0\0\0\0\x10\0\0\0\0\0\0\0\0\x40\
    \0\0\0\0\0\0\x10\x40\0\0\0\0\x02\0\x10\0";

// The counters' record: a key, the length of its value, and the value.
const COUNTERS: &[u8; 64] = b"\x01\0\0\0\0\0\0\0\0\0\0\0\0\0\0\0\0\0\x2D\
    \0\0\0\0\0\0\0\x01\0\0\0\0\0\0\0\x01\0\0\0\0\0\0\0\x01\
    \0\0\0\0\0\0\0\0\0\0\0\0\0\0\0\0\0\0\0\0\0";

fn patch(image: &mut [u8], at: usize, bytes: &[u8]) {
    for (i, byte) in bytes.iter().enumerate() {
        if let Some(place) = image.get_mut(at.saturating_add(i)) {
            *place = *byte;
        }
    }
}

// A new database on a disk on which no call fails.
fn new_disk(alloc: Global) -> Result<MemHost, AllocError> {
    let mut image = vec![in alloc; 0; 4161]?;
    patch(&mut image, 0, SLOT);
    patch(&mut image, 4096, COUNTERS);
    let plan = Plan {
        disk_fails: Vec::new(alloc),
        print_fails: Vec::new(alloc),
        stop: None,
    };
    MemHost::new(alloc, image, plan)
}

// The heap over what stands on a disk.
fn start(alloc: Global, host: &mut MemHost) -> Result<Heap<Areas>, Fail> {
    if host.sync().is_err() {
        return Err(Fail::from("a sync"));
    }
    let Ok(header) = read_header(host, &mut [0; 57]) else {
        return Err(Fail::from("a header"));
    };
    if header.layout != 1 {
        return Err(Fail::from("a layout"));
    }
    match Areas::start(alloc, host, &header) {
        Ok(keeper) => Ok(Heap::new(keeper)),
        Err(_) => Err(Fail::from("a keeper")),
    }
}

fn name(alloc: Global, bytes: &[u8]) -> Result<Name, AllocError>
    ensures { IfOk result (λ name. name ≡ bytes.now) }
{
    let text = match OdeText::new(alloc, bytes) {
        Ok(text) => text,
        Err(_) => return Err(AllocError),
    };
    match Name::new(text) {
        Some(name) => Ok(name),
        None => Err(AllocError),
    }
}

fn trigger(alloc: Global, called: &[u8], whole: bool) -> Result<TriggerDecl, AllocError>
    ensures { IfOk result (λ trigger. trigger ≡ trigger_of called.now whole) }
{
    let name = name(alloc, called)?;
    Ok(TriggerDecl {
        name,
        initial: false,
        perpetual: true,
        whole,
        mode: Mode::Immediate,
        params: List::new(alloc),
        event: EventExpr::Any,
        action: List::new(alloc),
    })
}

fn fields(alloc: Global) -> Result<List<Field>, AllocError>
    ensures { IfOk result (λ fields. fields ≡ watched.fields) }
{
    let name = name(alloc, b"n")?;
    let mut fields = List::new(alloc);
    fields.push(Field {
        name,
        sort: Sort::Int,
        birth: 0,
        literal: None,
    })?;
    Ok(fields)
}

fn triggers(alloc: Global) -> Result<List<TriggerDecl>, AllocError>
    ensures { IfOk result (λ triggers. triggers ≡ watched.triggers) }
{
    let first = trigger(alloc, b"w", true)?;
    let mut triggers = List::new(alloc);
    triggers.push(first)?;
    triggers.push(trigger(alloc, b"m", false)?)?;
    Ok(triggers)
}

fn watched(alloc: Global) -> Result<Class, AllocError>
    ensures { IfOk result (λ class. class ≡ watched) }
{
    let name = name(alloc, b"P")?;
    let fields = fields(alloc)?;
    let triggers = triggers(alloc)?;
    Ok(Class {
        number: 1,
        name,
        parent: None,
        fields,
        methods: List::new(alloc),
        constraints: List::new(alloc),
        kinds: List::new(alloc),
        triggers,
    })
}

// A class of one int field with two triggers, the first on whole histories.
fn classes(alloc: Global) -> Result<Classes, AllocError> {
    let class = watched(alloc)?;
    let mut classes = Classes::new(alloc);
    classes.add(class)?;
    Ok(classes)
}

/// Makes the changes of a settling.
pub fn stage(heap: &mut Heap<Areas>, host: &mut MemHost, batch: &Batch) -> Result<(), Fail>
    requires few { length batch.now ≤ MAX_CHANGES }
    requires short { All (λ value. IfSome value (λ bytes. length bytes ≤ MAX_VALUE)) (values_of batch.now) }
{
    if !heap.live::<MemHost>() {
        return Err(Fail::from("a heap"));
    }
    match heap.stage(host, batch) {
        Ok(()) => Ok(()),
        Err(_) => Err(Fail::from("a batch")),
    }
}

// Zeros where the clock isn't set.
fn clocked(counters: Counters) -> Counters
    ensures clock { IsClock result.clock_set result.instant result.object result.place }
    ensures number { result.next_number ≡ counters.next_number }
    ensures transaction { result.next_transaction ≡ counters.next_transaction }
    ensures entry { result.next_entry ≡ counters.next_entry }
{
    if counters.clock_set {
        counters
    } else {
        Counters {
            clock_set: false,
            instant: 0,
            object: 0,
            place: 0,
            ..counters
        }
    }
}

// Counters that a transaction may begin with.
fn kept(counters: Counters) -> Option<Counters>
    ensures kept { IfSome result IsKeptCounters }
    ensures transaction { IfSome result (λ c. c.next_transaction < 2 ^ 62 + 65536) }
{
    if counters.next_number == 0
        || counters.next_number > NUMBER_LIMIT
        || counters.next_transaction == 0
        || counters.next_transaction >= TRANSACTION_LIMIT
        || counters.next_entry == 0
        || counters.next_entry > NUMBER_LIMIT
    {
        return None;
    }
    Some(clocked(counters))
}

#[tactic(auto, unfolding(ode_value::specs::Limits::generation_limit))]
fn is_generation(origin: Origin) -> bool
    ensures { IsTrue result → IsGeneration origin }
{
    match origin {
        Origin::Entry { generation, .. } => 0 < generation && generation <= GENERATION_LIMIT,
        _ => true,
    }
}

// A transaction over what the heap has.
#[tactic(auto, unfolding(ode_value::specs::Limits::queue_limit))]
fn begun(
    alloc: Global,
    heap: &mut Heap<Areas>,
    host: &mut MemHost,
    origin: Origin,
) -> Result<Overlay, Fail> {
    if !heap.live::<MemHost>() || !is_generation(origin) {
        return Err(Fail::from("a heap"));
    }
    let Ok(counters) = heap.counters(alloc, host) else {
        return Err(Fail::from("counters"));
    };
    match kept(counters) {
        Some(counters) => Ok(Overlay::begin(alloc, counters, 0, origin)),
        None => Err(Fail::from("counters")),
    }
}

fn opened(alloc: Global) -> Result<(Heap<Areas>, MemHost), Fail> {
    let mut host = new_disk(alloc)?;
    let heap = start(alloc, &mut host)?;
    Ok((heap, host))
}

/// A new database and a transaction over it.
pub fn scene(alloc: Global) -> Result<Scene, Fail> {
    let classes = classes(alloc)?;
    let (mut heap, mut host) = opened(alloc)?;
    let overlay = begun(alloc, &mut heap, &mut host, Origin::Script)?;
    Ok(Scene {
        classes,
        heap,
        host,
        overlay,
        alloc,
    })
}

/// Another transaction begins.
pub fn begin(scene: &mut Scene, origin: Origin) -> Result<(), Fail> {
    scene.overlay = begun(scene.alloc, &mut scene.heap, &mut scene.host, origin)?;
    Ok(())
}
