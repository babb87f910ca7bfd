//! All objects of a database, their versions and activations, the queue, and the references in all these.
ghost use Rattle.std.specs.Prelude.{◌≡◌, [], Ok, IsErrOf, IsTrue};
ghost use Rattle.ode_host.specs.Causes.{RoseIf};
ghost use Rattle.ode_host.specs.Host.{Looks};
ghost use Rattle.ode_keep.specs.Entries.{Entries};
ghost use Rattle.ode_passes.specs.Answers.{Answers, UnlessFault, is_usable};
ghost use Rattle.ode_passes.specs.Walking.{within};
ghost use Rattle.ode_value.specs.Keys.{activation_kind, entry_kind, version_kind};
ghost use Rattle.ode_opening_objects.specs.Numbers.{numbers_from, owners_from};
ghost use Rattle.ode_opening_objects.specs.Objects.{objects_keep};
ghost use Rattle.ode_opening_objects.specs.Scenes.{objects_kept, passed, scene_kept, waited};
ghost use Rattle.ode_opening_objects.specs.Triggers.{is_reached_in};

use crate::numbers::{Heads, Numbers, Owners};
use crate::scene::{Check, Course, Queue, Roll, Rule, Scene};
use crate::states::States;
use ode_codec::Counters;
use ode_host::Host;
use ode_keep::Keep;
use ode_passes::{OpenError, walk};
use ode_table::Table;
use ode_types::Classes;
use ode_value::limits::QUEUE_LIMIT;
use ode_value::{Key, List};
use std::alloc::Global;

// Which numbers activations have.
fn read_numbers<H: Host, K: Keep<H>>(
    alloc: Global,
    keeper: &mut K,
    host: &mut H,
) -> Result<Numbers, OpenError>
    requires live { IsTrue (K.live keeper.old) }
    ensures meant { (entries : Entries) → K.holds keeper.old (H.view host.old) entries
        → Answers (Ok (numbers_from [] (within activation_kind activation_kind entries))) result }
    ensures holds { UnlessFault result ((entries : Entries) → K.holds keeper.old (H.view host.old) entries
        → K.holds keeper.new (H.view host.new) entries) }
    ensures looks { Looks (H.view host.old) (H.view host.new) }
    ensures usable { K.live keeper.new ≡ is_usable result }
    ensures cause { RoseIf (IsErrOf result OpenError.DiskFault) (H.view host.old).disk_faults (H.view host.new).disk_faults }
{
    let mut numbers = Numbers::new(alloc);
    walk(
        alloc,
        keeper,
        host,
        Key::ACTIVATION,
        Key::ACTIVATION,
        &mut numbers,
    )?;
    Ok(numbers)
}

// Which objects have versions.
fn read_owners<H: Host, K: Keep<H>>(
    alloc: Global,
    keeper: &mut K,
    host: &mut H,
) -> Result<Owners, OpenError>
    requires live { IsTrue (K.live keeper.old) }
    ensures meant { (entries : Entries) → K.holds keeper.old (H.view host.old) entries
        → Answers (Ok (owners_from [] (within version_kind version_kind entries))) result }
    ensures holds { UnlessFault result ((entries : Entries) → K.holds keeper.old (H.view host.old) entries
        → K.holds keeper.new (H.view host.new) entries) }
    ensures looks { Looks (H.view host.old) (H.view host.new) }
    ensures usable { K.live keeper.new ≡ is_usable result }
    ensures cause { RoseIf (IsErrOf result OpenError.DiskFault) (H.view host.old).disk_faults (H.view host.new).disk_faults }
{
    let mut owners = Owners::new(alloc);
    walk(alloc, keeper, host, Key::VERSION, Key::VERSION, &mut owners)?;
    Ok(owners)
}

// Goes over the objects. What is known of them is in the scene from then on.
fn check_heads<'a, H: Host, K: Keep<H>>(
    alloc: Global,
    keeper: &mut K,
    host: &mut H,
    scene: Scene<'a>,
) -> Result<Scene<'a>, OpenError>
    requires live { IsTrue (K.live keeper.old) }
    ensures meant { (entries : Entries) → K.holds keeper.old (H.view host.old) entries
        → Answers (objects_kept entries scene.entry) result }
    ensures holds { UnlessFault result ((entries : Entries) → K.holds keeper.old (H.view host.old) entries
        → K.holds keeper.new (H.view host.new) entries) }
    ensures looks { Looks (H.view host.old) (H.view host.new) }
    ensures usable { K.live keeper.new ≡ is_usable result }
    ensures cause { RoseIf (IsErrOf result OpenError.DiskFault) (H.view host.old).disk_faults (H.view host.new).disk_faults }
{
    let owners = read_owners(alloc, keeper, host)?;
    let mut roll = Roll { scene, owners };
    walk(alloc, keeper, host, Key::OBJECT, Key::OBJECT, &mut roll)?;
    let Roll { scene, .. } = roll;
    Ok(scene)
}

// Goes over the records of a kind by a rule.
fn check<'a, H: Host, K: Keep<H>>(
    alloc: Global,
    keeper: &mut K,
    host: &mut H,
    kind: u8,
    rule: Rule,
    course: Course<'a>,
) -> Result<Course<'a>, OpenError>
    requires live { IsTrue (K.live keeper.old) }
    ensures meant { (entries : Entries) → K.holds keeper.old (H.view host.old) entries
        → Answers (passed rule (within kind kind entries) course.entry) result }
    ensures holds { UnlessFault result ((entries : Entries) → K.holds keeper.old (H.view host.old) entries
        → K.holds keeper.new (H.view host.new) entries) }
    ensures looks { Looks (H.view host.old) (H.view host.new) }
    ensures usable { K.live keeper.new ≡ is_usable result }
    ensures cause { RoseIf (IsErrOf result OpenError.DiskFault) (H.view host.old).disk_faults (H.view host.new).disk_faults }
{
    let mut check = Check { rule, course };
    walk(alloc, keeper, host, kind, kind, &mut check)?;
    let Check { course, .. } = check;
    Ok(course)
}

// Goes over the queue.
#[tactic(auto, unfolding(ode_value::specs::Limits::queue_limit))]
fn check_queue<'a, H: Host, K: Keep<H>>(
    alloc: Global,
    keeper: &mut K,
    host: &mut H,
    course: Course<'a>,
) -> Result<Course<'a>, OpenError>
    requires live { IsTrue (K.live keeper.old) }
    ensures meant { (entries : Entries) → K.holds keeper.old (H.view host.old) entries
        → Answers (waited (within entry_kind entry_kind entries) course.entry) result }
    ensures holds { UnlessFault result ((entries : Entries) → K.holds keeper.old (H.view host.old) entries
        → K.holds keeper.new (H.view host.new) entries) }
    ensures looks { Looks (H.view host.old) (H.view host.new) }
    ensures usable { K.live keeper.new ≡ is_usable result }
    ensures cause { RoseIf (IsErrOf result OpenError.DiskFault) (H.view host.old).disk_faults (H.view host.new).disk_faults }
{
    let mut queue = Queue {
        course,
        left: QUEUE_LIMIT,
    };
    walk(alloc, keeper, host, Key::ENTRY, Key::ENTRY, &mut queue)?;
    let Queue { course, .. } = queue;
    Ok(course)
}

// Goes over versions, activations and the queue, and then says whether the references in all these fit.
fn check_scene<'a, H: Host, K: Keep<H>>(
    alloc: Global,
    keeper: &mut K,
    host: &mut H,
    scene: Scene<'a>,
) -> Result<(), OpenError>
    requires live { IsTrue (K.live keeper.old) }
    ensures meant { (entries : Entries) → K.holds keeper.old (H.view host.old) entries
        → Answers (scene_kept entries scene.entry) result }
    ensures holds { UnlessFault result ((entries : Entries) → K.holds keeper.old (H.view host.old) entries
        → K.holds keeper.new (H.view host.new) entries) }
    ensures looks { Looks (H.view host.old) (H.view host.new) }
    ensures usable { K.live keeper.new ≡ is_usable result }
    ensures cause { RoseIf (IsErrOf result OpenError.DiskFault) (H.view host.old).disk_faults (H.view host.new).disk_faults }
{
    let course = Course {
        scene,
        references: Ok(()),
    };
    let course = check(alloc, keeper, host, Key::VERSION, Rule::Versions, course)?;
    let course = check(
        alloc,
        keeper,
        host,
        Key::ACTIVATION,
        Rule::Activations,
        course,
    )?;
    let course = check_queue(alloc, keeper, host, course)?;
    course.references?;
    Ok(())
}

/// Whether all objects, their versions and activations, the queue's entries and the references in all these keep their rules; or the first
/// rule that is broken. The tables are those of the classes' triggers, and the maps have for each class the place of its first one. Nothing
/// is written.
pub fn check_objects<H: Host, K: Keep<H>>(
    alloc: Global,
    keeper: &mut K,
    host: &mut H,
    counters: Counters,
    classes: &Classes,
    tables: &List<Table>,
    maps: &List<u32>,
) -> Result<(), OpenError>
    requires live { IsTrue (K.live keeper.old) }
    ensures meant { (entries : Entries) → K.holds keeper.old (H.view host.old) entries
        → Answers (objects_keep counters (is_reached_in tables.now maps.now) classes.now entries) result }
    ensures holds { UnlessFault result ((entries : Entries) → K.holds keeper.old (H.view host.old) entries
        → K.holds keeper.new (H.view host.new) entries) }
    ensures looks { Looks (H.view host.old) (H.view host.new) }
    ensures usable { K.live keeper.new ≡ is_usable result }
    ensures cause { RoseIf (IsErrOf result OpenError.DiskFault) (H.view host.old).disk_faults (H.view host.new).disk_faults }
{
    let states = States::of(alloc, tables, maps)?;
    let numbers = read_numbers(alloc, keeper, host)?;
    let known = Scene {
        counters,
        classes,
        numbers,
        states,
        heads: Heads::new(alloc),
    };
    let scene = check_heads(alloc, keeper, host, known)?;
    check_scene(alloc, keeper, host, scene)?;
    Ok(())
}
