//! What a query's literals denote.
ghost use Rattle.std.specs.Prelude.{◌≡◌, IsTrue, None, Option, Some};
ghost use Rattle.std.specs.Option.{option_map};
ghost use Rattle.ode_heap.specs.Answering.{head_of_object};
ghost use Rattle.ode_heap_laws.specs.Few.{HoldsCounted};
ghost use Rattle.ode_keep.specs.Entries.{Entries};
ghost use Rattle.ode_machine.specs.Refusals.{class_behind, classes_behind};
ghost use Rattle.ode_run_frame.specs.Knowing.{Since};
ghost use Rattle.ode_value.specs.Denoting.{object_of};
ghost use Rattle.ode_value.specs.Language.{Language, ListWorld};
ghost use Rattle.ode_value.specs.Worlds.{Object};
ghost use Rattle.ode_versions.specs.Versions.{has_number};
ghost use Rattle.ode_questions.specs.Saying.{refusing};
ghost use Rattle.ode_questions.specs.Steps.{Answers, AnswersOver, stopped_by};
ghost use Rattle.ode_questions.specs.Versions.{is_denoted};

use crate::turned::{Turned, Why};
use ode_heap::{Heap, ObjectHead};
use ode_heap_laws::heaps_show_held_worlds;
use ode_host::Host;
use ode_keep::Keep;
use ode_value::{List, Ref, Refusal};
use ode_versions::Version;
use std::alloc::Global;

fn has_number(versions: &[Version], number: u32) -> bool
    ensures { result ≡ has_number number versions.now }
{
    versions.iter().any(|version| version.number == number)
}

// Whether the version of a reference is among these: the one that it names, or else any.
fn is_denoted(version: Option<u32>, versions: &[Version]) -> bool
    ensures { result ≡ is_denoted version versions.now }
{
    match version {
        Some(number) => has_number(versions, number),
        None => !versions.is_empty(),
    }
}

// The class of a literal in an object, where it denotes a version.
fn class_in(of: Ref, head: &ObjectHead) -> Result<u32, Turned>
    ensures says { (o : Object) → head.now ≡ head_of_object o → Answers (refusing (class_behind of (Some o))) result }
    ensures calm { stopped_by result ≡ None }
{
    if is_denoted(of.version, head.versions.versions.as_slice()) {
        Ok(head.class)
    } else {
        Err(Turned::Refused(Why::Refusal(Refusal::NoVersion(of))))
    }
}

// That where this is found under the number of its object.
fn class_behind(of: Ref, found: &Option<ObjectHead>) -> Result<u32, Turned>
    ensures says { (o : Option Object) → found.now ≡ option_map head_of_object o → Answers (refusing (class_behind of o)) result }
    ensures calm { stopped_by result ≡ None }
{
    match found {
        Some(head) => class_in(of, head),
        None => Err(Turned::Refused(Why::Refusal(Refusal::NoObject(of.object)))),
    }
}

// That of one, looked up in the records. Null denotes nothing.
fn class_of<H: Host, K: Keep<H>>(
    alloc: Global,
    heap: &mut Heap<K>,
    host: &mut H,
    of: &Ref,
) -> Result<u32, Turned>
    requires live { IsTrue (K.live heap.old) }
    ensures over { (l : Language) (entries : Entries) (w : ListWorld) → HoldsCounted l entries w → K.holds heap.old (H.view host.old) entries
        → AnswersOver (refusing (class_behind of.now (object_of w.bones of.now))) result (K.holds heap.new (H.view host.new) entries) }
    ensures since { Since (H.view host.old) (H.view host.new) (K.live heap.new) (stopped_by result) }
{
    heaps_show_held_worlds();
    if of.object == 0 {
        return Err(Turned::Refused(Why::Refusal(Refusal::NoObject(0))));
    }
    let found = heap.load_object(alloc, host, of.object)?;
    class_behind(*of, &found)
}

/// Those of literals, or the refusal of the first that denotes nothing.
pub(crate) fn classes_behind<H: Host, K: Keep<H>>(
    alloc: Global,
    heap: &mut Heap<K>,
    host: &mut H,
    refs: &[Ref],
) -> Result<List<(Ref, u32)>, Turned>
    requires live { IsTrue (K.live heap.old) }
    ensures over { (l : Language) (entries : Entries) (w : ListWorld) → HoldsCounted l entries w → K.holds heap.old (H.view host.old) entries
        → AnswersOver (refusing (classes_behind w.bones refs.now)) result (K.holds heap.new (H.view host.new) entries) }
    ensures since { Since (H.view host.old) (H.view host.new) (K.live heap.new) (stopped_by result) }
{
    let mut classes = List::new(alloc);
    for of in refs {
        let class = class_of(alloc, heap, host, of)?;
        classes.push((*of, class))?;
    }
    Ok(classes)
}
