//! The frame of an expression over a heap and an overlay.
ghost use Rattle.std.specs.Prelude.{◌≡◌, IsErrOf, IsTrue, true};
ghost use Rattle.ode_host.specs.Causes.{RoseIf};
ghost use Rattle.ode_host.specs.Host.{Looks};
ghost use Rattle.ode_keep.specs.Entries.{Entries};
ghost use Rattle.ode_overlay.specs.Answers.{Answers, UnlessFault, is_usable};
ghost use Rattle.ode_run_frame.specs.Knowing.{Base as Beginning, Follows, Known as Knowledge, Shown};
ghost use Rattle.ode_run_frame.specs.Reads.{number_in, number_read, stop_of};
ghost use Rattle.ode_versions.specs.Versions.{IsVersionList};

use crate::unread::Unread;
use ode_expr::{EvalStop, Frame};
use ode_heap::{Heap, ObjectHead};
use ode_host::Host;
use ode_interpreter::Scene;
use ode_keep::Keep;
use ode_overlay::{Overlay, OverlayError};
use ode_types::Classes;
use ode_value::{Fault, Key, List, Ref, Value};

/// What an expression is evaluated over: the reference and the locals of a body, and the objects of an overlay over a heap. It lists
/// the objects that are looked at.
#[derive(Drop)]
pub struct Reading<'a, H, K> {
    pub scene: &'a Scene,
    pub classes: &'a Classes,
    pub overlay: &'a Overlay,
    pub heap: &'a mut Heap<K>,
    pub host: &'a mut H,
    pub looked: &'a mut List<u64>,
    pub stopped: Option<Unread>,
}

// Why nothing was read. A read is never refused for its size.
fn stop_of(error: OverlayError) -> EvalStop<Unread>
    ensures { result ≡ stop_of error }
{
    match error {
        OverlayError::Memory => EvalStop::Memory,
        OverlayError::DiskFault => EvalStop::Frame(Unread::DiskFault),
        OverlayError::Damaged { key } => EvalStop::Frame(Unread::Damaged { key }),
        OverlayError::NoObject(id) => EvalStop::Fault(Fault::NoObject(id)),
        OverlayError::NoVersion(of) => EvalStop::Fault(Fault::NoVersion(of)),
        _ => EvalStop::Frame(Unread::Damaged {
            key: Key {
                kind: Key::COUNTERS,
                a: 0,
                b: 0,
            },
        }),
    }
}

fn number_in(of: Ref, head: &ObjectHead) -> Result<u32, OverlayError>
    requires { IsVersionList head.now.versions }
    ensures value { Answers result (number_in of head.now) }
    ensures usable { is_usable result ≡ true }
    ensures calm { IsErrOf result OverlayError.DiskFault → ⊥ }
{
    match head.versions.find(of.version) {
        Some(number) => Ok(number),
        None => Err(OverlayError::NoVersion(of)),
    }
}

/// The number of the version that a reference denotes.
#[tactic(auto, unfolding(crate::specs::Reads::number_read))]
fn read_number<H: Host, K: Keep<H>>(
    classes: &Classes,
    overlay: &Overlay,
    heap: &mut Heap<K>,
    host: &mut H,
    of: Ref,
) -> Result<u32, OverlayError>
    requires live { IsTrue (K.live heap.old) }
    ensures value { (base : Entries) → K.holds heap.old (H.view host.old) base → Answers result (number_read base of overlay.now) }
    ensures holds { UnlessFault result ((base : Entries) → K.holds heap.old (H.view host.old) base → K.holds heap.new (H.view host.new) base) }
    ensures looks { Looks (H.view host.old) (H.view host.new) }
    ensures usable { K.live heap.new ≡ is_usable result }
    ensures cause { RoseIf (IsErrOf result OverlayError.DiskFault) (H.view host.old).disk_faults (H.view host.new).disk_faults }
{
    if of.object == 0 {
        return Err(OverlayError::NoObject(0));
    }
    match overlay.object(classes, heap, host, of.object)? {
        Some(head) => number_in(of, &head),
        None => Err(OverlayError::NoObject(of.object)),
    }
}

impl<'a, H: Host, K: Keep<H>> Frame for Reading<'a, H, K> {
    type Stop = Unread;

    ghost Known = { Knowledge H };

    ghost bones = { λ k. k.bones };

    ghost shows = { λ f k. Shown H.view (K.holds f.heap.now (H.view f.host.now)) (K.live f.heap.now) f.heap.ghost_name f.host.ghost_name f.looked.ghost_name f.host.now f.stopped f.classes.now f.overlay.now k };

    ghost Base = { Beginning H };

    ghost follows = { λ f b. Follows H.view (K.live f.heap.now) f.heap.ghost_name f.host.ghost_name f.looked.ghost_name f.host.now f.stopped b };

    ghost scene = { λ f. record { this = f.scene.now.this; locals = f.scene.now.locals } };

    ghost looked = { λ f. f.looked.now };

    ghost stopped = { λ f. f.stopped };

    fn local(&self, slot: u16) -> Option<&Value> {
        self.scene.locals.as_slice().get(usize::from(slot))
    }

    fn this(&self) -> Ref {
        self.scene.this
    }

    #[tactic(auto, using(crate::proofs::SoundReads::stops_sound))]
    fn read_field(&mut self, of: Ref, slot: u16) -> Result<Value, EvalStop<Unread>> {
        if let Some(stop) = self.stopped {
            return Err(EvalStop::Frame(stop));
        }
        self.looked.push(of.object)?;
        if !self.heap.live() {
            self.stopped = Some(Unread::DiskFault);
            return Err(EvalStop::Frame(Unread::DiskFault));
        }
        match self
            .overlay
            .read(self.classes, self.heap, self.host, of, slot)
        {
            Ok(value) => Ok(value),
            Err(error) => {
                let stop = stop_of(error);
                if let EvalStop::Frame(unread) = stop {
                    self.stopped = Some(unread);
                }
                Err(stop)
            }
        }
    }

    #[tactic(auto, using(crate::proofs::SoundReads::stops_sound))]
    fn current(&mut self, of: Ref) -> Result<u32, EvalStop<Unread>> {
        if let Some(stop) = self.stopped {
            return Err(EvalStop::Frame(stop));
        }
        self.looked.push(of.object)?;
        if !self.heap.live() {
            self.stopped = Some(Unread::DiskFault);
            return Err(EvalStop::Frame(Unread::DiskFault));
        }
        match read_number(self.classes, self.overlay, self.heap, self.host, of) {
            Ok(number) => Ok(number),
            Err(error) => {
                let stop = stop_of(error);
                if let EvalStop::Frame(unread) = stop {
                    self.stopped = Some(unread);
                }
                Err(stop)
            }
        }
    }
}
