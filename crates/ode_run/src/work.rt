//! A transaction that runs.
use ode_heap::Heap;
use ode_overlay::Overlay;
use ode_states::Fired;
use ode_value::List;
use std::alloc::Global;

/// A transaction that runs: what changes of its context, and the host, with the weight of the world at its start. What else doesn't change
/// is the schema.
#[derive(Drop)]
pub struct Work<'a, H, K> {
    pub alloc: Global,
    pub heap: &'a mut Heap<K>,
    pub overlay: &'a mut Overlay,
    pub deferred: &'a mut List<(u64, Fired)>,
    pub text: &'a mut List<u8>,
    pub budget: &'a mut u32,
    pub bytes: u64,
    pub host: &'a mut H,
}
