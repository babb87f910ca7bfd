//! Firings.
use ode_value::{List, Value};

/// A trigger, by the class that declares it and its place there.
#[derive(Clone, Copy, Debug, PartialEq, Eq)]
pub struct Trigger {
    pub class: u32,
    pub place: u16,
}

/// An activation of an object that fires, with the arguments of its trigger.
#[derive(Drop)]
pub struct Firing {
    pub object: u64,
    pub activation: u64,
    pub trigger: Trigger,
    pub args: List<Value>,
}
