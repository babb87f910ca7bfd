//! Disks in memory.
use ode_host::{MemHost, Plan, Torn};
use std::alloc::{AllocError, Global};

/// The ways in which a stop tears what is pending.
pub const TEARS: [Torn; 4] = [Torn::Nothing, Torn::Whole, Torn::Front(1), Torn::Fill(0xA5)];

// A disk with this image.
fn planned(alloc: Global, image: &[u8], plan: Plan) -> Result<MemHost, AllocError> {
    MemHost::new(alloc, image.to_vec(alloc)?, plan)
}

/// A disk with this image, on which no call fails.
pub fn smooth(alloc: Global, image: &[u8]) -> Result<MemHost, AllocError> {
    failing(alloc, image, &[])
}

/// A disk with this image, on which the calls of these numbers fail.
pub fn failing(alloc: Global, image: &[u8], calls: &[u64]) -> Result<MemHost, AllocError> {
    let disk_fails = calls.to_vec(alloc)?;
    let plan = Plan {
        disk_fails,
        print_fails: Vec::new(alloc),
        stop: None,
    };
    planned(alloc, image, plan)
}

/// A disk with this image, which stops at a call.
pub fn stopping(alloc: Global, image: &[u8], at: u64, torn: Torn) -> Result<MemHost, AllocError> {
    let plan = Plan {
        disk_fails: Vec::new(alloc),
        print_fails: Vec::new(alloc),
        stop: Some((at, torn)),
    };
    planned(alloc, image, plan)
}

/// The image with these bytes over those at a place, as far as it reaches.
pub fn patch(image: &mut [u8], at: usize, bytes: &[u8]) {
    for (i, byte) in bytes.iter().enumerate() {
        if let Some(place) = image.get_mut(at.saturating_add(i)) {
            *place = *byte;
        }
    }
}
