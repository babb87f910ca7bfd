//! A gate is one byte: what stands behind it counts where the gate is open.

/// The byte of an open gate.
pub const OPEN: u8 = 0xA5;

/// The byte that shuts a gate. Every byte but `OPEN` reads as shut.
pub const SHUT: u8 = 0;
