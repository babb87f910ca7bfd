//! The limits of a class, and of the numbers that a check gives. The definitions have the same numbers in `specs/Limits.antt`.
ghost use Rattle.std.specs.Prelude.{◌≡◌, ◌-◌, take};
ghost use Rattle.ode_types.specs.Limits.{ancestor_limit, classes_limit, field_limit, slot_limit, trigger_limit};

/// Fields of a class, with its ancestors'.
pub const FIELD_LIMIT: usize = 256;
/// Triggers that a class itself declares.
pub const TRIGGER_LIMIT: usize = 64;
/// Ancestors of a class.
pub const ANCESTOR_LIMIT: usize = 16;
/// Classes, whose numbers have 32 bits.
pub const CLASSES_LIMIT: usize = 4_294_967_295;
/// Slots, which have 16 bits.
pub const SLOT_LIMIT: usize = 65_536;

/// The limits of the code are those of the definitions.
#[tactic(auto, unfolding(crate::specs::Limits::field_limit, crate::specs::Limits::trigger_limit, crate::specs::Limits::ancestor_limit, crate::specs::Limits::classes_limit, crate::specs::Limits::slot_limit))]
pub fn limits_agree()
    ensures field { FIELD_LIMIT ≡ field_limit }
    ensures trigger { TRIGGER_LIMIT ≡ trigger_limit }
    ensures ancestor { ANCESTOR_LIMIT ≡ ancestor_limit }
    ensures classes { CLASSES_LIMIT ≡ classes_limit }
    ensures slot { SLOT_LIMIT ≡ slot_limit }
{}

/// The first of these for which there are slots from the next one on.
#[tactic(auto, unfolding(crate::specs::Limits::slot_limit))]
pub fn in_slots<T>(items: &[T], next: usize) -> &[T]
    ensures { result.now ≡ take (slot_limit - next) items.now }
{
    let slots = SLOT_LIMIT.saturating_sub(next);
    if slots < items.len() {
        &items[..slots]
    } else {
        items
    }
}
