//! What an abort leaves of an object.
ghost use Rattle.std.specs.Prelude.{◌≡◌, IfOk};
ghost use Rattle.ode_objects.specs.Rewinding.{is_whole, rewound, rewound_active, rewound_object, state_in};

use crate::object::{Active, Object, active_numbered};
use crate::tracked::{First, Tracked};
use ode_types::Classes;
use ode_value::List;
use std::alloc::{AllocError, Global};

// Whether the trigger of an activation sees whole histories.
fn is_whole(classes: &Classes, active: &Active) -> bool
    ensures { result ≡ is_whole classes.now active.now }
{
    let Some(class) = classes.class(active.class) else {
        return false;
    };
    match class.triggers.as_slice().get(usize::from(active.trigger)) {
        Some(trigger) => trigger.whole,
        None => false,
    }
}

// The state that an activation has by now.
fn state_in(now: &[Active], active: &Active) -> u16
    ensures { result ≡ state_in now.now active.now }
{
    match active_numbered(now, active.number) {
        Some(other) => other.state,
        None => active.state,
    }
}

fn rewound_active(
    alloc: Global,
    classes: &Classes,
    now: &[Active],
    active: &Active,
) -> Result<Active, AllocError>
    ensures { IfOk result (λ a. a ≡ rewound_active classes.now now.now active.now) }
{
    Ok(Active {
        number: active.number,
        class: active.class,
        trigger: active.trigger,
        args: active.args.copy(alloc)?,
        state: if is_whole(classes, active) {
            state_in(now, active)
        } else {
            active.state
        },
        on: active.on,
    })
}

fn rewound_object(
    alloc: Global,
    classes: &Classes,
    first: &Object,
    now: &Object,
) -> Result<Object, AllocError>
    ensures { IfOk result (λ o. o ≡ rewound_object classes.now first.now now.now) }
{
    let mut activations = List::new(alloc);
    for active in first.activations.as_slice() {
        activations.push(rewound_active(alloc, classes, now.activations.as_slice(), active)?)?;
    }
    Ok(Object {
        class: first.class,
        live: first.live,
        last: now.last,
        versions: first.versions.copy(alloc)?,
        activations,
    })
}

impl Tracked {
    /// What an abort leaves of the object, if it was there when the transaction began: what was drawn stays drawn, and whole histories
    /// go on.
    pub fn rewound(&self, alloc: Global, classes: &Classes) -> Result<Option<Tracked>, AllocError>
        ensures { IfOk result (λ tracked. tracked ≡ rewound classes.now self.now) }
    {
        match &self.first {
            First::Same => Ok(Some(Tracked::read(self.current.copy(alloc)?))),
            First::Absent => Ok(None),
            First::Other(first) => Ok(Some(Tracked {
                current: rewound_object(alloc, classes, first, &self.current)?,
                first: First::Other(first.copy(alloc)?),
            })),
        }
    }
}
