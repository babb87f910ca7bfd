//! An abort takes back what was changed, but for what was drawn and for whole histories.
ghost use Rattle.std.specs.Prelude.{◌≡◌, ◌≤◌, [], IfErr, IfOk, OnErr, OnOk, length};
ghost use Rattle.ode_objects.specs.Rewinding.{rewound};
ghost use Rattle.ode_overlay.specs.Rewinding.{put_rewound, rewind, rewound_from, stays};
ghost use Rattle.std.specs.List.{filter};

use crate::error::OverlayError;
use crate::overlay::{Collected, Overlay, insert};
use ode_host::Host;
use ode_keep::Keep;
use ode_objects::{Heap, Tracked};
use ode_types::Classes;
use ode_value::List;
use std::alloc::{AllocError, Global};
use std::collections::BTreeMap;

// An object that was there comes back.
fn put_rewound(
    alloc: Global,
    classes: &Classes,
    objects: &mut BTreeMap<u64, Tracked>,
    id: u64,
    tracked: &Tracked,
) -> Result<(), AllocError>
    ensures { OnOk result (objects.new.entries ≡ put_rewound id (rewound classes.now tracked.now) objects.old.entries) }
{
    match tracked.rewound(alloc, classes)? {
        Some(tracked) => insert(objects, id, tracked),
        None => Ok(()),
    }
}

fn copy_collected(alloc: Global, collected: &Collected) -> Result<Collected, AllocError>
    ensures { IfOk result (λ c. c ≡ collected.now) }
{
    Ok(Collected {
        object: collected.object,
        class: collected.class,
        trigger: collected.trigger,
        generation: collected.generation,
        args: collected.args.copy(alloc)?,
        independent: collected.independent,
    })
}

impl Overlay {
    // The objects that an abort leaves.
    fn rewound(&self, classes: &Classes) -> Result<BTreeMap<u64, Tracked>, AllocError>
        ensures { IfOk result (λ objects. objects.entries ≡ rewound_from classes.now [] self.now.objects) }
    {
        let mut objects = BTreeMap::new(self.alloc);
        for (id, tracked) in &self.objects {
            put_rewound(self.alloc, classes, &mut objects, *id, tracked)?;
        }
        Ok(objects)
    }

    // The collected firings that an abort keeps.
    fn kept(&self) -> Result<List<Collected>, AllocError>
        ensures kept { IfOk result (λ kept. kept ≡ filter stays self.now.collected) }
        ensures fewer { IfOk result (λ kept. length kept ≤ length self.now.collected) }
    {
        let mut kept = List::new(self.alloc);
        for collected in self.collected.as_slice() {
            if collected.independent {
                kept.push(copy_collected(self.alloc, collected)?)?;
            }
        }
        Ok(kept)
    }

    /// Takes back what was changed, but for the numbers that were drawn and the states of activations that see whole histories. Of
    /// the collected firings the independent ones stay.
    #[tactic(auto, unfolding(crate::specs::Rewinding::rewind))]
    pub fn rewind<H: Host, K: Keep<H>>(
        &mut self,
        classes: &Classes,
        _heap: &mut Heap<K>,
        _host: &mut H,
    ) -> Result<(), OverlayError>
        ensures acts { OnOk result (self.new ≡ rewind classes.now self.old) }
        ensures memory { IfErr result (λ why. why ≡ OverlayError.Memory) }
        ensures err { OnErr result (self.new ≡ self.old) }
        ensures heap { _heap.new ≡ _heap.old }
        ensures host { _host.new ≡ _host.old }
    {
        let objects = self.rewound(classes)?;
        self.collected = self.kept()?;
        self.objects = objects;
        Ok(())
    }
}
