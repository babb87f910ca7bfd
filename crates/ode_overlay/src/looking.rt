//! What a transaction looked at and drew, and whether it met the queue.
ghost use Rattle.std.specs.Prelude.{◌≡◌, [], ◌∷◌, OnErr, OnOk};
ghost use Rattle.ode_overlay.specs.Layers.{looking};

use crate::overlay::Overlay;
use ode_value::List;
use std::alloc::AllocError;

impl Overlay {
    /// The numbers of the objects that were looked at, each once, in rising order.
    pub fn looked(&self) -> &List<u64>
        ensures { result.now ≡ self.now.footprint.looked }
    {
        &self.looked
    }

    /// Whether a number of an object or an activation was drawn, or none was left.
    pub fn drew(&self) -> bool
        ensures { result ≡ self.now.footprint.drew }
    {
        self.drew
    }

    /// Whether a firing was collected or dropped.
    pub fn met_queue(&self) -> bool
        ensures { result ≡ self.now.footprint.queued }
    {
        self.met_queue
    }

    /// An object is looked at.
    pub fn look(&mut self, id: u64) -> Result<(), AllocError>
        ensures ok { OnOk result (self.new ≡ looking (id ∷ []) self.old) }
        ensures err { OnErr result (self.new ≡ self.old) }
    {
        match self.looked.as_slice().binary_search(&id) {
            Ok(_) => Ok(()),
            Err(at) => {
                self.looked.insert(at, id)?;
                Ok(())
            }
        }
    }
}
