//! The keys of all records.
ghost use Rattle.std.specs.Prelude.{◌≡◌, IfOk, IsErrOf, IsTrue};
ghost use Rattle.std.specs.Map.{keys_of};
ghost use Rattle.ode_host.specs.Causes.{RoseIf};
ghost use Rattle.ode_host.specs.Host.{Looks};
ghost use Rattle.ode_keep.specs.Entries.{Entries};
ghost use Rattle.ode_passes.specs.Answers.{OnBroken, UnlessFault, is_usable};
ghost use Rattle.ode_dump.specs.Dumping.{all};

use ode_host::Host;
use ode_keep::Keep;
use ode_passes::{OpenError, Pass, walk};
use ode_value::{Key, List};
use std::alloc::Global;

/// The keys so far of records.
#[derive(Drop)]
pub(crate) struct Keys {
    pub(crate) keys: List<Key>,
}

impl Pass for Keys {
    ghost use Rattle.ode_dump.specs.Passing.{with_key};

    ghost takes = { with_key };

    fn take(&mut self, _alloc: Global, key: Key, _value: &[u8]) -> Result<(), OpenError> {
        self.keys.push(key)?;
        Ok(())
    }
}

/// The keys of all records. Nothing is written.
pub(crate) fn read_keys<H: Host, K: Keep<H>>(
    alloc: Global,
    keeper: &mut K,
    host: &mut H,
) -> Result<List<Key>, OpenError>
    requires live { IsTrue (K.live keeper.old) }
    ensures keys { IfOk result (λ keys. (entries : Entries) → K.holds keeper.old (H.view host.old) entries
        → keys ≡ keys_of (all entries)) }
    ensures broken { OnBroken result ((entries : Entries) → K.holds keeper.old (H.view host.old) entries → ⊥) }
    ensures holds { UnlessFault result ((entries : Entries) → K.holds keeper.old (H.view host.old) entries
        → K.holds keeper.new (H.view host.new) entries) }
    ensures looks { Looks (H.view host.old) (H.view host.new) }
    ensures usable { K.live keeper.new ≡ is_usable result }
    ensures cause { RoseIf (IsErrOf result OpenError.DiskFault) (H.view host.old).disk_faults (H.view host.new).disk_faults }
{
    let mut read = Keys {
        keys: List::new(alloc),
    };
    walk(alloc, keeper, host, u8::MIN, u8::MAX, &mut read)?;
    let Keys { keys } = read;
    Ok(keys)
}
