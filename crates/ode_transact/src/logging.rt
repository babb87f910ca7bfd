//! What is kept of settled transactions.
ghost use Rattle.std.specs.Prelude.{◌≡◌, ◌<◌, ◌∷◌, [], IfOk, None, OnErr, OnOk};
ghost use Rattle.std.specs.Option.{IfSome, option_map};
ghost use Rattle.std.specs.Vec.{vec_capacity, vec_len};
ghost use Rattle.ode_transact.specs.Logging.{logged};

use ode_keep::Batch;
use ode_value::List;
use std::alloc::AllocError;

/// A settled transaction: its number, and its changes.
pub type Kept = (u64, Batch);

/// What is kept of settled transactions, where it is.
pub type Log = Option<List<Kept>>;

// A log is taken out, with room for one more. It stays where there is no memory.
pub(crate) fn make_room(log: &mut Log) -> Result<Option<Vec<Kept>>, AllocError>
    ensures same { IfOk result (λ ready. option_map (λ v. v.items) ready ≡ log.old) }
    ensures room { IfOk result (λ ready. IfSome ready (λ v. vec_len v < vec_capacity v)) }
    ensures stays { OnErr result (log.new ≡ log.old) }
{
    match log.take() {
        None => Ok(None),
        Some(kept) => {
            let mut kept = kept.into_vec();
            match kept.reserve(1) {
                Ok(()) => Ok(Some(kept)),
                Err(error) => {
                    *log = Some(List::from_vec(kept));
                    Err(error)
                }
            }
        }
    }
}

// The log that was taken out.
pub(crate) fn given_back(ready: Option<Vec<Kept>>) -> Log
    ensures { result ≡ option_map (λ v. v.items) ready }
{
    match ready {
        None => None,
        Some(kept) => Some(List::from_vec(kept)),
    }
}

// The log that was taken out, with one more.
pub(crate) fn keep(ready: Option<Vec<Kept>>, number: u64, batch: Batch) -> Log
    requires room { IfSome ready (λ v. vec_len v < vec_capacity v) }
    ensures { result ≡ logged (option_map (λ v. v.items) ready) ((number, batch) ∷ []) }
{
    match ready {
        None => None,
        Some(mut kept) => {
            kept.push_reserved((number, batch));
            Some(List::from_vec(kept))
        }
    }
}
