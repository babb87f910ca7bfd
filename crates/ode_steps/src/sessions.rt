//! Sessions over one opened file.
ghost use Rattle.std.specs.Prelude.{◌≡◌, ◌++◌, ℕ, [], List as Items, IfOk, IsErrOf, None, OnErr, OnOk, Some, false, length, true};
ghost use Rattle.ode_language.specs.Texts.{HasText};
ghost use Rattle.ode_schema.specs.Parts.{AreAligned, AreFit};
ghost use Rattle.ode_host.specs.Host.{HostCalls, LeavesOnly, Printed};
ghost use Rattle.ode_language.specs.Languages.{ode};
ghost use Rattle.ode_machine.specs.Interleaving.{Interleaved, finish, step};
ghost use Rattle.ode_machine.specs.Moments.{IsAfterSome};
ghost use Rattle.ode_machine.specs.Runs.{Item};
ghost use Rattle.ode_steps.specs.Serving.{IsLive, IsReply, StandsFor, after_reply, closed_behind, said_in, settlings};
ghost use Rattle.ode_transact.specs.Errors.{OnDamaged};
ghost use Rattle.ode_transact.specs.Items.{items_of, texts_of};
ghost use Rattle.ode_transact.specs.Resting.{HoldsBy, resting_parts};
ghost use Rattle.ode_value.specs.Draining.{drain as drained};
ghost use Rattle.ode_value.specs.Limits.{drain_limit};
ghost use Rattle.ode_value.specs.Pasts.{lists};

use crate::answer::Answer;
use crate::ending::finish_in;
use crate::stepping::step_in;
use ode_holders::Open;
use ode_host::Host;
use ode_keep::Roomy;
use ode_opened::Opened;
use ode_transact::{EngineError, Log, Output, drain};
use ode_value::limits::DRAIN_LIMIT;
use ode_value::{List, Statement};
use std::alloc::Global;

/// An opened file, and the sessions that are open over it; and whether they may be called: not after an error.
#[derive(Drop)]
pub struct Sessions<K> {
    pub rest: Option<Opened<K>>,
    pub sessions: List<Open>,
    pub live: bool,
    pub alloc: Global,
}

impl<K: Drop> Sessions<K> {
    /// Sessions over an opened file; none is open.
    pub fn start(alloc: Global, opened: Opened<K>) -> Sessions<K>
        requires fit { AreFit (resting_parts opened) }
        requires aligned { AreAligned (resting_parts opened) }
        ensures rest { result.rest ≡ Some opened }
        ensures sessions { result.sessions ≡ [] }
        ensures live { result.live ≡ true }
    {
        Sessions {
            rest: Some(opened),
            sessions: List::new(alloc),
            live: true,
            alloc,
        }
    }

    /// Whether they may be called: not after an error.
    pub fn live(&self) -> bool
        ensures { result ≡ self.now.live }
    {
        self.live
    }

    // An error. They aren't live any more.
    fn fail<T>(&mut self, error: EngineError) -> Result<T, EngineError>
        ensures says { result ≡ Err error }
        ensures dead { self.new.live ≡ false }
        ensures same { self.new.sessions ≡ self.old.sessions }
    {
        self.live = false;
        Err(error)
    }

    // A call's answer, with what is there behind it. At an error they aren't live any more.
    fn answer<T: Drop>(
        &mut self,
        step: Result<(Opened<K>, T), EngineError>,
    ) -> Result<T, EngineError>
        ensures says { result ≡ said_in step }
        ensures has { IfOk step (λ r. (self.new.rest ≡ Some r.0) × (self.new.live ≡ self.old.live)) }
        ensures same { self.new.sessions ≡ self.old.sessions }
        ensures dead { OnErr step (self.new.live ≡ false) }
    {
        match step {
            Ok((rest, answer)) => {
                self.rest = Some(rest);
                Ok(answer)
            }
            Err(error) => self.fail(error),
        }
    }

    /// A statement of the session of a number is carried out, refused, or put off because another session holds what it needs.
    pub fn step<H: Host>(
        &mut self,
        host: &mut H,
        session: u32,
        s: &Statement,
    ) -> Result<Answer, EngineError>
    where
        K: Roomy<H>,
        requires live { IsLive K.live self.old }
        requires text { HasText ode s.now }
        // The answer is that of the machine on the session's view: its refusal; or the session that holds what the step needs, and what that
        // is; or as many transactions are settled as the machine settles.
        ensures answer { (m : Interleaved) → StandsFor H.view K.holds K.live ode m self.old host.old → IfOk result (λ answer. IsReply answer (step ode m session s.now)) }
        // Then they stand for what is there behind the machine's step; that is the same where it is refused or put off.
        ensures stands { (m : Interleaved) → StandsFor H.view K.holds K.live ode m self.old host.old
            → OnOk result (StandsFor H.view K.holds K.live ode (after_reply m (step ode m session s.now)) self.new host.new) }
        // The texts of what was settled are printed, each whole, in the order of settling.
        ensures printed { (m : Interleaved) → StandsFor H.view K.holds K.live ode m self.old host.old
            → OnOk result (Printed (texts_of (settlings (step ode m session s.now))) (H.view host.old) (H.view host.new)) }
        // A stop leaves the world that some of them left, and a front of the text up to the next one; whatever comes behind.
        ensures any_moment { (m : Interleaved) (said : Items ℕ) (more : Items Item) → StandsFor H.view K.holds K.live ode m self.old host.old → (H.view host.old).text ≡ Some said
            → LeavesOnly (H.view host.old) (H.view host.new) (IsAfterSome (HoldsBy ode K.means) (items_of (settlings (step ode m session s.now)) ++ more) m.world said) }
        // The host's faults are those that are told, whatever the records are.
        ensures leaves { HostCalls (IsErrOf result EngineError.DiskFault) (IsErrOf result EngineError.WriteFault) (H.view host.old) (H.view host.new) }
        ensures undamaged { OnDamaged result ((m : Interleaved) → StandsFor H.view K.holds K.live ode m self.old host.old → ⊥) }
        ensures live { OnOk result (IsLive K.live self.new) }
        ensures dead { OnErr result (self.new.live ≡ false) }
    {
        match self.rest.take() {
            Some(rest) => {
                let step = step_in(self.alloc, rest, host, &mut self.sessions, session, s);
                self.answer(step)
            }
            None => self.fail(EngineError::Memory),
        }
    }

    /// The entries of the queue run, where no session is open. How many ran.
    pub fn drain<H: Host>(&mut self, host: &mut H) -> Result<u32, EngineError>
    where
        K: Roomy<H>,
        requires live { IsLive K.live self.old }
        requires closed { self.old.sessions ≡ [] }
        ensures answer { (m : Interleaved) → StandsFor H.view K.holds K.live ode m self.old host.old → IfOk result (λ ran. ran ≡ length (drained lists drain_limit m.world)) }
        ensures stands { (m : Interleaved) → StandsFor H.view K.holds K.live ode m self.old host.old
            → OnOk result (StandsFor H.view K.holds K.live ode (closed_behind m (drained lists drain_limit m.world)) self.new host.new) }
        ensures printed { (m : Interleaved) → StandsFor H.view K.holds K.live ode m self.old host.old
            → OnOk result (Printed (texts_of (drained lists drain_limit m.world)) (H.view host.old) (H.view host.new)) }
        ensures any_moment { (m : Interleaved) (said : Items ℕ) (more : Items Item) → StandsFor H.view K.holds K.live ode m self.old host.old → (H.view host.old).text ≡ Some said
            → LeavesOnly (H.view host.old) (H.view host.new) (IsAfterSome (HoldsBy ode K.means) (items_of (drained lists drain_limit m.world) ++ more) m.world said) }
        ensures leaves { HostCalls (IsErrOf result EngineError.DiskFault) (IsErrOf result EngineError.WriteFault) (H.view host.old) (H.view host.new) }
        ensures undamaged { OnDamaged result ((m : Interleaved) → StandsFor H.view K.holds K.live ode m self.old host.old → ⊥) }
        ensures live { OnOk result (IsLive K.live self.new) }
        ensures dead { OnErr result (self.new.live ≡ false) }
    {
        let mut output = Output {
            quiet: false,
            counted: 0,
        };
        let mut log: Log = None;
        match self.rest.take() {
            Some(rest) => {
                let step = drain(self.alloc, rest, host, &mut output, &mut log, DRAIN_LIMIT);
                self.answer(step)
            }
            None => self.fail(EngineError::Memory),
        }
    }

    /// The end of the input: all open sessions are aborted, and the drain follows. How many transactions settled.
    pub fn finish<H: Host>(&mut self, host: &mut H) -> Result<u32, EngineError>
    where
        K: Roomy<H>,
        requires live { IsLive K.live self.old }
        ensures answer { (m : Interleaved) → StandsFor H.view K.holds K.live ode m self.old host.old → IfOk result (λ count. count ≡ length (finish m)) }
        ensures stands { (m : Interleaved) → StandsFor H.view K.holds K.live ode m self.old host.old
            → OnOk result (StandsFor H.view K.holds K.live ode (closed_behind m (finish m)) self.new host.new) }
        ensures printed { (m : Interleaved) → StandsFor H.view K.holds K.live ode m self.old host.old
            → OnOk result (Printed (texts_of (finish m)) (H.view host.old) (H.view host.new)) }
        ensures any_moment { (m : Interleaved) (said : Items ℕ) (more : Items Item) → StandsFor H.view K.holds K.live ode m self.old host.old → (H.view host.old).text ≡ Some said
            → LeavesOnly (H.view host.old) (H.view host.new) (IsAfterSome (HoldsBy ode K.means) (items_of (finish m) ++ more) m.world said) }
        ensures leaves { HostCalls (IsErrOf result EngineError.DiskFault) (IsErrOf result EngineError.WriteFault) (H.view host.old) (H.view host.new) }
        ensures undamaged { OnDamaged result ((m : Interleaved) → StandsFor H.view K.holds K.live ode m self.old host.old → ⊥) }
        ensures live { OnOk result (IsLive K.live self.new) }
        ensures dead { OnErr result (self.new.live ≡ false) }
    {
        match self.rest.take() {
            Some(rest) => {
                let step = finish_in(self.alloc, rest, host, &mut self.sessions);
                self.answer(step)
            }
            None => self.fail(EngineError::Memory),
        }
    }
}
