//! An engine.
ghost use Rattle.std.specs.Prelude.{[], ◌≡◌, ◌++◌, ℕ, List as Items, Err, IfOk, IsErrOf, IsSome, None, OnErr, OnOk, Ok, Some, false, length, true};
ghost use Rattle.std.specs.Option.{option_map, unwrap_or};
ghost use Rattle.ode_change.specs.Changing.{HasChange};
ghost use Rattle.ode_language.specs.Texts.{HasText};
ghost use Rattle.ode_schema.specs.Parts.{AreAligned, AreFit};
ghost use Rattle.ode_engine.specs.Serving.{IsAnswer, IsLive, StandsFor, answer_to, done_in, opened_in, output_of, rest_in, running_in, session_after, settlings, state_in};
ghost use Rattle.ode_host.specs.Host.{HostCalls, LeavesOnly, Printed};
ghost use Rattle.ode_keep.specs.Entries.{Entries};
ghost use Rattle.ode_language.specs.Languages.{ode};
ghost use Rattle.ode_machine.specs.Commands.{after, changes, finish};
ghost use Rattle.ode_machine.specs.Moments.{IsAfterSome};
ghost use Rattle.ode_machine.specs.Runs.{Item};
ghost use Rattle.ode_machine.specs.Sessions.{Session};
ghost use Rattle.ode_transact.specs.Errors.{OnDamaged};
ghost use Rattle.ode_transact.specs.Items.{items_of, texts_of};
ghost use Rattle.ode_transact.specs.Logging.{DiskHas, HasGrown, Logs};
ghost use Rattle.ode_transact.specs.Output.{all_heard, counting};
ghost use Rattle.ode_transact.specs.Resting.{HoldsBy, resting_parts};
ghost use Rattle.ode_value.specs.Draining.{drain as drained};
ghost use Rattle.ode_value.specs.Limits.{drain_limit};
ghost use Rattle.ode_value.specs.Pasts.{lists};

use crate::commanding::{State, change_in, command_in, finish_in};
use ode_host::Host;
use ode_keep::Roomy;
use ode_opened::Opened;
use ode_transact::{Ctx, EngineError, Kept, Log, Output, drain, put_back};
use ode_value::limits::DRAIN_LIMIT;
use ode_value::{Change, List, Refusal, Statement};
use std::alloc::Global;

/// What a statement came to: so many settled transactions, or its refusal.
#[derive(Drop)]
pub enum Done {
    Settled(u32),
    Refused(Refusal),
}

// Another value stands in a place.
fn set<T: Drop>(place: &mut T, value: T)
    ensures { place.new ≡ value }
{
    *place = value;
}

/// An opened file, or the context of an open transaction over it; whether the texts of what settles are printed, and how many bytes they
/// had; whether it may be called: not after an error; and what is kept of what settled, where it is.
#[derive(Drop)]
pub struct Engine<K> {
    pub rest: Option<Opened<K>>,
    pub running: Option<Ctx<K>>,
    pub quiet: bool,
    pub counted: u64,
    pub live: bool,
    pub alloc: Global,
    pub log: Log,
}

impl<K: Drop> Engine<K> {
    /// An engine over an opened file. A quiet one prints none of the texts that it settles, and only counts them.
    pub fn start(alloc: Global, opened: Opened<K>, quiet: bool) -> Engine<K>
        requires fit { AreFit (resting_parts opened) }
        requires aligned { AreAligned (resting_parts opened) }
        ensures rest { (result.rest ≡ Some opened) × (result.running ≡ None) }
        ensures output { (result.quiet ≡ quiet) × (result.counted ≡ 0) }
        ensures log { result.log ≡ None }
        ensures live { result.live ≡ true }
    {
        Engine {
            rest: Some(opened),
            running: None,
            quiet,
            counted: 0,
            live: true,
            alloc,
            log: None,
        }
    }

    /// Whether it may be called: not after an error.
    pub fn live(&self) -> bool
        ensures { result ≡ self.now.live }
    {
        self.live
    }

    /// How many bytes the texts had that were settled so far, or 2^64 - 1 where these are more.
    pub fn counted(&self) -> u64
        ensures { result ≡ self.now.counted }
    {
        self.counted
    }

    /// From now on what settles is kept, and nothing is kept yet.
    pub fn keep_log(&mut self)
        ensures kept { self.new.log ≡ Some [] }
        ensures same { self.new ≡ record self.old { log = Some [] } }
    {
        self.log = Some(List::new(self.alloc));
    }

    /// What was kept since it was last taken, in order; nothing where it isn't kept. The log is empty then.
    pub fn take_log(&mut self) -> List<Kept>
        ensures taken { result ≡ unwrap_or self.old.log [] }
        ensures empty { self.new ≡ record self.old { log = option_map (λ _. []) self.old.log } }
    {
        match self.log.take() {
            Some(kept) => {
                self.log = Some(List::new(self.alloc));
                kept
            }
            None => List::new(self.alloc),
        }
    }

    /// The opened file back, with nothing of a transaction that is open. It takes no memory.
    pub fn into_opened(self) -> Opened<K>
        requires there { IsSome (opened_in self.rest self.running) }
        ensures { opened_in self.rest self.running ≡ Some result }
    {
        let Engine { rest, running, .. } = self;
        match rest {
            Some(rest) => rest,
            None => match running {
                Some(ctx) => put_back(ctx),
                None => unreachable!(),
            },
        }
    }

    // What it has from now on.
    fn put(&mut self, state: State<K>)
        ensures has { (self.new.rest ≡ rest_in state) × (self.new.running ≡ running_in state) }
        ensures same { self.new.live ≡ self.old.live }
        ensures output { output_of self.new ≡ output_of self.old }
        ensures log { self.new.log ≡ self.old.log }
    {
        match state {
            State::Rest(rest) => {
                set(&mut self.rest, Some(rest));
                set(&mut self.running, None);
            }
            State::Running(ctx) => {
                set(&mut self.rest, None);
                set(&mut self.running, Some(ctx));
            }
        }
    }

    // An error. The engine isn't live any more.
    fn fail<T>(&mut self, error: EngineError) -> Result<T, EngineError>
        ensures says { result ≡ Err error }
        ensures dead { self.new.live ≡ false }
        ensures output { output_of self.new ≡ output_of self.old }
        ensures log { self.new.log ≡ self.old.log }
    {
        self.live = false;
        Err(error)
    }

    // A call's answer. At an error the engine isn't live any more.
    fn answer(&mut self, step: Result<(State<K>, Done), EngineError>) -> Result<Done, EngineError>
        ensures says { result ≡ done_in step }
        ensures has { IfOk step (λ r. (self.new.rest ≡ rest_in r.0) × (self.new.running ≡ running_in r.0) × (self.new.live ≡ self.old.live)) }
        ensures dead { OnErr step (self.new.live ≡ false) }
        ensures output { output_of self.new ≡ output_of self.old }
        ensures log { self.new.log ≡ self.old.log }
    {
        match step {
            Ok((state, done)) => {
                self.put(state);
                Ok(done)
            }
            Err(error) => self.fail(error),
        }
    }

    // What it has is taken out.
    fn take(&mut self) -> Option<State<K>>
        ensures took { result ≡ state_in self.old.rest self.old.running }
        ensures same { self.new.live ≡ self.old.live }
        ensures output { output_of self.new ≡ output_of self.old }
        ensures log { self.new.log ≡ self.old.log }
    {
        match self.rest.take() {
            Some(rest) => Some(State::Rest(rest)),
            None => match self.running.take() {
                Some(ctx) => Some(State::Running(ctx)),
                None => None,
            },
        }
    }

    /// A statement is carried out, or refused.
    pub fn command<H: Host>(&mut self, host: &mut H, s: &Statement) -> Result<Done, EngineError>
    where
        K: Roomy<H>,
        requires live { IsLive K.live self.old }
        requires text { HasText ode s.now }
        // It is refused exactly where the machine refuses it, and else as many transactions are settled as the machine settles.
        ensures answer { (session : Session) → StandsFor H.view K.holds K.live ode session self.old host.old → IfOk result (λ done. IsAnswer done (answer_to ode session s.now)) }
        // Then it stands for the session behind the machine's answer; at a refusal that is the same one.
        ensures stands { (session : Session) → StandsFor H.view K.holds K.live ode session self.old host.old
            → OnOk result (StandsFor H.view K.holds K.live ode (session_after session (answer_to ode session s.now)) self.new host.new) }
        // The texts of what was settled are printed, unless it is quiet, and nothing at a refusal; and they are counted.
        ensures printed { (session : Session) → StandsFor H.view K.holds K.live ode session self.old host.old
            → OnOk result (Printed (texts_of (all_heard self.old.quiet (settlings (answer_to ode session s.now)))) (H.view host.old) (H.view host.new)) }
        ensures counts { (session : Session) → StandsFor H.view K.holds K.live ode session self.old host.old
            → OnOk result (output_of self.new ≡ counting (output_of self.old) (texts_of (settlings (answer_to ode session s.now)))) }
        // They are kept in the log, where there is one: numbers, and changes that leave the machine's worlds one behind the other.
        ensures logs { (session : Session) (entries : Entries) → StandsFor H.view K.holds K.live ode session self.old host.old → DiskHas K.means entries (H.view host.old)
            → OnOk result (Logs K.means ode session.world entries (settlings (answer_to ode session s.now)) self.old.log self.new.log (H.view host.new)) }
        ensures grown { HasGrown self.old.log self.new.log }
        // A stop leaves the world that some of them left, and a front of what is printed up to the next one; whatever comes behind.
        ensures any_moment { (session : Session) (said : Items ℕ) (more : Items Item) → StandsFor H.view K.holds K.live ode session self.old host.old → (H.view host.old).text ≡ Some said
            → LeavesOnly (H.view host.old) (H.view host.new) (IsAfterSome (HoldsBy ode K.means) (items_of (all_heard self.old.quiet (settlings (answer_to ode session s.now))) ++ more) session.world said) }
        // The host's faults are those that are told, whatever the records are.
        ensures leaves { HostCalls (IsErrOf result EngineError.DiskFault) (IsErrOf result EngineError.WriteFault) (H.view host.old) (H.view host.new) }
        // No record is damaged where it stands for a session.
        ensures undamaged { OnDamaged result ((session : Session) → StandsFor H.view K.holds K.live ode session self.old host.old → ⊥) }
        ensures live { OnOk result (IsLive K.live self.new) }
        ensures dead { OnErr result (self.new.live ≡ false) }
        // It stays as quiet as it is, also at an error.
        ensures quiet { self.new.quiet ≡ self.old.quiet }
    {
        let mut output = Output {
            quiet: self.quiet,
            counted: self.counted,
        };
        match self.take() {
            Some(state) => {
                let step = command_in(self.alloc, state, host, &mut output, &mut self.log, s);
                self.counted = output.counted;
                self.answer(step)
            }
            None => self.answer(Err(EngineError::Memory)),
        }
    }

    /// A class gets fields, or the change is refused.
    pub fn change<H: Host>(&mut self, host: &mut H, c: &Change) -> Result<Done, EngineError>
    where
        K: Roomy<H>,
        requires live { IsLive K.live self.old }
        // The change has a text.
        requires text { HasChange ode c.now }
        // It is refused exactly where the machine refuses it, and else as many transactions are settled as the machine settles.
        ensures answer { (session : Session) → StandsFor H.view K.holds K.live ode session self.old host.old → IfOk result (λ done. IsAnswer done (changes ode session c.now)) }
        // Then it stands for the session behind the machine's answer; at a refusal that is the same one.
        ensures stands { (session : Session) → StandsFor H.view K.holds K.live ode session self.old host.old
            → OnOk result (StandsFor H.view K.holds K.live ode (session_after session (changes ode session c.now)) self.new host.new) }
        // The texts of what was settled are printed, unless it is quiet, and nothing at a refusal; and they are counted.
        ensures printed { (session : Session) → StandsFor H.view K.holds K.live ode session self.old host.old
            → OnOk result (Printed (texts_of (all_heard self.old.quiet (settlings (changes ode session c.now)))) (H.view host.old) (H.view host.new)) }
        ensures counts { (session : Session) → StandsFor H.view K.holds K.live ode session self.old host.old
            → OnOk result (output_of self.new ≡ counting (output_of self.old) (texts_of (settlings (changes ode session c.now)))) }
        // They are kept in the log, where there is one: numbers, and changes that leave the machine's worlds one behind the other.
        ensures logs { (session : Session) (entries : Entries) → StandsFor H.view K.holds K.live ode session self.old host.old → DiskHas K.means entries (H.view host.old)
            → OnOk result (Logs K.means ode session.world entries (settlings (changes ode session c.now)) self.old.log self.new.log (H.view host.new)) }
        ensures grown { HasGrown self.old.log self.new.log }
        // A stop leaves the world that some of them left, and a front of what is printed up to the next one; whatever comes behind.
        ensures any_moment { (session : Session) (said : Items ℕ) (more : Items Item) → StandsFor H.view K.holds K.live ode session self.old host.old → (H.view host.old).text ≡ Some said
            → LeavesOnly (H.view host.old) (H.view host.new) (IsAfterSome (HoldsBy ode K.means) (items_of (all_heard self.old.quiet (settlings (changes ode session c.now))) ++ more) session.world said) }
        // The host's faults are those that are told, whatever the records are.
        ensures leaves { HostCalls (IsErrOf result EngineError.DiskFault) (IsErrOf result EngineError.WriteFault) (H.view host.old) (H.view host.new) }
        // No record is damaged where it stands for a session.
        ensures undamaged { OnDamaged result ((session : Session) → StandsFor H.view K.holds K.live ode session self.old host.old → ⊥) }
        ensures live { OnOk result (IsLive K.live self.new) }
        ensures dead { OnErr result (self.new.live ≡ false) }
        // It stays as quiet as it is, also at an error.
        ensures quiet { self.new.quiet ≡ self.old.quiet }
    {
        let mut output = Output {
            quiet: self.quiet,
            counted: self.counted,
        };
        match self.take() {
            Some(state) => {
                let step = change_in(self.alloc, state, host, &mut output, &mut self.log, c);
                self.counted = output.counted;
                self.answer(step)
            }
            None => self.answer(Err(EngineError::Memory)),
        }
    }

    /// The entries of the queue run, where no transaction is open. How many ran.
    pub fn drain<H: Host>(&mut self, host: &mut H) -> Result<u32, EngineError>
    where
        K: Roomy<H>,
        requires live { IsLive K.live self.old }
        requires closed { self.old.running ≡ None }
        // As many as the machine runs, and then it stands for the session behind them; their texts are printed, unless it is quiet, and counted.
        ensures answer { (session : Session) → StandsFor H.view K.holds K.live ode session self.old host.old → IfOk result (λ ran. ran ≡ length (drained lists drain_limit session.world)) }
        ensures stands { (session : Session) → StandsFor H.view K.holds K.live ode session self.old host.old
            → OnOk result (StandsFor H.view K.holds K.live ode (after session.world (drained lists drain_limit session.world)).0 self.new host.new) }
        ensures printed { (session : Session) → StandsFor H.view K.holds K.live ode session self.old host.old
            → OnOk result (Printed (texts_of (all_heard self.old.quiet (drained lists drain_limit session.world))) (H.view host.old) (H.view host.new)) }
        ensures counts { (session : Session) → StandsFor H.view K.holds K.live ode session self.old host.old
            → OnOk result (output_of self.new ≡ counting (output_of self.old) (texts_of (drained lists drain_limit session.world))) }
        // They are kept in the log, where there is one: numbers, and changes that leave the machine's worlds one behind the other.
        ensures logs { (session : Session) (entries : Entries) → StandsFor H.view K.holds K.live ode session self.old host.old → DiskHas K.means entries (H.view host.old)
            → OnOk result (Logs K.means ode session.world entries (drained lists drain_limit session.world) self.old.log self.new.log (H.view host.new)) }
        ensures grown { HasGrown self.old.log self.new.log }
        ensures any_moment { (session : Session) (said : Items ℕ) (more : Items Item) → StandsFor H.view K.holds K.live ode session self.old host.old → (H.view host.old).text ≡ Some said
            → LeavesOnly (H.view host.old) (H.view host.new) (IsAfterSome (HoldsBy ode K.means) (items_of (all_heard self.old.quiet (drained lists drain_limit session.world)) ++ more) session.world said) }
        // The host's faults are those that are told, whatever the records are.
        ensures leaves { HostCalls (IsErrOf result EngineError.DiskFault) (IsErrOf result EngineError.WriteFault) (H.view host.old) (H.view host.new) }
        // No record is damaged where it stands for a session.
        ensures undamaged { OnDamaged result ((session : Session) → StandsFor H.view K.holds K.live ode session self.old host.old → ⊥) }
        ensures live { OnOk result (IsLive K.live self.new) }
        ensures dead { OnErr result (self.new.live ≡ false) }
        // It stays as quiet as it is, also at an error.
        ensures quiet { self.new.quiet ≡ self.old.quiet }
    {
        let mut output = Output {
            quiet: self.quiet,
            counted: self.counted,
        };
        match self.rest.take() {
            Some(rest) => match drain(
                self.alloc,
                rest,
                host,
                &mut output,
                &mut self.log,
                DRAIN_LIMIT,
            ) {
                Ok((rest, ran)) => {
                    self.counted = output.counted;
                    self.put(State::Rest(rest));
                    Ok(ran)
                }
                Err(error) => {
                    self.counted = output.counted;
                    self.fail(error)
                }
            },
            None => self.fail(EngineError::Memory),
        }
    }

    /// The end of the input: an open transaction is aborted, and the drain follows.
    pub fn finish<H: Host>(&mut self, host: &mut H) -> Result<Done, EngineError>
    where
        K: Roomy<H>,
        requires live { IsLive K.live self.old }
        ensures answer { (session : Session) → StandsFor H.view K.holds K.live ode session self.old host.old → IfOk result (λ done. IsAnswer done (Ok (finish session))) }
        ensures stands { (session : Session) → StandsFor H.view K.holds K.live ode session self.old host.old
            → OnOk result (StandsFor H.view K.holds K.live ode (finish session).0 self.new host.new) }
        ensures printed { (session : Session) → StandsFor H.view K.holds K.live ode session self.old host.old
            → OnOk result (Printed (texts_of (all_heard self.old.quiet (finish session).1)) (H.view host.old) (H.view host.new)) }
        ensures counts { (session : Session) → StandsFor H.view K.holds K.live ode session self.old host.old
            → OnOk result (output_of self.new ≡ counting (output_of self.old) (texts_of (finish session).1)) }
        // They are kept in the log, where there is one: numbers, and changes that leave the machine's worlds one behind the other.
        ensures logs { (session : Session) (entries : Entries) → StandsFor H.view K.holds K.live ode session self.old host.old → DiskHas K.means entries (H.view host.old)
            → OnOk result (Logs K.means ode session.world entries (finish session).1 self.old.log self.new.log (H.view host.new)) }
        ensures grown { HasGrown self.old.log self.new.log }
        ensures any_moment { (session : Session) (said : Items ℕ) (more : Items Item) → StandsFor H.view K.holds K.live ode session self.old host.old → (H.view host.old).text ≡ Some said
            → LeavesOnly (H.view host.old) (H.view host.new) (IsAfterSome (HoldsBy ode K.means) (items_of (all_heard self.old.quiet (finish session).1) ++ more) session.world said) }
        // The host's faults are those that are told, whatever the records are.
        ensures leaves { HostCalls (IsErrOf result EngineError.DiskFault) (IsErrOf result EngineError.WriteFault) (H.view host.old) (H.view host.new) }
        // No record is damaged where it stands for a session.
        ensures undamaged { OnDamaged result ((session : Session) → StandsFor H.view K.holds K.live ode session self.old host.old → ⊥) }
        ensures live { OnOk result (IsLive K.live self.new) }
        ensures dead { OnErr result (self.new.live ≡ false) }
        // It stays as quiet as it is, also at an error.
        ensures quiet { self.new.quiet ≡ self.old.quiet }
    {
        let mut output = Output {
            quiet: self.quiet,
            counted: self.counted,
        };
        match self.take() {
            Some(state) => {
                let step = finish_in(self.alloc, state, host, &mut output, &mut self.log);
                self.counted = output.counted;
                self.answer(step)
            }
            None => self.answer(Err(EngineError::Memory)),
        }
    }
}
