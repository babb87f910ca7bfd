//! What a run of sessions settles is serial. The law is carried by the contract of a function that does nothing.
ghost use Rattle.std.specs.Prelude.{◌≡◌, ℕ, List as Items};
ghost use Rattle.ode_begin.specs.Holds.{Holds};
ghost use Rattle.ode_interleaved_laws.specs.Serial.{runs_serially, serial_run};
ghost use Rattle.ode_language.specs.Languages.{ode};
ghost use Rattle.ode_run_laws.specs.Settled.{settled_of};
ghost use Rattle.ode_sessions.specs.Running.{items_from};
ghost use Rattle.ode_sessions.specs.Speaking.{spoken};
ghost use Rattle.ode_value.specs.Language.{ListWorld};

use ode_good_runs::runs_stay_good;
use ode_interleaved_laws::runs_of_sessions_are_serial;
use ode_language_laws::language_has_sound_rules;

/// What a script of sessions settles from a world that a file holds is what whole transactions do one after another, with drains where no
/// session is open.
pub(crate) fn sessions_settle_serially()
    ensures { (image script : Items ℕ) (w : ListWorld) → Holds image w → settled_of (items_from w script) ≡ runs_serially ode w (serial_run ode spoken w script) }
{
    runs_stay_good();
    language_has_sound_rules();
    runs_of_sessions_are_serial();
}
