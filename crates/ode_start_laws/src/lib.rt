//! A file that was opened is one on which an engine may start: a law of definitions, carried by the contract of a function that does
//! nothing.
#![tactic(auto)]

ghost use Rattle.std.specs.Prelude.{◌≡◌, ℕ, Bool, List as Items, Ok, true};
ghost use Rattle.ode_keep.specs.Entries.{Entries};
ghost use Rattle.ode_language.specs.Languages.{ode};
ghost use Rattle.ode_open.specs.Opening.{base_in};
ghost use Rattle.ode_opening_records.specs.Reading.{AreOpened};
ghost use Rattle.ode_schema.specs.Parts.{AreFit};
ghost use Rattle.ode_transact.specs.Resting.{HoldsBy, IsAtRest, resting_parts};
ghost use Rattle.ode_value.specs.Language.{ListWorld};

use ode_host::Host;
use ode_keep::Keep;
use ode_opened::Opened;
use ode_resting_laws::opened_records_show_their_world;

/// Of an image that holds a world an opened file is at rest in this world: it was opened to the image's records, which its keeper holds, the
/// keeper may be used, and its lists fit.
pub fn opened_files_are_at_rest<H: Host, K: Keep<H>>(opened: &Opened<K>, host: &H)
    ensures { (image : Items ℕ) (w : ListWorld) (entries : Entries) (first : Bool) → HoldsBy ode K.means image w
        → K.means image entries → K.holds opened.now.keeper (H.view host.now) entries → AreOpened first ode entries (Ok (base_in opened.now))
        → K.live opened.now.keeper ≡ true → AreFit (resting_parts opened.now) → IsAtRest H.view K.holds K.live ode w opened.now host.now }
{
    opened_records_show_their_world();
}
