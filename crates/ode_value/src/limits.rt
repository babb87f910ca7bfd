//! The limits of the machine, each once. The definitions have the same numbers in `specs/Limits.antt`.
ghost use Rattle.std.specs.Prelude.{◌≡◌};
ghost use Rattle.ode_value.specs.Limits as machine;

/// Bytes of a name.
pub const NAME_LIMIT: usize = 64;
/// Bytes of a text.
pub const TEXT_LIMIT: usize = 2048;
/// Calls of methods and actions, one inside the other.
pub const DEPTH_LIMIT: u8 = 32;
/// Statements that a transaction runs.
pub const BUDGET_LIMIT: u32 = 100_000;
/// Deferred firings of a transaction.
pub const CASCADE_LIMIT: u32 = 256;
/// Bytes of a transaction's text before its last lines.
pub const OUTPUT_LIMIT: usize = 1_048_576;
/// Records that a transaction changes.
pub const CHANGE_LIMIT: usize = 1024;
/// Bytes of a record's value.
pub const VALUE_LIMIT: usize = 3968;
/// Bytes of an activation's arguments.
pub const ARGS_LIMIT: usize = 768;
/// Bytes of all records but for the queue's entries.
pub const WEIGHT_LIMIT: u64 = 268_435_456;
/// The same in a file of the first format.
pub const FIRST_WEIGHT_LIMIT: u64 = 8_388_608;
/// The next number of an object or an activation, the next transaction's, and the next entry's.
pub const NUMBER_LIMIT: u64 = 4_611_686_018_427_387_904;
/// The next transaction's number in a file.
pub const TRANSACTION_LIMIT: u64 = 4_611_686_018_427_453_440;
/// An object's last version.
pub const VERSION_LIMIT: u32 = 4_294_967_295;
/// The generation of a firing that waits.
pub const GENERATION_LIMIT: u8 = 16;
/// Firings that wait.
pub const QUEUE_LIMIT: u32 = 4096;
/// Waiting firings that run behind one statement.
pub const DRAIN_LIMIT: u32 = 65_536;
/// The number of a `choose` or an `every`.
pub const CHOOSE_LIMIT: u16 = 65_535;
/// Symbols of a trigger.
pub const SYMBOL_LIMIT: u8 = 64;
/// Symbols that a refusal counts up to.
pub const COUNTED_SYMBOLS: u32 = 65_536;
/// States of a trigger.
pub const STATE_LIMIT: usize = 512;
/// Records of a class.
pub const CLASS_LIMIT: u32 = 1022;
/// Clock events that one command may find due.
pub const DUE_LIMIT: usize = 10_000;
/// Bytes of a statement.
pub const STATEMENT_LIMIT: usize = 65_536;
/// Bytes of a script.
pub const SCRIPT_LIMIT: usize = 67_108_864;
/// Sessions of a script of sessions.
pub const SESSION_LIMIT: u32 = 64;

/// The limits of the code are those of the definitions.
#[tactic(auto, unfolding(crate::specs::Limits::depth_limit, crate::specs::Limits::budget_limit, crate::specs::Limits::cascade_limit, crate::specs::Limits::output_limit, crate::specs::Limits::change_limit, crate::specs::Limits::value_limit, crate::specs::Limits::args_limit, crate::specs::Limits::version_limit, crate::specs::Limits::generation_limit, crate::specs::Limits::queue_limit, crate::specs::Limits::drain_limit, crate::specs::Limits::class_limit, crate::specs::Limits::due_limit, crate::specs::Limits::statement_limit, crate::specs::Limits::script_limit))]
pub fn limits_agree()
    ensures name { NAME_LIMIT ≡ machine.name_limit }
    ensures text { TEXT_LIMIT ≡ machine.text_limit }
    ensures depth { DEPTH_LIMIT ≡ machine.depth_limit }
    ensures budget { BUDGET_LIMIT ≡ machine.budget_limit }
    ensures cascade { CASCADE_LIMIT ≡ machine.cascade_limit }
    ensures output { OUTPUT_LIMIT ≡ machine.output_limit }
    ensures change { CHANGE_LIMIT ≡ machine.change_limit }
    ensures value { VALUE_LIMIT ≡ machine.value_limit }
    ensures args { ARGS_LIMIT ≡ machine.args_limit }
    ensures weight { WEIGHT_LIMIT ≡ machine.weight_limit }
    ensures first_weight { FIRST_WEIGHT_LIMIT ≡ machine.first_weight_limit }
    ensures number { NUMBER_LIMIT ≡ machine.number_limit }
    ensures transaction { TRANSACTION_LIMIT ≡ machine.transaction_limit }
    ensures version { VERSION_LIMIT ≡ machine.version_limit }
    ensures generation { GENERATION_LIMIT ≡ machine.generation_limit }
    ensures queue { QUEUE_LIMIT ≡ machine.queue_limit }
    ensures drain { DRAIN_LIMIT ≡ machine.drain_limit }
    ensures choose { CHOOSE_LIMIT ≡ machine.choose_limit }
    ensures symbol { SYMBOL_LIMIT ≡ machine.symbol_limit }
    ensures counted_symbols { COUNTED_SYMBOLS ≡ machine.counted_symbols }
    ensures state { STATE_LIMIT ≡ machine.state_limit }
    ensures class_records { CLASS_LIMIT ≡ machine.class_limit }
    ensures due { DUE_LIMIT ≡ machine.due_limit }
    ensures statement { STATEMENT_LIMIT ≡ machine.statement_limit }
    ensures script { SCRIPT_LIMIT ≡ machine.script_limit }
    ensures sessions { SESSION_LIMIT ≡ machine.session_limit }
{}
