//! Why a declaration gives no class.
use ode_value::Refusal;
use std::alloc::AllocError;

/// Why a declaration gives no class.
#[derive(Drop)]
pub enum CompileStop {
    Memory,
    /// The first refusal of the declaration.
    Refused(Refusal),
}

impl From<AllocError> for CompileStop {
    ghost use Rattle.std.specs.Prelude.{◌≡◌};
    ghost use Rattle.ode_compile.specs.declared.stop.CompileStop.TheVariants.{Memory};

    ghost from_gives = { λ _ e. e ≡ Memory };

    fn from(_: AllocError) -> CompileStop {
        CompileStop::Memory
    }
}
