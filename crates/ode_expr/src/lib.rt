//! What expressions come to, over whatever holds the objects.
#![tactic(auto)]

mod evaluation;
mod frame;
mod operators;
mod stop;

pub use evaluation::eval;
pub use frame::Frame;
pub use operators::{binary, misread, unary};
pub use stop::EvalStop;
