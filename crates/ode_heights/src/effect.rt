//! What actions do to heights.
ghost use Rattle.std.specs.Prelude.{◌≡◌};
ghost use Rattle.ode_heights.specs.Effects.{effect_of};

use ode_grammar::Action;

/// What an action does to the heights of the parts that were read.
#[derive(Clone, Copy, Debug, PartialEq, Eq)]
pub enum Effect {
    /// A leaf.
    Leaf,
    /// Brackets round an expression or an event.
    Pair,
    /// An operator over one part.
    Over,
    /// An operator over two parts.
    OverTwo,
    /// An operator over three parts.
    OverThree,
    /// The `&&` of a mask, over a kind and an expression.
    Mask,
    /// An expression where no brackets can come round it.
    Plain,
    /// A list or a statement that has no parts yet.
    Zero,
    /// A body that has no statements yet.
    Body,
    /// An expression that joins a list.
    Join,
    /// A body that joins a list.
    JoinBody,
    /// An expression and a body that join a list or a body.
    JoinBoth,
    /// A statement of two expressions.
    Two,
    /// A call by a reference, whose dot counts over the reference alone.
    Dotted,
    /// A statement that joins a body, which counts one over it.
    Append,
    /// Nothing.
    Nothing,
}

/// What an action does.
pub fn effect_of(action: Action) -> Effect
    ensures { result ≡ effect_of action }
{
    match action {
        Action::Variable | Action::Leaf | Action::Any | Action::First | Action::Unmasked =>
            Effect::Leaf,
        Action::Pair | Action::EventPair => Effect::Pair,
        Action::Version
        | Action::Sign
        | Action::Field
        | Action::NotEvent
        | Action::RelPlus
        | Action::Choose
        | Action::Every => Effect::Over,
        Action::Binary
        | Action::Relative
        | Action::Prior
        | Action::Sequence
        | Action::Pipe
        | Action::AndEvents
        | Action::OrEvents
        | Action::MaskedEvent => Effect::OverTwo,
        Action::Fa | Action::FaAbs => Effect::OverThree,
        Action::Masked => Effect::Mask,
        Action::Say
        | Action::Delete
        | Action::DropVersion
        | Action::NewVersion
        | Action::Return
        | Action::Plain => Effect::Plain,
        Action::Members
        | Action::Begin
        | Action::Commit
        | Action::Abort
        | Action::Clock
        | Action::Empty
        | Action::Sets
        | Action::TAbort
        | Action::Arguments
        | Action::ReturnNothing
        | Action::Absent => Effect::Zero,
        Action::Body => Effect::Body,
        Action::AddSet | Action::SoftConstraint | Action::Constraint | Action::Argument =>
            Effect::Join,
        Action::Method => Effect::JoinBody,
        Action::If | Action::Trigger => Effect::JoinBoth,
        Action::Deactivate => Effect::Two,
        Action::Activate | Action::Call => Effect::Dotted,
        Action::Append => Effect::Append,
        _ => Effect::Nothing,
    }
}
