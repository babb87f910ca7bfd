//! What the rows of the grammar consist of.

use crate::terminal::Terminal;

/// A place of the grammar where the next token chooses how it goes on.
#[derive(Clone, Copy, Debug, PartialEq, Eq)]
pub enum Part {
    /// A statement of a script.
    Statement,
    /// The text of `clock`.
    ClockText,
    /// The statements of a body, up to its end.
    Inners,
    /// What follows a name that begins a statement of a body.
    InnerName,
    /// What follows `return`.
    ReturnValue,
    /// `else` and a body, or nothing.
    Else,
    /// A call by a reference: a chain, a dot, a name and arguments.
    Chained,
    /// What follows a dot and a name in such a call.
    CallDot,
    /// The fields that `pnew` sets.
    Sets,
    /// What follows such a field.
    MoreSets,
    /// What a statement of a body sets or shows, and its semicolon.
    Rhs,
    /// What a statement of a script shows, and its semicolon.
    ScriptRhs,
    /// What follows an atom that begins a right side.
    RhsDots,
    /// What follows a dot and a name there.
    RhsDot,
    /// What follows a name that begins the right side of a body's statement.
    RhsName,
    /// A class.
    Class,
    /// One more added field, any number of times.
    Additions,
    /// What an added field is in the objects that are there.
    Literal,
    /// The number behind a sign.
    Negative,
    /// `:` and the parent's name, or nothing.
    Parent,
    /// The members of a class, up to its end.
    Members,
    /// What follows the sort and the name of a field or a method.
    FieldOrMethod,
    /// What follows a kind in a list of them.
    MoreKinds,
    /// `initial` or nothing.
    Initial,
    /// `once`, `perpetual` or nothing.
    Lasting,
    /// `committed`, `whole` or nothing.
    Scope,
    /// The word that says when an action runs, or nothing.
    Mode,
    /// A sort of a value.
    Sort,
    /// Parameters, behind their bracket.
    Params,
    /// What follows the first parameter: the second one, or the bracket. Likewise for the next.
    SecondParam,
    ThirdParam,
    FourthParam,
    FifthParam,
    SixthParam,
    SeventhParam,
    EighthParam,
    NinthParam,
    TenthParam,
    EleventhParam,
    TwelfthParam,
    ThirteenthParam,
    FourteenthParam,
    FifteenthParam,
    SixteenthParam,
    /// What follows the first variable of a query and its class: the second one, or nothing. Likewise for the next.
    SecondRange,
    ThirdRange,
    FourthRange,
    /// `suchthat` and an expression, or nothing.
    SuchThat,
    /// `by` and expressions, or nothing.
    By,
    /// `,` and an expression, any number of times.
    MoreExprs,
    /// An event expression without `and` and `or`.
    EventUnary,
    /// `and` and such an expression, any number of times.
    EventAnds,
    /// `or` and expressions with `and`, any number of times.
    EventOrs,
    /// What follows two or more parts of `relative`. Likewise for the next.
    MoreRelative,
    MorePrior,
    MoreSequence,
    /// `&&` and a mask, or nothing.
    Mask,
    /// The same behind brackets round an event expression.
    EventMask,
    /// A kind of point.
    Kind,
    /// What follows `after`.
    AfterWhat,
    /// What follows `before`.
    BeforeWhat,
    /// What follows `time`.
    TimeWhat,
    /// A number of seconds.
    Period,
    /// An expression.
    Expr,
    /// An operand with its signs and fields.
    Unary,
    /// `.` and a name, any number of times.
    Dots,
    /// `*`, `/` or `%` and an operand, any number of times.
    Factors,
    /// `+` or `-` and a product, any number of times.
    Sums,
    /// A comparison's mark and a sum, or nothing.
    Compare,
    /// `&&` and a comparison, any number of times.
    Ands,
    /// `||` and a conjunction, any number of times.
    Ors,
    /// Arguments, behind their bracket.
    Args,
    /// What follows an argument.
    MoreArgs,
}

/// What is made of the parts that were read.
#[derive(Clone, Copy, Debug, PartialEq, Eq)]
pub enum Action {
    Members,
    Class,
    Change,
    Addition,
    Negative,
    Declare,
    Begin,
    Commit,
    Abort,
    Clock,
    Empty,
    Show,
    Simple,
    Say,
    Delete,
    DropVersion,
    Deactivate,
    Sets,
    New,
    Do,
    NewVersion,
    Activate,
    Variable,
    Call,
    Leaf,
    Pair,
    Version,
    Append,
    Let,
    Body,
    If,
    TAbort,
    Nothing,
    Set,
    Arguments,
    OwnCall,
    ReturnNothing,
    Sign,
    Return,
    Absent,
    Field,
    AddSet,
    Plain,
    Binary,
    Parent,
    NoParent,
    Sort,
    RefSort,
    VoidSort,
    Params,
    Method,
    SoftConstraint,
    Constraint,
    Kinds,
    Listed,
    Events,
    Trigger,
    FieldMember,
    Initial,
    NotInitial,
    Lasting,
    Once,
    Scope,
    Committed,
    Mode,
    Immediate,
    Param,
    NotEvent,
    EventPair,
    Any,
    First,
    Relative,
    RelPlus,
    Prior,
    Sequence,
    Pipe,
    Choose,
    Every,
    Fa,
    FaAbs,
    AndEvents,
    OrEvents,
    Masked,
    Unmasked,
    MaskedEvent,
    AfterCreate,
    AfterMethod,
    AfterTBegin,
    AfterTCommit,
    AfterTAbort,
    AfterNewVersion,
    BeforeDelete,
    BeforeDropVersion,
    BeforeMethod,
    BeforeTComplete,
    TimeAt,
    TimeEvery,
    Argument,
    /// A word that isn't reserved, which was kept as a name.
    DropWord,
}

/// A step of a row: a token of this class, a part, or an action.
#[derive(Clone, Copy, Debug, PartialEq, Eq)]
pub enum Item {
    Token(Terminal),
    Part(Part),
    Build(Action),
}
