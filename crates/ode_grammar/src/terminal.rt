//! What the grammar tells apart of the tokens.
ghost use Rattle.std.specs.Prelude.{◌≡◌};
ghost use Rattle.ode_grammar.specs.Terminals.{named, same_terminal, stands_for};

/// What the grammar sees of a token: a class of tokens that stand at the same places. A mark or a word that has a place of its own is a class alone.
#[derive(Clone, Copy, Debug, PartialEq, Eq)]
pub enum Terminal {
    /// `true`, `false`, `null`, and where it may stand `this` or a reference.
    Leaf,
    /// A number that is 0 or above 2^32 - 1.
    Number,
    /// A number from 65,536 to 2^32 - 1.
    Seconds,
    /// A number from 1 to 65,535.
    Count,
    /// A text that is no instant.
    Text,
    /// A text that is an instant.
    Instant,
    /// A word that isn't reserved.
    Name,
    /// `this` or a reference where it can't stand.
    Stray,
    OpenBrace,
    CloseBrace,
    OpenParen,
    CloseParen,
    Semi,
    Comma,
    Dot,
    Colon,
    Assign,
    Arrow,
    Not,
    Minus,
    Plus,
    /// `*`, `/` or `%`.
    Times,
    /// `==`, `!=`, `<`, `<=`, `>` or `>=`.
    Compares,
    AndAnd,
    OrOr,
    Abort,
    Activate,
    After,
    And,
    Any,
    At,
    Before,
    Begin,
    /// `by`, which isn't reserved: a name but where a part of a query begins. Likewise `for`, `in` and `suchthat`.
    By,
    /// `change`, which isn't reserved: a name but where a change of a class begins.
    Change,
    Choose,
    Class,
    Clock,
    Commit,
    Constraint,
    Create,
    Deactivate,
    Delete,
    DropVersion,
    Else,
    Event,
    Every,
    Fa,
    /// `faabs`, which isn't reserved: a name but where an event expression begins. Likewise `pipe` and `relplus`.
    FaAbs,
    First,
    For,
    If,
    In,
    Initial,
    /// `once` or `perpetual`.
    Lasting,
    Let,
    /// `immediate`, `deferred`, `dependent` or `independent`.
    Mode,
    NewVersion,
    Or,
    PDelete,
    Pipe,
    PNew,
    Prior,
    Ref,
    Relative,
    RelPlus,
    Return,
    /// `same`, which isn't reserved: a name but where a comparison begins.
    Same,
    Say,
    /// `committed` or `whole`.
    Scope,
    Sequence,
    Show,
    Soft,
    /// `int`, `bool` or `text`.
    SortWord,
    SuchThat,
    TAbort,
    TBegin,
    TCommit,
    TComplete,
    Time,
    Trigger,
    Version,
    Void,
}

impl Terminal {
    /// Whether the two are one.
    pub fn is(self, other: Terminal) -> bool
        ensures { result ≡ same_terminal self other }
    {
        self as u8 == other as u8
    }
    /// The same, but as a name where the word isn't reserved.
    pub fn named(self) -> Terminal
        ensures { result ≡ named self }
    {
        match self {
            Terminal::By
            | Terminal::Change
            | Terminal::FaAbs
            | Terminal::For
            | Terminal::In
            | Terminal::Pipe
            | Terminal::RelPlus
            | Terminal::Same
            | Terminal::SuchThat => Terminal::Name,
            other => other,
        }
    }

    /// Whether it stands where the other is asked for: as itself or as a name.
    pub fn stands_for(self, other: Terminal) -> bool
        ensures { result ≡ stands_for self other }
    {
        self.is(other) || self.named().is(other)
    }
}
