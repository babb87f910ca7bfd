//! Operators of expressions.
ghost use Rattle.std.specs.Prelude.{◌≡◌, ◌↔◌, IsTrue};
ghost use Rattle.ode_value.specs.Same.{same_unary, same_binary};

/// An operator of one operand.
#[derive(Clone, Copy)]
pub enum UnOp {
    Minus,
    Not,
}

/// An operator of two operands.
#[derive(Clone, Copy)]
pub enum BinOp {
    Add,
    Sub,
    Mul,
    Div,
    Rem,
    Eq,
    Ne,
    Lt,
    Le,
    Gt,
    Ge,
    And,
    Or,
}

impl UnOp {
    /// Whether this is the other operator.
    pub fn same(self, other: UnOp) -> bool
        ensures same { IsTrue result ↔ (self ≡ other) }
        ensures test { result ≡ same_unary self other }
    {
        match self {
            UnOp::Minus => matches!(other, UnOp::Minus),
            UnOp::Not => matches!(other, UnOp::Not),
        }
    }
}

impl BinOp {
    /// Whether this is the other operator.
    pub fn same(self, other: BinOp) -> bool
        ensures same { IsTrue result ↔ (self ≡ other) }
        ensures test { result ≡ same_binary self other }
    {
        self as u8 == other as u8
    }
}
