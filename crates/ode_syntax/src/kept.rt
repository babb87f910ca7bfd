//! What tokens add.
ghost use Rattle.std.specs.Prelude.{◌≡◌, OnOk};
ghost use Rattle.ode_grammar.specs.Terminals.{named};
ghost use Rattle.ode_syntax.specs.Kept.{kept_as};

use crate::trees::Trees;
use crate::words::{leaf_of, mode_of, name_of, sort_of};
use ode_grammar::Terminal;
use ode_lex::TokenKind;
use std::alloc::{AllocError, Global};

impl Trees {
    /// Keeps what a token says, by what the grammar sees of it.
    #[tactic(auto, unfolding(crate::specs::Kept::kept_as))]
    pub fn keep(
        &mut self,
        alloc: Global,
        terminal: Terminal,
        kind: TokenKind,
        bytes: &[u8],
    ) -> Result<(), AllocError>
        ensures { OnOk result (self.new ≡ kept_as (named terminal) kind bytes.now self.old) }
    {
        match terminal.named() {
            Terminal::Name => {
                let name = name_of(alloc, bytes)?;
                self.names.push(name)
            }
            Terminal::Leaf
            | Terminal::Number
            | Terminal::Seconds
            | Terminal::Count
            | Terminal::Text
            | Terminal::Instant => {
                let leaf = leaf_of(alloc, kind, bytes)?;
                self.leaves.push(leaf)
            }
            Terminal::Not
            | Terminal::Minus
            | Terminal::Plus
            | Terminal::Times
            | Terminal::Compares
            | Terminal::AndAnd
            | Terminal::OrOr => match kind {
                TokenKind::Mark(mark) => self.marks.push(mark),
                _ => Ok(()),
            },
            Terminal::SortWord => self.sorts.push(sort_of(bytes)),
            Terminal::Lasting => self.flags.push(bytes == b"perpetual".as_slice()),
            Terminal::Scope => self.flags.push(bytes == b"whole".as_slice()),
            Terminal::Mode => self.modes.push(mode_of(bytes)),
            _ => Ok(()),
        }
    }
}
