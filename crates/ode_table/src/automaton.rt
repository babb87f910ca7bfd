//! Tables.
ghost use Rattle.std.specs.Prelude.{◌≡◌, ◌<◌, ◌*◌, ◌↔◌, EachIndex, IfSome, IsTrue, None, length, slice_index};
ghost use Rattle.ode_value.specs.Tables.{next_state, says_yes};
ghost use Rattle.ode_table.specs.Whole.{IsWhole};

use ode_value::List;
use std::marker::Model;

/// An automaton. States and symbols are numbered from 0, and state 0 is the start.
#[derive(Drop)]
pub struct Table {
    states: u16,
    symbols: u8,
    next: List<u16>,
    yes: List<bool>,
}

impl Model for Table {
    ghost use Rattle.ode_value.specs.Tables.{Table};
    ghost use Rattle.ode_table.specs.Whole.{IsWhole};

    ghost Value = { Table };

    ghost view = { λ t. record { states = t.states; symbols = t.symbols; next = t.next; yes = t.yes } };

    ghost invariant = { λ t. IsWhole (record { states = t.states; symbols = t.symbols; next = t.next; yes = t.yes }) };
}

fn are_below(numbers: &[u16], limit: u16) -> bool
    ensures { IsTrue result ↔ EachIndex numbers.now (λ k. slice_index numbers.now k < limit) }
{
    numbers.iter().all(|n| *n < limit)
}

impl Table {
    /// The table of these parts, where they fit each other: `next` has for each state in turn the state after it by each symbol
    /// in turn, and `yes` its answer.
    pub fn from_parts(states: u16, symbols: u8, next: List<u16>, yes: List<bool>) -> Option<Table>
        ensures some { IfSome result (λ t. t ≡ record { states = states; symbols = symbols; next = next; yes = yes }) }
        ensures whole { IfSome result IsWhole }
        ensures none { result ≡ None → IsWhole (record { states = states; symbols = symbols; next = next; yes = yes }) → ⊥ }
    {
        let rows = usize::from(states) * usize::from(symbols);
        if states == 0 || next.len() != rows || yes.len() != usize::from(states) {
            return None;
        }
        if !are_below(next.as_slice(), states) {
            return None;
        }
        Some(Table {
            states,
            symbols,
            next,
            yes,
        })
    }

    /// The same of parts that fit each other.
    pub(crate) fn of_parts(states: u16, symbols: u8, next: List<u16>, yes: List<bool>) -> Table
        requires { IsWhole (record { states = states; symbols = symbols; next = next; yes = yes }) }
        ensures { result ≡ record { states = states; symbols = symbols; next = next; yes = yes } }
    {
        Table {
            states,
            symbols,
            next,
            yes,
        }
    }

    /// How many states there are.
    pub fn states(&self) -> u16
        ensures value { result ≡ self.now.states }
        ensures some { 0 < result }
    {
        self.states
    }

    /// How many symbols there are.
    pub fn symbols(&self) -> u8
        ensures { result ≡ self.now.symbols }
    {
        self.symbols
    }

    /// The state after each state in turn, by each symbol in turn.
    pub fn rows(&self) -> &[u16]
        ensures rows { result.now ≡ self.now.next }
        ensures whole { IsWhole self.now }
    {
        self.next.as_slice()
    }

    /// The answer of each state in turn.
    pub fn answers(&self) -> &[bool]
        ensures { result.now ≡ self.now.yes }
    {
        self.yes.as_slice()
    }

    /// The state after one, by a symbol.
    pub fn next(&self, q: u16, s: u8) -> u16
        requires state { q < self.now.states }
        requires symbol { s < self.now.symbols }
        ensures value { result ≡ next_state self.now q s }
        ensures state { result < self.now.states }
    {
        self.next.as_slice()[usize::from(q) * usize::from(self.symbols) + usize::from(s)]
    }

    /// The same, and the start where there is no such state or symbol.
    #[tactic(auto, using(crate::proofs::Steps::next_at, crate::proofs::Steps::next_past))]
    pub fn step(&self, q: u16, s: u8) -> u16
        ensures { result ≡ next_state self.now q s }
    {
        let at = usize::from(q) * usize::from(self.symbols) + usize::from(s);
        match self.next.as_slice().get(at) {
            Some(state) => *state,
            None => 0,
        }
    }

    /// The answer of a state, and no where there is no such state.
    #[tactic(auto, using(crate::proofs::Steps::yes_at, crate::proofs::Steps::yes_past))]
    pub fn says(&self, q: u16) -> bool
        ensures { result ≡ says_yes self.now q }
    {
        match self.yes.as_slice().get(usize::from(q)) {
            Some(answer) => *answer,
            None => false,
        }
    }

    /// The answer of a state.
    pub fn yes(&self, q: u16) -> bool
        requires { q < self.now.states }
        ensures { result ≡ says_yes self.now q }
    {
        self.yes.as_slice()[usize::from(q)]
    }
}
