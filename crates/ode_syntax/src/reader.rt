//! The trees of tokens that are a text.
ghost use Rattle.std.specs.Prelude.{◌≡◌, IfOk, OnOk, Some, None, map, true, false};
ghost use Rattle.ode_grammar.specs.Reading.{made_after, made_at_end, next};
ghost use Rattle.ode_syntax.specs.Kept.{spelled};
ghost use Rattle.ode_syntax.specs.Trees.{Makes, no_trees, trees};

use crate::trees::Trees;
use ode_grammar::{Item, Stack, Start, Terminal, after, items_of, skipped};
use ode_lex::{Token, TokenKind, slice_of};
use ode_terminals::{Place, terminal_of};
use std::alloc::{AllocError, Global};

// Goes on to what comes behind the token, where it can come.
fn advance(
    alloc: Global,
    items: &mut Stack<Item>,
    made: &mut Trees,
    terminal: Terminal,
    kind: TokenKind,
    bytes: &[u8],
) -> Result<bool, AllocError>
    ensures next { IfOk result (λ yes. yes ≡ true → next items.old terminal ≡ Some items.new) }
    ensures made { IfOk result (λ yes. yes ≡ true → made.new ≡ made_after trees items.old made.old (record { terminal = terminal; kind = kind; bytes = bytes.now })) }
    ensures refused { IfOk result (λ yes. yes ≡ false → next items.old terminal ≡ None) }
{
    while let Some(item) = items.pop() {
        match item {
            Item::Token(expected) => {
                if !terminal.stands_for(expected) {
                    return Ok(false);
                }
                made.keep(alloc, terminal, kind, bytes)?;
                return Ok(true);
            }
            Item::Build(action) => made.build(alloc, action)?,
            Item::Part(part) => match after(part, terminal) {
                Some(row) => {
                    items.push_all(row)?;
                    made.keep(alloc, terminal, kind, bytes)?;
                    return Ok(true);
                }
                None => match skipped(part) {
                    Some(action) => made.build(alloc, action)?,
                    None => return Ok(false),
                },
            },
        }
    }
    Ok(false)
}

// What is made at the end.
fn finish(alloc: Global, items: &mut Stack<Item>, made: &mut Trees) -> Result<(), AllocError>
    ensures { OnOk result (made.new ≡ made_at_end trees items.old made.old) }
{
    while let Some(item) = items.pop() {
        match item {
            Item::Token(_) => return Ok(()),
            Item::Build(action) => made.build(alloc, action)?,
            Item::Part(part) => {
                if let Some(action) = skipped(part) {
                    made.build(alloc, action)?;
                }
            }
        }
    }
    Ok(())
}

// What is made of the tokens, where nothing was made before.
fn read_into(
    alloc: Global,
    start: Start,
    place: Place,
    text: &[u8],
    tokens: &[Token],
    made: &mut Trees,
) -> Result<(), AllocError>
    requires { made.old ≡ no_trees }
    ensures { OnOk result ((read : Trees) → Makes start (map (spelled place text.now) tokens.now) read → made.new ≡ read) }
{
    let mut items = Stack::new(alloc);
    items.push_all(items_of(start))?;
    for at in 0..tokens.len() {
        let token = tokens[at];
        let terminal = terminal_of(place, text, token);
        let bytes = slice_of(text, token);
        if !advance(alloc, &mut items, made, terminal, token.kind, bytes)? {
            return Ok(());
        }
    }
    finish(alloc, &mut items, made)?;
    Ok(())
}

/// What is made of the tokens, where they are a text of this sort, in time linear in their number.
pub fn read(
    alloc: Global,
    start: Start,
    place: Place,
    text: &[u8],
    tokens: &[Token],
) -> Result<Trees, AllocError>
    ensures { IfOk result (λ read. (made : Trees) → Makes start (map (spelled place text.now) tokens.now) made → read ≡ made) }
{
    let mut made = Trees::new(alloc);
    match read_into(alloc, start, place, text, tokens, &mut made) {
        Ok(()) => Ok(made),
        Err(why) => {
            made.let_go();
            Err(why)
        }
    }
}
