//! The trees of classes and statements.
ghost use Rattle.std.specs.Prelude.{◌≡◌, ◌<◌, ◌^◌, length, IfOk, IfErr};
ghost use Rattle.ode_grammar.specs.declared.reader.Start.TheVariants as start;
ghost use Rattle.ode_lex.specs.Tokens.{lexed, Tokens};
ghost use Rattle.ode_terminals.specs.Seen.{place_of};
ghost use Rattle.ode_classyn.specs.Texts.{in_class, IsClassOf, IsStatementOf, IsUnlexed, IsWhyNot};

use ode_eventsyn::{SyntaxError, whole};
use ode_grammar::Start;
use ode_lex::{LexError, Token, tokens};
use ode_terminals::{Place, place_of};
use ode_value::{ClassDecl, List, Statement};
use std::alloc::Global;

/// The tokens of a text of fewer than 2^32 bytes.
pub fn lexed(alloc: Global, text: &[u8]) -> Result<List<Token>, SyntaxError>
    requires { length text.now < 2 ^ 32 }
    ensures ok { IfOk result (λ tokens. lexed text.now ≡ Tokens tokens) }
    ensures err { IfErr result (λ e. IsUnlexed text.now e) }
{
    match tokens(alloc, text) {
        Ok(found) => Ok(found),
        Err(LexError::Memory) => Err(SyntaxError::Memory),
        Err(LexError::NoToken { at }) => Err(SyntaxError::NoToken { at }),
    }
}

/// The class of a text of fewer than 2^32 bytes, in time linear in its tokens. It calls itself nowhere.
#[tactic(auto, using(crate::proofs::Causes::causes))]
pub fn parse_class(alloc: Global, text: &[u8]) -> Result<ClassDecl, SyntaxError>
    requires { length text.now < 2 ^ 32 }
    ensures ok { IfOk result (λ class. IsClassOf text.now class) }
    ensures err { IfErr result (λ e. IsWhyNot start.Class in_class text.now e) }
{
    let found = lexed(alloc, text)?;
    let made = whole(alloc, Start::Class, Place::Class, text, found.as_slice())?;
    let class = made.into_class(alloc)?;
    Ok(class)
}

/// The statement of a text of fewer than 2^32 bytes, with the semicolon that ends it, in time linear in its tokens. It calls itself nowhere.
#[tactic(auto, using(crate::proofs::Causes::causes))]
pub fn parse_statement(alloc: Global, text: &[u8]) -> Result<Statement, SyntaxError>
    requires { length text.now < 2 ^ 32 }
    ensures ok { IfOk result (λ statement. IsStatementOf text.now statement) }
    ensures err { IfErr result (λ e. IsWhyNot start.Statement place_of text.now e) }
{
    let found = lexed(alloc, text)?;
    let place = place_of(text, found.as_slice());
    let made = whole(alloc, Start::Statement, place, text, found.as_slice())?;
    Ok(made.into_statement())
}
