//! Why a statement is refused: its place, a number for its transaction, what its literals denote, and the static rules.
ghost use Rattle.std.specs.Prelude.{◌≡◌, Err, IsErrOf, IsTrue, Ok, Option, cond, not, true};
ghost use Rattle.std.specs.Option.{IfSome, option_map};
ghost use Rattle.ode_engine.specs.Refusing.{Answers, KeepsChecked, LeavesChecked};
ghost use Rattle.ode_heap.specs.Answering.{head_of_object};
ghost use Rattle.ode_language.specs.Languages.{ode};
ghost use Rattle.ode_machine.specs.Refusals.{checked_in, class_behind, classes_behind, is_lone, place_of};
ghost use Rattle.ode_transact.specs.Contexts.{ContextRuns, parts_of};
ghost use Rattle.ode_schema.specs.Parts.{AreFit};
ghost use Rattle.ode_types.specs.Literals.{literals};
ghost use Rattle.ode_types.specs.Static.{check_statement};
ghost use Rattle.ode_value.specs.Answers.{checks};
ghost use Rattle.ode_value.specs.Denoting.{object_of};
ghost use Rattle.ode_value.specs.Language.{Language, ListTx, ListWorld};
ghost use Rattle.ode_value.specs.Worlds.{Object};
ghost use Rattle.ode_versions.specs.Versions.{IsVersionList};

use ode_checker::{check_statement, literals};
use ode_heap::ObjectHead;
use ode_host::Host;
use ode_keep::Keep;
use ode_transact::{Ctx, EngineError, fault_of, head};
use ode_types::{CheckStop, Classes};
use ode_value::{Boxed, List, Ref, Refusal, Statement, Stmt};
use std::alloc::{AllocError, Global};

/// Why a statement isn't carried out.
#[derive(Drop)]
pub enum Turned {
    /// It is refused.
    Refused(Refusal),
    /// Its call ends by an error.
    Stopped(EngineError),
}

impl From<AllocError> for Turned {
    ghost use Rattle.ode_transact.specs.declared.error.EngineError.TheVariants.{Memory};
    ghost use Rattle.ode_engine.specs.declared.refusing.Turned.TheVariants.{Stopped};

    ghost from_gives = { λ _ t. t ≡ Stopped Memory };

    fn from(_: AllocError) -> Self {
        Turned::Stopped(EngineError::Memory)
    }
}

fn refuses<W: Drop>(when: bool, why: W) -> Result<(), W>
    ensures { result ≡ cond when (Err why) (Ok tt) }
{
    if when { Err(why) } else { Ok(()) }
}

/// Whether a statement stands in its place, inside a transaction or outside.
pub fn place_of(s: &Statement, inside: bool) -> Result<(), Refusal>
    ensures { result ≡ place_of s.now inside }
{
    match s {
        Statement::Begin | Statement::Class(_) | Statement::Clock(_) => {
            refuses(inside, Refusal::InTransaction)
        }
        Statement::Commit | Statement::Abort => refuses(!inside, Refusal::NoTransaction),
        Statement::Empty | Statement::Simple(_) => Ok(()),
    }
}

/// Whether a statement takes a number for a transaction, outside one.
pub(crate) fn takes_number(s: &Statement) -> bool
    ensures { result ≡ not (is_lone s.now) }
{
    !matches!(s, Statement::Empty)
}

// The class of a literal, which denotes a version.
fn class_behind(of: Ref, found: &Option<ObjectHead>) -> Result<u32, Refusal>
    requires { IfSome found.now (λ head. IsVersionList head.versions) }
    ensures { (o : Option Object) → found.now ≡ option_map head_of_object o → result ≡ class_behind of o }
{
    match found {
        Some(head) => match head.versions.find(of.version) {
            Some(_) => Ok(head.class),
            None => Err(Refusal::NoVersion(of)),
        },
        None => Err(Refusal::NoObject(of.object)),
    }
}

// That of one, where this is found under the number of its object.
fn class_there(of: Ref, found: &Option<ObjectHead>) -> Result<u32, Turned>
    requires { IfSome found.now (λ head. IsVersionList head.versions) }
    ensures answers { (o : Option Object) → found.now ≡ option_map head_of_object o → Answers result (class_behind of o) }
    ensures calm { (error : EngineError) → IsErrOf result (Turned.Stopped error) → error ≡ EngineError.Memory }
{
    match class_behind(of, found) {
        Ok(class) => Ok(class),
        Err(why) => Err(Turned::Refused(why)),
    }
}

// That of one, looked up in the world now.
fn class_of<H: Host, K: Keep<H>>(ctx: &mut Ctx<K>, host: &mut H, of: &Ref) -> Result<u32, Turned>
    requires live { IsTrue (K.live ctx.old.heap) }
    requires fit { AreFit (parts_of ctx.old) }
    ensures answers { (l : Language) (w : ListWorld) (t : ListTx) → ContextRuns H.view K.holds K.live l w ctx.old host.old t
        → Answers result (class_behind of.now (object_of t.now.bones of.now)) }
    ensures keeps { (l : Language) (w : ListWorld) (t : ListTx) → ContextRuns H.view K.holds K.live l w ctx.old host.old t
        → KeepsChecked result (ContextRuns H.view K.holds K.live l w ctx.new host.new t) }
    ensures leaves { LeavesChecked result (K.live ctx.new.heap ≡ true) (H.view host.old) (H.view host.new) }
    ensures same { parts_of ctx.new ≡ parts_of ctx.old }
{
    if of.object == 0 {
        return Err(Turned::Refused(Refusal::NoObject(0)));
    }
    match head(ctx, host, of.object) {
        Ok(found) => class_there(*of, &found),
        Err(stop) => Err(Turned::Stopped(fault_of(stop))),
    }
}

// Those of a statement's literals, or the refusal of the first that denotes nothing.
fn classes_behind<H: Host, K: Keep<H>>(
    alloc: Global,
    ctx: &mut Ctx<K>,
    host: &mut H,
    refs: &[Ref],
) -> Result<List<(Ref, u32)>, Turned>
    requires live { IsTrue (K.live ctx.old.heap) }
    requires fit { AreFit (parts_of ctx.old) }
    ensures answers { (l : Language) (w : ListWorld) (t : ListTx) → ContextRuns H.view K.holds K.live l w ctx.old host.old t
        → Answers result (classes_behind t.now.bones refs.now) }
    ensures keeps { (l : Language) (w : ListWorld) (t : ListTx) → ContextRuns H.view K.holds K.live l w ctx.old host.old t
        → KeepsChecked result (ContextRuns H.view K.holds K.live l w ctx.new host.new t) }
    ensures leaves { LeavesChecked result (K.live ctx.new.heap ≡ true) (H.view host.old) (H.view host.new) }
    ensures same { parts_of ctx.new ≡ parts_of ctx.old }
{
    let mut classes = List::new(alloc);
    for of in refs {
        let class = class_of(ctx, host, of)?;
        classes.push((*of, class))?;
    }
    Ok(classes)
}

// A value in a box.
fn boxed<T: Drop>(alloc: Global, value: T) -> Result<Boxed<T>, Turned>
    ensures answers { Answers result (Ok value) }
    ensures calm { (error : EngineError) → IsErrOf result (Turned.Stopped error) → error ≡ EngineError.Memory }
{
    Ok(Boxed::new(alloc, value)?)
}

// The static rules.
fn by_rules(
    alloc: Global,
    known: &Classes,
    classes: &List<(Ref, u32)>,
    s: &Stmt,
) -> Result<Boxed<Stmt>, Turned>
    ensures answers { Answers result (checks (check_statement known.now classes.now s.now)) }
    ensures calm { (error : EngineError) → IsErrOf result (Turned.Stopped error) → error ≡ EngineError.Memory }
{
    match check_statement(alloc, known, classes, s) {
        Ok(s) => boxed(alloc, s),
        Err(CheckStop::Memory) => Err(Turned::Stopped(EngineError::Memory)),
        Err(CheckStop::Broken(broken)) => Err(Turned::Refused(Refusal::Check(broken))),
    }
}

// The classes of a statement's literals.
fn behind_literals<H: Host, K: Keep<H>>(
    alloc: Global,
    ctx: &mut Ctx<K>,
    host: &mut H,
    s: &Stmt,
) -> Result<List<(Ref, u32)>, Turned>
    requires live { IsTrue (K.live ctx.old.heap) }
    requires fit { AreFit (parts_of ctx.old) }
    ensures answers { (l : Language) (w : ListWorld) (t : ListTx) → ContextRuns H.view K.holds K.live l w ctx.old host.old t
        → Answers result (classes_behind t.now.bones (literals s.now)) }
    ensures keeps { (l : Language) (w : ListWorld) (t : ListTx) → ContextRuns H.view K.holds K.live l w ctx.old host.old t
        → KeepsChecked result (ContextRuns H.view K.holds K.live l w ctx.new host.new t) }
    ensures leaves { LeavesChecked result (K.live ctx.new.heap ≡ true) (H.view host.old) (H.view host.new) }
    ensures same { parts_of ctx.new ≡ parts_of ctx.old }
{
    let refs = literals(alloc, s)?;
    classes_behind(alloc, ctx, host, refs.as_slice())
}

/// A simple statement as it is checked: its literals in the world now, then the static rules.
pub fn checked<H: Host, K: Keep<H>>(
    alloc: Global,
    ctx: &mut Ctx<K>,
    host: &mut H,
    s: &Stmt,
) -> Result<Boxed<Stmt>, Turned>
    requires live { IsTrue (K.live ctx.old.heap) }
    requires fit { AreFit (parts_of ctx.old) }
    ensures answers { (w : ListWorld) (t : ListTx) → ContextRuns H.view K.holds K.live ode w ctx.old host.old t
        → Answers result (checked_in ode t.now.bones s.now) }
    ensures keeps { (w : ListWorld) (t : ListTx) → ContextRuns H.view K.holds K.live ode w ctx.old host.old t
        → KeepsChecked result (ContextRuns H.view K.holds K.live ode w ctx.new host.new t) }
    ensures leaves { LeavesChecked result (K.live ctx.new.heap ≡ true) (H.view host.old) (H.view host.new) }
    ensures same { parts_of ctx.new ≡ parts_of ctx.old }
{
    match behind_literals(alloc, ctx, host, s) {
        Ok(classes) => by_rules(alloc, &ctx.classes, &classes, s),
        Err(turned) => Err(turned),
    }
}
