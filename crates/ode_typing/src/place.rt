//! Where a tree stands, and the parameters and locals that are seen there.
ghost use Rattle.std.specs.Prelude.{◌≡◌, false, true, ◌+◌, ◌≤◌, ◌<◌, nat_lt, ◌++◌, ◌∷◌, [], IfOk, OnOk, length, take};
ghost use Rattle.std.specs.Option.{option_copied};
ghost use Rattle.ode_types.specs.Limits.{in_slots, slot_limit};
ghost use Rattle.ode_types.specs.Scopes.{local_named, meaning, own_meaning};
ghost use Rattle.ode_typing.specs.Places.{scope_of};

use ode_types::families::field_named;
use ode_types::{Classes, Known, SLOT_LIMIT, in_slots};
use ode_value::{Class, List, Name, Param, Ref, Sort, Var};
use std::alloc::{AllocError, Global};

/// Where a tree stands.
#[derive(Drop)]
pub struct Place<'a> {
    /// The classes that are known.
    pub known: Known<'a>,
    /// The class that `this` is of.
    pub class: Option<&'a Class>,
    /// The member's name.
    pub member: &'a Name,
    /// What `return` gives.
    pub result: &'a Sort,
    /// Whether expressions are plain.
    pub is_plain: bool,
    /// The numbers of the literals' classes.
    pub literals: &'a [(Ref, u32)],
}

/// The parameters and locals that are seen, each with its slot, and the next local's slot.
#[derive(Drop)]
pub struct Locals {
    pub seen: List<(u16, Param)>,
    pub next: usize,
}

impl Locals {
    /// None is seen.
    pub fn new(alloc: Global) -> Locals
        ensures seen { result.seen ≡ [] }
        ensures next { result.next ≡ 0 }
    {
        Locals {
            seen: List::new(alloc),
            next: 0,
        }
    }

    /// The first parameter or local of this name that is seen.
    pub fn named(&self, name: &Name) -> Option<&(u16, Param)>
        ensures { option_copied result ≡ local_named self.now.seen name.now }
    {
        self.seen
            .as_slice()
            .iter()
            .find(|local| local.1.name.same(name))
    }

    /// Parameters behind those that are seen, with slots from the next local's on.
    #[tactic(auto, unfolding(ode_types::specs::Limits::slot_limit))]
    pub fn see(&mut self, alloc: Global, params: &[Param]) -> Result<(), AllocError>
        ensures seen { OnOk result (self.new.seen ≡ self.old.seen ++ in_slots self.old.next params.now) }
        ensures next { OnOk result (self.new.next ≡ self.old.next) }
    {
        let mut slot = self.next;
        for param in in_slots(params, slot) {
            let param = param.copy(alloc)?;
            self.seen.push((slot as u16, param))?;
            slot += 1;
        }
        Ok(())
    }

    /// The parameters of a member, which are seen from its start on.
    pub fn of(alloc: Global, params: &[Param]) -> Result<Locals, AllocError>
        ensures { IfOk result (λ locals. (locals.seen ≡ in_slots 0 params.now) × (locals.next ≡ length params.now)) }
    {
        let mut locals = Locals::new(alloc);
        locals.see(alloc, params)?;
        locals.next = params.len();
        Ok(locals)
    }

    /// The same again.
    pub fn copy(&self, alloc: Global) -> Result<Locals, AllocError>
        ensures { IfOk result (λ copy. copy ≡ self.now) }
    {
        let mut seen = List::new(alloc);
        for local in self.seen.as_slice() {
            let param = local.1.copy(alloc)?;
            seen.push((local.0, param))?;
        }
        Ok(Locals {
            seen,
            next: self.next,
        })
    }

    /// Whether a slot is left for one more local.
    #[tactic(auto, unfolding(ode_types::specs::Limits::slot_limit))]
    pub fn has_slot(&self) -> bool
        ensures test { result ≡ nat_lt self.now.next slot_limit }
        ensures left { result ≡ true → self.now.next < slot_limit }
    {
        self.next < SLOT_LIMIT
    }

    /// One more local, and its slot.
    #[tactic(auto, unfolding(ode_types::specs::Limits::slot_limit))]
    pub fn add(&mut self, alloc: Global, name: &Name, sort: Sort) -> Result<u16, AllocError>
        requires { self.old.next < slot_limit }
        ensures slot { IfOk result (λ slot. slot ≡ self.old.next) }
        ensures seen { OnOk result (self.new.seen ≡ self.old.seen ++ (self.old.next, record { name = name.now; sort = sort }) ∷ []) }
        ensures next { OnOk result (self.new.next ≡ self.old.next + 1) }
    {
        let slot = self.next as u16;
        let name = name.copy(alloc)?;
        self.seen.push((slot, Param { name, sort }))?;
        self.next += 1;
        Ok(slot)
    }

    /// Only the first ones are seen from here on.
    pub fn forget(&mut self, seen: usize)
        requires { seen ≤ length self.old.seen }
        ensures seen { self.new.seen ≡ take seen self.old.seen }
        ensures next { self.new.next ≡ self.old.next }
    {
        while self.seen.len() > seen {
            self.seen.remove(self.seen.len() - 1);
        }
    }
}

impl<'a> Place<'a> {
    /// A place among the classes that are declared.
    #[tactic(auto, using(ode_types::proofs::LineLaws::nothing_behind))]
    pub fn among(
        known: &'a Classes,
        of: Option<&'a Class>,
        name: &'a Name,
        returned: &'a Sort,
        literals: &'a [(Ref, u32)],
    ) -> Place<'a>
        ensures known { result.known ≡ known.now }
        ensures class { option_copied result.class ≡ option_copied of.entry }
        ensures member { result.member.now ≡ name.now }
        ensures result { result.result.now ≡ returned.now }
        ensures plain { result.is_plain ≡ false }
        ensures literals { result.literals.now ≡ literals.now }
    {
        Place {
            known: Known::new(known, None),
            class: of,
            member: name,
            result: returned,
            is_plain: false,
            literals,
        }
    }

    /// The same place, where expressions are plain.
    pub fn plain(&self) -> Place<'a>
        ensures { result ≡ record self.now { is_plain = true } }
    {
        Place {
            known: self.known.again(),
            class: self.class,
            member: self.member,
            result: self.result,
            is_plain: true,
            literals: self.literals,
        }
    }

    // What a name means as a field, and its sort.
    fn own_meaning(&self, alloc: Global, name: &Name) -> Result<Option<(Var, Sort)>, AllocError>
        ensures { IfOk result (λ m. m ≡ own_meaning (option_copied self.now.class) name.now) }
    {
        let Some(class) = self.class else {
            return Ok(None);
        };
        match field_named(class.fields.as_slice(), name) {
            Some((slot, field)) => Ok(Some((Var::Own(slot), field.sort.copy(alloc)?))),
            None => Ok(None),
        }
    }

    /// What a name means: a parameter or a local, else a field; and its sort.
    pub fn meaning(
        &self,
        alloc: Global,
        locals: &Locals,
        name: &Name,
    ) -> Result<Option<(Var, Sort)>, AllocError>
        ensures { IfOk result (λ m. m ≡ meaning (scope_of self.now locals.now) name.now) }
    {
        match locals.named(name) {
            Some(local) => Ok(Some((Var::Local(local.0), local.1.sort.copy(alloc)?))),
            None => self.own_meaning(alloc, name),
        }
    }
}
