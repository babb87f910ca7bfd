//! Classes for tests.
ghost use Rattle.std.specs.Prelude.{◌≡◌, ◌∷◌, [], IfOk};
ghost use Rattle.ode_record_tests.specs.Watched.{at_each_point, watched};

use ode_types::Classes;
use ode_value::{Class, EventExpr, Field, List, Mode, Name, OdeText, Sort, TriggerDecl};
use std::alloc::{AllocError, Global};

fn name(alloc: Global, bytes: &[u8]) -> Result<Name, AllocError>
    ensures { IfOk result (λ name. name ≡ bytes.now) }
{
    let text = match OdeText::new(alloc, bytes) {
        Ok(text) => text,
        Err(_) => return Err(AllocError),
    };
    match Name::new(text) {
        Some(name) => Ok(name),
        None => Err(AllocError),
    }
}

fn sort(letter: u8) -> Sort {
    match letter {
        b'i' => Sort::Int,
        b't' => Sort::Text,
        _ => Sort::Bool,
    }
}

fn field(alloc: Global, letter: u8) -> Result<Field, AllocError> {
    Ok(Field {
        name: name(alloc, b"f")?,
        sort: sort(letter),
        birth: 0,
        literal: None,
    })
}

fn fields(alloc: Global, letters: &[u8]) -> Result<List<Field>, AllocError> {
    let mut fields = List::new(alloc);
    for letter in letters {
        fields.push(field(alloc, *letter)?)?;
    }
    Ok(fields)
}

/// A class with fields whose sorts begin with these letters.
pub fn with_fields(alloc: Global, letters: &[u8]) -> Result<Class, AllocError> {
    let name = name(alloc, b"C")?;
    let fields = fields(alloc, letters)?;
    Ok(Class {
        number: 1,
        name,
        parent: None,
        fields,
        methods: List::new(alloc),
        constraints: List::new(alloc),
        kinds: List::new(alloc),
        triggers: List::new(alloc),
    })
}

// A trigger that fires at each point.
fn trigger(alloc: Global) -> Result<TriggerDecl, AllocError>
    ensures { IfOk result (λ trigger. trigger ≡ at_each_point) }
{
    let name = name(alloc, b"t")?;
    Ok(TriggerDecl {
        name,
        initial: false,
        perpetual: true,
        whole: false,
        mode: Mode::Immediate,
        params: List::new(alloc),
        event: EventExpr::Any,
        action: List::new(alloc),
    })
}

fn triggers(alloc: Global) -> Result<List<TriggerDecl>, AllocError>
    ensures { IfOk result (λ triggers. triggers ≡ at_each_point ∷ []) }
{
    let trigger = trigger(alloc)?;
    let mut triggers = List::new(alloc);
    triggers.push(trigger)?;
    Ok(triggers)
}

// A class with this trigger.
fn watched(alloc: Global) -> Result<Class, AllocError>
    ensures { IfOk result (λ class. class ≡ watched) }
{
    let name = name(alloc, b"C")?;
    let triggers = triggers(alloc)?;
    Ok(Class {
        number: 1,
        name,
        parent: None,
        fields: List::new(alloc),
        methods: List::new(alloc),
        constraints: List::new(alloc),
        kinds: List::new(alloc),
        triggers,
    })
}

/// Classes of which one has a trigger.
pub fn one_class(alloc: Global) -> Result<Classes, AllocError> {
    let class = watched(alloc)?;
    let mut classes = Classes::new(alloc);
    classes.add(class)?;
    Ok(classes)
}
