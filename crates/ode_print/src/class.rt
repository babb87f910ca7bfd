//! Classes and their members.
ghost use Rattle.std.specs.Prelude.{◌≡◌, ◌++◌, codes, cond, map, OnOk, IfOk, drop};
ghost use Rattle.ode_value.specs.Printing.{kind_text, with_commas};
ghost use Rattle.ode_value.specs.PrintedClasses.{constraint_text, decl_text, in_braces, member_text, method_text, mode_text, param_text, params_text, parent_text, sort_text, trigger_text, trigger_words};

use crate::event::put_event;
use crate::expression::put_expr;
use crate::listed::put_list;
use crate::put::{put, put_three_texts, put_two_texts};
use crate::statement::put_body;
use ode_value::{
    ClassDecl, Constraint, Kind, List, Member, Method, Mode, Name, Param, Sort, TriggerDecl,
};
use std::alloc::{AllocError, Global};

fn put_sort(out: &mut Vec<u8>, sort: &Sort) -> Result<(), AllocError>
    ensures { OnOk result (out.new.items ≡ out.old.items ++ sort_text sort.now) }
{
    match sort {
        Sort::Int => put(out, b"int"),
        Sort::Bool => put(out, b"bool"),
        Sort::Text => put(out, b"text"),
        Sort::Reference(class) => put_two_texts(out, b"ref ", class.as_bytes()),
        Sort::Void => put(out, b"void"),
    }
}

/// Puts the text of a parameter at the end.
pub(crate) fn put_param(out: &mut Vec<u8>, param: &Param) -> Result<(), AllocError>
    ensures { OnOk result (out.new.items ≡ out.old.items ++ param_text param.now) }
{
    put_sort(out, &param.sort)?;
    put_two_texts(out, b" ", param.name.as_bytes())
}

fn put_params(alloc: Global, out: &mut Vec<u8>, params: &[Param]) -> Result<(), AllocError>
    ensures { OnOk result (out.new.items ≡ out.old.items ++ params_text params.now) }
{
    put(out, b"(")?;
    put_list(alloc, out, params)?;
    put(out, b")")
}

fn put_method(alloc: Global, out: &mut Vec<u8>, method: &Method) -> Result<(), AllocError>
    ensures { OnOk result (out.new.items ≡ out.old.items ++ method_text method.now) }
{
    put_sort(out, &method.result)?;
    put_two_texts(out, b" ", method.name.as_bytes())?;
    put_params(alloc, out, method.params.as_slice())?;
    put(out, b" ")?;
    put_body(alloc, out, method.body.as_slice())
}

// Puts one text or the other at the end.
fn put_choice(out: &mut Vec<u8>, yes: bool, text: &[u8], other: &[u8]) -> Result<(), AllocError>
    ensures { OnOk result (out.new.items ≡ out.old.items ++ cond yes text.now other.now) }
{
    if yes { put(out, text) } else { put(out, other) }
}

fn put_constraint(
    alloc: Global,
    out: &mut Vec<u8>,
    constraint: &Constraint,
) -> Result<(), AllocError>
    ensures { OnOk result (out.new.items ≡ out.old.items ++ constraint_text constraint.now) }
{
    put_choice(out, constraint.soft, b"soft ", b"")?;
    put_three_texts(out, b"constraint ", constraint.name.as_bytes(), b": ")?;
    put_expr(alloc, out, &constraint.test)?;
    put(out, b";")
}

fn put_mode(out: &mut Vec<u8>, mode: Mode) -> Result<(), AllocError>
    ensures { OnOk result (out.new.items ≡ out.old.items ++ mode_text mode) }
{
    match mode {
        Mode::Immediate => put(out, b"immediate "),
        Mode::Deferred => put(out, b"deferred "),
        Mode::Dependent => put(out, b"dependent "),
        Mode::Independent => put(out, b"independent "),
    }
}

fn put_trigger_words(out: &mut Vec<u8>, trigger: &TriggerDecl) -> Result<(), AllocError>
    ensures { OnOk result (out.new.items ≡ out.old.items ++ trigger_words trigger.now) }
{
    put(out, b"trigger ")?;
    put_choice(out, trigger.initial, b"initial ", b"")?;
    put_choice(out, trigger.perpetual, b"perpetual ", b"once ")?;
    put_choice(out, trigger.whole, b"whole ", b"committed ")?;
    put_mode(out, trigger.mode)
}

fn put_trigger(alloc: Global, out: &mut Vec<u8>, trigger: &TriggerDecl) -> Result<(), AllocError>
    ensures { OnOk result (out.new.items ≡ out.old.items ++ trigger_text trigger.now) }
{
    put_trigger_words(out, trigger)?;
    put(out, trigger.name.as_bytes())?;
    put_params(alloc, out, trigger.params.as_slice())?;
    put(out, b": ")?;
    put_event(alloc, out, &trigger.event)?;
    put(out, b" ==> ")?;
    put_body(alloc, out, trigger.action.as_slice())
}

fn put_field(out: &mut Vec<u8>, name: &Name, sort: &Sort) -> Result<(), AllocError>
    ensures { OnOk result (out.new.items ≡ out.old.items ++ (sort_text sort.now ++ codes " " ++ name.now ++ codes ";")) }
{
    put_sort(out, sort)?;
    put_three_texts(out, b" ", name.as_bytes(), b";")
}

fn put_events(alloc: Global, out: &mut Vec<u8>, kinds: &[Kind]) -> Result<(), AllocError>
    ensures { OnOk result (out.new.items ≡ out.old.items ++ (codes "event " ++ with_commas (map kind_text kinds.now) ++ codes ";")) }
{
    put(out, b"event ")?;
    put_list(alloc, out, kinds)?;
    put(out, b";")
}

fn put_member(alloc: Global, out: &mut Vec<u8>, member: &Member) -> Result<(), AllocError>
    ensures { OnOk result (out.new.items ≡ out.old.items ++ member_text member.now) }
{
    match member {
        Member::Field(name, sort) => put_field(out, name, sort),
        Member::Method(method) => put_method(alloc, out, method),
        Member::Constraint(constraint) => put_constraint(alloc, out, constraint),
        Member::Events(kinds) => put_events(alloc, out, kinds.as_slice()),
        Member::Trigger(trigger) => put_trigger(alloc, out, trigger),
    }
}

fn put_members(alloc: Global, out: &mut Vec<u8>, members: &[Member]) -> Result<(), AllocError>
    ensures { OnOk result (out.new.items ≡ out.old.items ++ in_braces (map member_text members.now)) }
{
    put(out, b"{")?;
    for member in members {
        put(out, b" ")?;
        put_member(alloc, out, member)?;
    }
    put(out, b" }")
}

fn put_parent(out: &mut Vec<u8>, parent: &Option<Name>) -> Result<(), AllocError>
    ensures { OnOk result (out.new.items ≡ out.old.items ++ parent_text parent.now) }
{
    match parent {
        None => Ok(()),
        Some(name) => put_two_texts(out, b" : ", name.as_bytes()),
    }
}

fn put_class(alloc: Global, out: &mut Vec<u8>, class: &ClassDecl) -> Result<(), AllocError>
    ensures { OnOk result (out.new.items ≡ out.old.items ++ decl_text class.now) }
{
    put_two_texts(out, b"class ", class.name.as_bytes())?;
    put_parent(out, &class.parent)?;
    put(out, b" ")?;
    put_members(alloc, out, class.members.as_slice())
}

/// The text of a class: its members in order, each once.
pub fn print_class(alloc: Global, class: &ClassDecl) -> Result<List<u8>, AllocError>
    ensures { IfOk result (λ text. text ≡ decl_text class.now) }
{
    let mut out = Vec::new(alloc);
    put_class(alloc, &mut out, class)?;
    Ok(List::from_vec(out))
}
