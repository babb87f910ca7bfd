//! The line of a broken rule.
ghost use Rattle.std.specs.Prelude.{◌≡◌, IfOk};
ghost use Rattle.std.specs.String.{string_bytes};
ghost use Rattle.ode_causes.specs.Lines.{cause_line, format_line};

use ode_passes::Cause;
use ode_value::Key;
use std::alloc::{AllocError, Global};

/// `bad file CAUSE`, with the end of the line: the rule that a file breaks, and the place of the file or the key of the record where it does.
pub fn cause_line(alloc: Global, why: &Cause) -> Result<String, AllocError>
    ensures { IfOk result (λ text. string_bytes text ≡ cause_line why.now) }
{
    match why {
        Cause::Header { at } => format!(in alloc; "bad file header {at}\n"),
        Cause::Journal { at } => format!(in alloc; "bad file journal {at}\n"),
        Cause::Page { page } => format!(in alloc; "bad file page {page}\n"),
        Cause::Record(Key { kind, a, b }) => format!(in alloc; "bad file record {kind} {a} {b}\n"),
        Cause::Missing(Key { kind, a, b }) => format!(in alloc;
            "bad file missing {kind} {a} {b}\n"
        ),
        Cause::Class(number) => format!(in alloc; "bad file class {number}\n"),
        Cause::Table(class, place) => format!(in alloc; "bad file table {class} {place}\n"),
        Cause::State(object, number) => format!(in alloc; "bad file state #{object} {number}\n"),
        Cause::Size(total) => format!(in alloc; "bad file size {total}\n"),
    }
}

/// `newer format F`, with the end of the line: the file's format is one that is not known.
pub fn format_line(alloc: Global, format: u32) -> Result<String, AllocError>
    ensures { IfOk result (λ text. string_bytes text ≡ format_line format) }
{
    format!(in alloc; "newer format {format}\n")
}
