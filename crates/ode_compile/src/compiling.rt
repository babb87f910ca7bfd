//! A declaration, compiled.
ghost use Rattle.std.specs.Prelude.{◌≡◌, IfOk, length};
ghost use Rattle.std.specs.List.{AllByRecursion};
ghost use Rattle.ode_value.specs.Answers.{checks};
ghost use Rattle.ode_value.specs.Lengths.{class_records};
ghost use Rattle.ode_value.specs.PrintedClasses.{decl_text};
ghost use Rattle.ode_types.specs.Checked.{IsChecked};
ghost use Rattle.ode_types.specs.Static.{check_grown};
ghost use Rattle.ode_compile.specs.Answers.{Answers, Gives, Passes};
ghost use Rattle.ode_compile.specs.Compiling.{AreCompiled, HaveNumbers, IsShrunk, compiled, compiled_grown, counted_sizes, few_records, tree_counts};

use crate::counting::class_records;
use crate::shrinking::shrink_all;
use crate::stop::CompileStop;
use crate::triggers::compile_triggers;
use ode_checker::check_grown;
use ode_print::print_class;
use ode_symbols::Alphabet;
use ode_table::Table;
use ode_types::{CheckStop, Classes};
use ode_value::limits::CLASS_LIMIT;
use ode_value::{Added, Class, ClassDecl, List, Refusal};
use std::alloc::Global;

/// A declared class as it was checked, the printed text of its tree, and a table and an alphabet for each of its triggers, in order.
#[derive(Drop)]
pub struct Compiled {
    pub class: Class,
    pub text: List<u8>,
    pub tables: List<Table>,
    pub alphabets: List<Alphabet>,
    /// For each trigger in order the trees of its event: with how many states its table counts.
    pub counts: List<u16>,
}

fn checked(
    alloc: Global,
    known: &Classes,
    added: &[Added],
    decl: &ClassDecl,
) -> Result<Class, CompileStop>
    ensures { Gives (checks (check_grown known.now added.now decl.now)) result }
{
    match check_grown(alloc, known, added, decl) {
        Ok(class) => Ok(class),
        Err(CheckStop::Memory) => Err(CompileStop::Memory),
        Err(CheckStop::Broken(broken)) => Err(CompileStop::Refused(Refusal::Check(broken))),
    }
}

// Whether the records of a class are few, where its tables count with so many states. What 32 bits don't count is no memory for.
#[tactic(auto, unfolding(ode_value::specs::Limits::class_limit))]
fn few_records(text: &[u8], counts: &[u16], tables: &[Table]) -> Result<(), CompileStop>
    requires { length counts.now ≡ length tables.now }
    ensures { Passes (few_records (class_records (length text.now) (counted_sizes counts.now tables.now))) result }
{
    match class_records(text, counts, tables) {
        Some(count) if count <= CLASS_LIMIT => Ok(()),
        Some(count) => Err(CompileStop::Refused(Refusal::ClassTooLarge { count })),
        None => Err(CompileStop::Memory),
    }
}

/// The class of a declaration with fields that were added to it, behind those that are known, compiled, or its first refusal: the static
/// rules, then for each trigger in order its symbols before its states, then the number of records. Each number of a `choose` or an `every` is in its range, as in
/// each tree that a text has. The states of each table are the trees of its event.
pub fn build_class(
    alloc: Global,
    known: &Classes,
    added: &[Added],
    decl: &ClassDecl,
) -> Result<Compiled, CompileStop>
    requires numbers { HaveNumbers decl.now }
    ensures answers { Answers decl.now (compiled_grown known.now added.now decl.now) result }
    ensures checked { IfOk result (λ made. IsChecked known.now made.class) }
    ensures text { IfOk result (λ made. made.text ≡ decl_text decl.now) }
    ensures tables { IfOk result (λ made. AreCompiled made.class.triggers made.tables made.alphabets) }
    ensures counts { IfOk result (λ made. made.counts ≡ tree_counts made.class.triggers) }
{
    let class = checked(alloc, known, added, decl)?;
    let (tables, alphabets, counts) = compile_triggers(alloc, class.triggers.as_slice())?;
    let text = print_class(alloc, decl)?;
    few_records(text.as_slice(), counts.as_slice(), tables.as_slice())?;
    Ok(Compiled {
        class,
        text,
        tables,
        alphabets,
        counts,
    })
}

/// The same of a class as it is declared, with the least tables, each of which counts with as many states as its event has trees.
#[tactic(auto, using(crate::proofs::LeastLaws::least_compiled, crate::proofs::LeastLaws::least_shrunk))]
pub fn compile(alloc: Global, known: &Classes, decl: &ClassDecl) -> Result<Compiled, CompileStop>
    requires numbers { HaveNumbers decl.now }
    ensures answers { Answers decl.now (compiled known.now decl.now) result }
    ensures checked { IfOk result (λ made. IsChecked known.now made.class) }
    ensures text { IfOk result (λ made. made.text ≡ decl_text decl.now) }
    ensures tables { IfOk result (λ made. AreCompiled made.class.triggers made.tables made.alphabets) }
    ensures counts { IfOk result (λ made. made.counts ≡ tree_counts made.class.triggers) }
    ensures shrunk { IfOk result (λ made. AllByRecursion IsShrunk made.tables) }
{
    let Compiled {
        class,
        text,
        tables,
        alphabets,
        counts,
    } = build_class(alloc, known, &[], decl)?;
    let tables = shrink_all(alloc, tables.as_slice())?;
    Ok(Compiled {
        class,
        text,
        tables,
        alphabets,
        counts,
    })
}
