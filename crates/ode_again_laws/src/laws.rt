//! What holds of classes that are read.
ghost use Rattle.std.specs.Prelude.{◌≡◌, ◌<◌, ◌^◌, ◌++◌, ℕ, codes, length, List as Items, Ok};
ghost use Rattle.std.specs.List.{AllByRecursion};
ghost use Rattle.ode_classyn.specs.Texts.{IsClassOf};
ghost use Rattle.ode_compile.specs.Compiling.{HaveNumbers};
ghost use Rattle.ode_language.specs.Languages.{statement_of};
ghost use Rattle.ode_types.specs.Static.{check_grown};
ghost use Rattle.ode_value.specs.PrintedClasses.{decl_text};
ghost use Rattle.ode_value.specs.declared.change.Added.{Added};
ghost use Rattle.ode_value.specs.declared.class.Class.{Class as Checked};
ghost use Rattle.ode_value.specs.declared.member.TriggerDecl.{TriggerDecl};
ghost use Rattle.ode_value.specs.declared.statement.ClassDecl.{ClassDecl};
ghost use Rattle.ode_value.specs.declared.statement.Statement.TheVariants.{Class};

/// A class that is read from a piece is read from its printed text with a semicolon behind it: that text is no higher.
#[tactic(auto, using(crate::proofs::Again::again))]
pub fn statements_of_classes_are_read_again()
    ensures { (piece : Items ℕ) (d : ClassDecl) → statement_of piece ≡ Ok (Class d) → statement_of (decl_text d ++ codes ";") ≡ Ok (Class d) }
{}

/// Each number of a `choose` or an `every` in a trigger's event is in its range, where the class is a piece's, or a text's within the limit
/// of heights.
pub fn numbers_of_classes_are_in_range()
    ensures piece { (piece : Items ℕ) (d : ClassDecl) → statement_of piece ≡ Ok (Class d) → HaveNumbers d }
    ensures text { (text : Items ℕ) (d : ClassDecl) → IsClassOf text d → HaveNumbers d }
{}

/// The triggers of a class that is read and keeps the static rules, with fields that were added to it, have few parameters, so that a record
/// can count them.
pub fn parameters_of_classes_are_few()
    ensures { (piece : Items ℕ) (d : ClassDecl) (known : Items Checked) (added : Items Added) (c : Checked) → statement_of piece ≡ Ok (Class d) → check_grown known added d ≡ Ok c
        → AllByRecursion (λ (t : TriggerDecl). length t.params < 2 ^ 8) c.triggers }
{}
