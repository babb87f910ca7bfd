//! What holds of printed classes and statements.
ghost use Rattle.std.specs.Prelude.{◌≡◌, ℕ, List};
ghost use Rattle.ode_classyn.specs.Texts.{in_class, IsClassOf, IsStatementOf, IsWhyNot};
ghost use Rattle.ode_eventsyn.specs.declared.error.SyntaxError.{SyntaxError as AnyError};
ghost use Rattle.ode_eventsyn.specs.declared.error.SyntaxError.TheVariants.{Memory};
ghost use Rattle.ode_grammar.specs.declared.reader.Start.TheVariants as start;
ghost use Rattle.ode_terminals.specs.Seen.{place_of};
ghost use Rattle.ode_terminals.specs.declared.seen.Place.TheVariants as place;
ghost use Rattle.ode_value.specs.PrintedClasses.{body_text, decl_text, stmt_text};
ghost use Rattle.ode_value.specs.declared.statement.ClassDecl.{ClassDecl};
ghost use Rattle.ode_value.specs.declared.statement.Statement.{Statement};
ghost use Rattle.ode_value.specs.declared.statement.Statement.TheVariants as statement;
ghost use Rattle.ode_value.specs.declared.statement.Stmt.{Stmt};
ghost use Rattle.ode_syntax.specs.declared.trees.Trees.{Trees};
ghost use Rattle.ode_syntax.specs.Built.{class_tree, script_tree};
ghost use Rattle.ode_reread.specs.Rereading.{IsRead};
ghost use Rattle.ode_reread_classes.specs.Bodies.{IsBodyOf};

/// The text of a class that was read is read as the same class, and it is no higher.
pub fn classes_are_read_again()
    ensures { (most : ℕ) (text : List ℕ) (made : Trees) → IsRead most start.Class place.Class text made
        → (again : Trees) × IsRead most start.Class place.Class (decl_text (class_tree made.classes)) again × (class_tree again.classes ≡ class_tree made.classes) }
{}

/// A class that some text within the limit of heights has is parsed from its printed text, and never refused.
pub fn printed_classes_are_parsed()
    ensures itself { (text : List ℕ) (class : ClassDecl) → IsClassOf text class → IsClassOf (decl_text class) class }
    ensures no_other { (text : List ℕ) (class other : ClassDecl) → IsClassOf text class → IsClassOf (decl_text class) other → other ≡ class }
    ensures not_refused { (text : List ℕ) (class : ClassDecl) (why : AnyError) → IsClassOf text class → IsWhyNot start.Class in_class (decl_text class) why → why ≡ Memory }
{}

/// The text of a class's body that was read is read as the same statements, and it is no higher.
pub fn bodies_are_read_again()
    ensures { (most : ℕ) (text : List ℕ) (statements : List Stmt) → IsBodyOf most place.Class text statements → IsBodyOf most place.Class (body_text statements) statements }
{}

/// The text of a simple statement of a script that was read is read as the same statement, and it is no higher.
pub fn statements_are_read_again()
    ensures { (most : ℕ) (text : List ℕ) (made : Trees) (s : Stmt) → IsRead most start.Statement place.Script text made → script_tree made.scripts ≡ statement.Simple s
        → (again : Trees) × IsRead most start.Statement place.Script (stmt_text s) again × (script_tree again.scripts ≡ statement.Simple s) }
{}

/// A simple statement that some text within the limit of heights has is parsed from its printed text, and never refused.
pub fn printed_statements_are_parsed()
    ensures itself { (text : List ℕ) (s : Stmt) → IsStatementOf text (statement.Simple s) → IsStatementOf (stmt_text s) (statement.Simple s) }
    ensures no_other { (text : List ℕ) (s : Stmt) (other : Statement) → IsStatementOf text (statement.Simple s) → IsStatementOf (stmt_text s) other → other ≡ statement.Simple s }
    ensures not_refused { (text : List ℕ) (s : Stmt) (why : AnyError) → IsStatementOf text (statement.Simple s) → IsWhyNot start.Statement place_of (stmt_text s) why → why ≡ Memory }
{}
