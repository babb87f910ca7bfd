//! What holds of printed trees.
ghost use Rattle.std.specs.Prelude.{◌≡◌, ℕ, List, length, true};
ghost use Rattle.ode_lex.specs.Tokens.{lexed, Tokens};
ghost use Rattle.ode_lex.specs.declared.token.Token.{Token};
ghost use Rattle.ode_eventsyn.specs.Parsing.{IsLongest, IsWhy};
ghost use Rattle.ode_eventsyn.specs.declared.error.SyntaxError.{SyntaxError as AnyError};
ghost use Rattle.ode_eventsyn.specs.declared.error.SyntaxError.TheVariants.{Memory};
ghost use Rattle.ode_value.specs.declared.event.EventExpr.{EventExpr};
ghost use Rattle.ode_value.specs.declared.statement.Expr.{Expr};
ghost use Rattle.ode_grammar.specs.declared.reader.Start.TheVariants as start;
ghost use Rattle.ode_terminals.specs.declared.seen.Place.TheVariants as place;
ghost use Rattle.ode_value.specs.Numbers.{has_numbers};
ghost use Rattle.ode_value.specs.Printing.{event_text, expr_text};
ghost use Rattle.ode_syntax.specs.declared.trees.Trees.{Trees};
ghost use Rattle.ode_syntax.specs.Built.{event_tree, tree};
ghost use Rattle.ode_reread.specs.Rereading.{IsEventOf, IsExprOf, IsRead};

/// The text of an expression that was read is read as the same expression, and it is no higher.
pub fn expressions_are_read_again()
    ensures { (most : ℕ) (text : List ℕ) (made : Trees) → IsRead most start.Expr place.Anywhere text made
        → (again : Trees) × IsRead most start.Expr place.Anywhere (expr_text (tree made.exprs)) again × (tree again.exprs ≡ tree made.exprs) }
{}

/// The text of an event expression that was read is read as the same event expression, and it is no higher.
pub fn events_are_read_again()
    ensures { (most : ℕ) (text : List ℕ) (made : Trees) → IsRead most start.Event place.Class text made
        → (again : Trees) × IsRead most start.Event place.Class (event_text (event_tree made.events)) again × (event_tree again.events ≡ event_tree made.events) }
{}

/// An expression that some text within the limit of heights has is parsed from its printed text, whole, and never refused.
pub fn printed_expressions_are_parsed()
    ensures tokens { (text : List ℕ) (e : Expr) → IsExprOf text e → (tokens : List Token) × (lexed (expr_text e) ≡ Tokens tokens) }
    ensures found { (text : List ℕ) (e : Expr) (tokens : List Token) (end : ℕ) (made : Trees) → IsExprOf text e → lexed (expr_text e) ≡ Tokens tokens
        → IsLongest start.Expr place.Anywhere (expr_text e) tokens end made → (tree made.exprs ≡ e) × (end ≡ length tokens) }
    ensures not_refused { (text : List ℕ) (e : Expr) (tokens : List Token) (why : AnyError) → IsExprOf text e → lexed (expr_text e) ≡ Tokens tokens
        → IsWhy start.Expr place.Anywhere (expr_text e) tokens why → why ≡ Memory }
{}

/// An event expression that some text within the limit of heights has is parsed from its printed text, whole, and never refused.
pub fn printed_events_are_parsed()
    ensures tokens { (text : List ℕ) (e : EventExpr) → IsEventOf text e → (tokens : List Token) × (lexed (event_text e) ≡ Tokens tokens) }
    ensures found { (text : List ℕ) (e : EventExpr) (tokens : List Token) (end : ℕ) (made : Trees) → IsEventOf text e → lexed (event_text e) ≡ Tokens tokens
        → IsLongest start.Event place.Class (event_text e) tokens end made → (event_tree made.events ≡ e) × (end ≡ length tokens) }
    ensures not_refused { (text : List ℕ) (e : EventExpr) (tokens : List Token) (why : AnyError) → IsEventOf text e → lexed (event_text e) ≡ Tokens tokens
        → IsWhy start.Event place.Class (event_text e) tokens why → why ≡ Memory }
{}

/// Each number of a `choose` or an `every` of an event expression that some text within the limit of heights has is in its range.
pub fn event_numbers_are_in_range()
    ensures { (text : List ℕ) (e : EventExpr) → IsEventOf text e → has_numbers e ≡ true }
{}
