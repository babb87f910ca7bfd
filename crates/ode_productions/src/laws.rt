//! What the rows of the grammar derive. Tokens are a text where what they stand for is one of the productions.
ghost use Rattle.std.specs.Prelude.{List};
ghost use Rattle.ode_grammar.specs.declared.reader.Start.TheVariants as start;
ghost use Rattle.ode_grammar.specs.declared.terminal.Terminal.{Terminal};
ghost use Rattle.ode_grammar.specs.Texts.{IsText};
ghost use Rattle.ode_productions.specs.Phrases.{AClass, AClassChange, AComparison, AQuery, AStatement, Says};
ghost use Rattle.ode_productions.specs.Productions.{Event, Expression, Is};
ghost use Rattle.ode_productions.specs.Standing.{StandsFor};

/// An expression of the rows is one of the productions, and the other way round.
pub fn expressions_are_productions()
    ensures rows { (tokens : List Terminal) → IsText start.Expr tokens → StandsFor (Is Expression) tokens }
    ensures productions { (tokens : List Terminal) → StandsFor (Is Expression) tokens → IsText start.Expr tokens }
{}

/// An event expression of the rows is one of the productions, and the other way round.
pub fn events_are_productions()
    ensures rows { (tokens : List Terminal) → IsText start.Event tokens → StandsFor (Is Event) tokens }
    ensures productions { (tokens : List Terminal) → StandsFor (Is Event) tokens → IsText start.Event tokens }
{}

/// A class of the rows is one of the productions, and the other way round.
pub fn classes_are_productions()
    ensures rows { (tokens : List Terminal) → IsText start.Class tokens → StandsFor (Says AClass) tokens }
    ensures productions { (tokens : List Terminal) → StandsFor (Says AClass) tokens → IsText start.Class tokens }
{}

/// A change of a class, of the rows, is one of the productions, and the other way round.
pub fn changes_are_productions()
    ensures rows { (tokens : List Terminal) → IsText start.Change tokens → StandsFor (Says AClassChange) tokens }
    ensures productions { (tokens : List Terminal) → StandsFor (Says AClassChange) tokens → IsText start.Change tokens }
{}

/// A query, of the rows, is one of the productions, and the other way round.
pub fn queries_are_productions()
    ensures rows { (tokens : List Terminal) → IsText start.Query tokens → StandsFor (Says AQuery) tokens }
    ensures productions { (tokens : List Terminal) → StandsFor (Says AQuery) tokens → IsText start.Query tokens }
{}

/// A comparison of event expressions, of the rows, is one of the productions, and the other way round.
pub fn comparisons_are_productions()
    ensures rows { (tokens : List Terminal) → IsText start.Comparison tokens → StandsFor (Says AComparison) tokens }
    ensures productions { (tokens : List Terminal) → StandsFor (Says AComparison) tokens → IsText start.Comparison tokens }
{}

/// A statement of a script, of the rows, is one of the productions, and the other way round.
pub fn statements_are_productions()
    ensures rows { (tokens : List Terminal) → IsText start.Statement tokens → StandsFor (Says AStatement) tokens }
    ensures productions { (tokens : List Terminal) → StandsFor (Says AStatement) tokens → IsText start.Statement tokens }
{}
