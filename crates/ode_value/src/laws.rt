//! Laws of the definitions, each carried by the contract of a function that does nothing.
ghost use Rattle.std.specs.Prelude.{◌≡◌, ℕ, ◌+◌, ◌<◌, ◌≤◌, List as Items, length, take, true};
ghost use Rattle.std.specs.List.{AllByRecursion};
ghost use Rattle.ode_value.specs.declared.class.Field.{Field};
ghost use Rattle.ode_value.specs.declared.event.EventExpr.{EventExpr};
ghost use Rattle.ode_value.specs.declared.event.Point.{Point};
ghost use Rattle.ode_value.specs.declared.statement.Expr.{Expr};
ghost use Rattle.ode_value.specs.declared.value.Value.{Value};
ghost use Rattle.ode_value.specs.Marks.{Mark, mark, spelled};
ghost use Rattle.ode_value.specs.Points.{points, fires};
ghost use Rattle.ode_value.specs.Symbols.{symbol, symbol_count, symbol_mark};
ghost use Rattle.ode_value.specs.Changing.{point_with};
ghost use Rattle.ode_value.specs.Fields.{IsBorn, born_values};
ghost use Rattle.ode_value.specs.Fitting.{FitFields};
ghost use Rattle.ode_value.specs.Lengths.{value_length, version_length};
ghost use Rattle.ode_value.specs.Masks.{Slots, plain};
ghost use Rattle.ode_value.specs.Moving.{moved_event, moved_expr, moved_slots};
ghost use Rattle.ode_value.specs.Records.{spelled_value, row_weight, version_row};
ghost use Rattle.ode_value.specs.Same.{same_expr};
ghost use Rattle.ode_value.specs.Versions.{Version};
ghost use Rattle.ode_value.specs.Worlds.{Bones};
ghost use Rattle.ode_value.specs.Objects.{Histories, Starts, IsWithin};
ghost use Rattle.ode_value.specs.Pasts.{Watch, lists, numbers, table_of, StandsFor};
ghost use Rattle.ode_value.specs.Tables.{Table, Means};

/// Each position of a history is a point of an expression exactly where the expression fires on the history up to and with it.
pub fn points_are_firings()
    ensures { (e : EventExpr) (m : Items Mark) (i : ℕ) → i < length m → points e m i ≡ fires e (take (i + 1) m) }
{}

/// A point's symbol is below the count, and the symbol's mark is the point's.
pub fn symbols_are_marks()
    ensures below { (e : EventExpr) (params : Items Value) (p : Point) → symbol e params p < symbol_count e }
    ensures mark { (e : EventExpr) (params : Items Value) (p : Point) → symbol_mark e (symbol e params p) ≡ mark e params p }
{}

/// The lengths of values, and of versions' records, are those of their bytes.
pub fn lengths_are_counts()
    ensures value { (v : Value) → length (spelled_value v) ≡ value_length v }
    ensures version { (id : ℕ) (fields : Items Field) (v : Version) → row_weight (version_row id fields v) ≡ version_length v.stamp (born_values v.stamp fields v.fields) }
{}

/// Where all fields of a class were there at a version's stamp, its record has all of its values.
pub fn born_fields_are_all()
    ensures { (b : Bones) (stamp : ℕ) (fields : Items Field) (values : Items Value) → AllByRecursion (IsBorn stamp) fields → FitFields b fields values
        → born_values stamp fields values ≡ values }
{}

/// Where a class gets fields, a plain expression whose places are moved comes to what it came to; moved ones are the same where they were.
pub fn moved_expressions_stand()
    ensures value { (new : Items Value) (at : ℕ) (x : Expr) (slots : Slots) →
        plain (moved_expr at (length new) x) (moved_slots at new slots) ≡ plain x slots }
    ensures same { (at more : ℕ) (x y : Expr) → same_expr (moved_expr at more x) (moved_expr at more y) ≡ same_expr x y }
{}

/// An event whose masks are moved has as many symbols, and a point with the new values the symbol that it had.
pub fn moved_events_stand()
    ensures count { (at more : ℕ) (e : EventExpr) → symbol_count (moved_event at more e) ≡ symbol_count e }
    ensures symbol { (new : Items Value) (at : ℕ) (e : EventExpr) (params : Items Value) (p : Point) →
        symbol (moved_event at (length new) e) params (point_with at new p) ≡ symbol e params p }
{}

/// The marks of an event whose masks are moved are spelled as they were: those of its symbols, and those of points with the new values.
pub fn moved_marks_stand()
    ensures symbol { (at more : ℕ) (e : EventExpr) (n : ℕ) →
        spelled (moved_event at more e) (symbol_mark (moved_event at more e) n) ≡ spelled e (symbol_mark e n) }
    ensures point { (new : Items Value) (at : ℕ) (e : EventExpr) (params : Items Value) (p : Point) →
        spelled (moved_event at (length new) e) (mark (moved_event at (length new) e) params (point_with at new p)) ≡ spelled e (mark e params p) }
{}

/// A state number goes on standing for an activation's view: from its beginning, over each point and over an abort.
pub fn numbers_stand_for_views()
    ensures first { (tables : ℕ → ℕ → Table) (w : Watch) → Means (table_of tables w) w.event → (h : Histories) →
        StandsFor tables w h (lists.begin h) ((numbers tables).begin tt) }
    ensures point { (tables : ℕ → ℕ → Table) (w : Watch) → Means (table_of tables w) w.event →
        (h : Histories) (start : Starts) (state : ℕ) (p : Point) → IsWithin start h → StandsFor tables w h start state →
        StandsFor tables w (lists.grow h p) (lists.step w start p) ((numbers tables).step w state p) }
    ensures whole_point { (tables : ℕ → ℕ → Table) (w : Watch) → Means (table_of tables w) w.event →
        (h : Histories) (start : Starts) (state : ℕ) (p : Point) → IsWithin start h → StandsFor tables w h start state →
        StandsFor tables w (lists.grow_whole h p) (lists.step_whole w start p) ((numbers tables).step_whole w state p) }
    ensures abort { (tables : ℕ → ℕ → Table) (w : Watch) → Means (table_of tables w) w.event →
        (first now : Histories) (start : Starts) (old state : ℕ) → StandsFor tables w first start old → StandsFor tables w now start state →
        StandsFor tables w (lists.rewind first now) (lists.back w start start) ((numbers tables).back w old state) }
{}

/// A start within its lists stays there: a new one is, and over a point and over an abort it still is.
pub fn starts_stay_within()
    ensures first { (h : Histories) → IsWithin (lists.begin h) h }
    ensures point { (h : Histories) (start : Starts) (p : Point) → IsWithin start h → IsWithin start (lists.grow h p) }
    ensures whole_point { (h : Histories) (start : Starts) (p : Point) → IsWithin start h → IsWithin start (lists.grow_whole h p) }
    ensures abort { (first now : Histories) (start : Starts) → IsWithin start first → length first.whole ≤ length now.whole →
        IsWithin start (lists.rewind first now) }
{}

/// Behind a point the number's answer is that of the view.
pub fn numbers_answer_for_views()
    ensures point { (tables : ℕ → ℕ → Table) (w : Watch) → Means (table_of tables w) w.event →
        (h : Histories) (start : Starts) (state : ℕ) (p : Point) → IsWithin start h → StandsFor tables w h start state →
        (numbers tables).fires w tt ((numbers tables).step w state p) ≡ lists.fires w (lists.grow h p) (lists.step w start p) }
    ensures whole_point { (tables : ℕ → ℕ → Table) (w : Watch) → Means (table_of tables w) w.event → w.whole ≡ true →
        (h : Histories) (start : Starts) (state : ℕ) (p : Point) → IsWithin start h → StandsFor tables w h start state →
        (numbers tables).fires w tt ((numbers tables).step_whole w state p) ≡ lists.fires w (lists.grow_whole h p) (lists.step_whole w start p) }
{}
