//! Examples of how scripts are cut, computed, each carried by the contract of a function that does nothing.
ghost use Rattle.std.specs.Prelude.{◌≡◌, ◌∷◌, ℕ, List as Items, codes, true, false};
ghost use Rattle.ode_script.specs.declared.reader.Part.{Part};
ghost use Rattle.ode_script.specs.Cutting.{End, Ended, LongScript, LongStatement, Then, cut, ending_of, is_full, pieces};

/// A script is cut behind each `;`, and what is left at its end is a piece too, unless it is blank.
pub fn scripts_end_by_themselves()
    ensures cut { pieces (codes "a; b") ≡ Then 1 (codes "a;") (Then 1 (codes "b") (Ended End)) }
    ensures blank { pieces (codes "a;  ") ≡ Then 1 (codes "a;") (Ended End) }
    ensures ending { ending_of (pieces (codes "a; b")) ≡ End }
{}

/// Where one byte is past both limits, that on a statement is met.
pub fn the_limit_on_a_statement_comes_first()
    ensures statement { (p : Part) (line b : ℕ) (bs : Items ℕ) → is_full p ≡ true → cut p 0 line (b ∷ bs) ≡ Ended LongStatement }
    ensures script { (p : Part) (line b : ℕ) (bs : Items ℕ) → is_full p ≡ false → cut p 0 line (b ∷ bs) ≡ Ended LongScript }
{}
