//! Examples of the definitions, computed, each carried by the contract of a function that does nothing.
ghost use Rattle.std.specs.Prelude.{◌≡◌, [], ◌∷◌, true, false, pos, negsuc, codes, Ok, Err};
ghost use Rattle.ode_value.specs.Examples.{a, b, c, kinds, call_with, calls, found, masked, masked_whole, symbol_table, faulty, bool_lit, plain_with};
ghost use Rattle.ode_value.specs.Views.{of_kinds};
ghost use Rattle.ode_value.specs.Instants.{instant_text};
ghost use Rattle.ode_value.specs.Printing.{event_text};
ghost use Rattle.ode_value.specs.PrintedClasses.{decl_text};
ghost use Rattle.ode_value.specs.PrintedExamples.{either, class_p};
ghost use Rattle.ode_value.specs.declared.arithmetic.Fault.TheVariants.{Overflow, DivideByZero};
ghost use Rattle.ode_value.specs.declared.operator.BinOp.TheVariants.{And, Or, Lt};
ghost use Rattle.ode_value.specs.declared.operator.UnOp.TheVariants.{Minus, Not};
ghost use Rattle.ode_value.specs.declared.statement.Expr.TheVariants.{Local, Own, Unary, Binary};
ghost use Rattle.ode_value.specs.declared.value.Value.TheVariants.{Int, Bool, Text};
ghost use Rattle.ode_value.specs.declared.event.EventExpr.TheVariants.{Any, First, Relative, RelPlus, Prior, Sequence, Pipe, Choose, Fa, FaAbs};

/// A call that the class doesn't list is no point, and doesn't part two others.
pub fn sequence_examples()
    ensures unlisted { found (Sequence a b) (of_kinds (kinds (codes "ab")) (calls (codes "acb"))) ≡ false ∷ true ∷ [] }
    ensures listed { found (Sequence a b) (of_kinds (kinds (codes "abc")) (calls (codes "acb"))) ≡ false ∷ false ∷ false ∷ [] }
{}

/// `relative` begins anew behind each start, `prior` doesn't; `relplus` begins anew behind each of its own points.
pub fn relative_examples()
    ensures relative_first { found (Relative a First) (calls (codes "abb")) ≡ false ∷ true ∷ false ∷ [] }
    ensures prior_first { found (Prior a First) (calls (codes "abb")) ≡ false ∷ false ∷ false ∷ [] }
    ensures relative_second { found (Relative a (Choose 2 b)) (calls (codes "babb")) ≡ false ∷ false ∷ false ∷ true ∷ [] }
    ensures prior_second { found (Prior a (Choose 2 b)) (calls (codes "babb")) ≡ false ∷ false ∷ true ∷ false ∷ [] }
    ensures each_start { found (Relative a (Choose 2 b)) (calls (codes "abab")) ≡ false ∷ false ∷ false ∷ true ∷ [] }
    ensures relplus_second { found (RelPlus (Choose 2 a)) (calls (codes "aaaaa")) ≡ false ∷ true ∷ false ∷ true ∷ false ∷ [] }
{}

/// The second part of `pipe` sees the points of the first part alone.
pub fn pipe_examples()
    ensures { found (Pipe a (Choose 2 Any)) (calls (codes "baba")) ≡ false ∷ false ∷ false ∷ true ∷ [] }
{}

/// A point of the third part blocks `fa` strictly before the second's, and only for starts before it. `fa` looks for it behind the
/// start, `faabs` on the whole history.
pub fn fa_examples()
    ensures same_place { found (Fa a b b) (calls (codes "ab")) ≡ false ∷ true ∷ [] }
    ensures later_start { found (Fa a b c) (calls (codes "acab")) ≡ false ∷ false ∷ false ∷ true ∷ [] }
    ensures behind_the_start { found (Fa a b (Choose 1 c)) (calls (codes "cacb")) ≡ false ∷ false ∷ false ∷ false ∷ [] }
    ensures whole_history { found (FaAbs a b (Choose 1 c)) (calls (codes "cacb")) ≡ false ∷ false ∷ false ∷ true ∷ [] }
{}

/// A mask on a composite event is tested at the event's points, with the fields there.
pub fn composite_mask_examples()
    ensures { found masked_whole (call_with 97 0 ∷ call_with 98 1 ∷ call_with 97 2 ∷ []) ≡ true ∷ true ∷ false ∷ [] }
{}

/// Symbol 0 has no leaf; then come `after a` without its mask, with it, and `after b`. A mask on a composite event doubles the symbols.
pub fn symbol_examples()
    ensures of_leaves { symbol_table masked ≡ (false ∷ false ∷ []) ∷ (false ∷ false ∷ []) ∷ (true ∷ false ∷ []) ∷ (false ∷ true ∷ []) ∷ [] }
    ensures of_composites { symbol_table masked_whole
        ≡ (false ∷ false ∷ false ∷ []) ∷ (false ∷ false ∷ true ∷ [])
        ∷ (true ∷ false ∷ false ∷ []) ∷ (true ∷ false ∷ true ∷ [])
        ∷ (false ∷ true ∷ false ∷ []) ∷ (false ∷ true ∷ true ∷ []) ∷ [] }
{}

/// The right side of `&&` and `||` is evaluated only where it is needed, and a fault is no value.
pub fn plain_examples()
    ensures and { plain_with [] [] (Binary And (bool_lit false) faulty) ≡ Ok (Bool false) }
    ensures or { plain_with [] [] (Binary Or (bool_lit true) faulty) ≡ Ok (Bool true) }
    ensures not { plain_with [] [] (Unary Not faulty) ≡ Err DivideByZero }
    ensures less { plain_with (Text (codes "ab") ∷ []) (Text (codes "b") ∷ []) (Binary Lt (Local 0) (Own 0)) ≡ Ok (Bool true) }
    ensures minus { plain_with (Int (negsuc 9223372036854775807) ∷ []) [] (Unary Minus (Local 0)) ≡ Err Overflow }
{}

/// An operand that is an operator stands in brackets, and a trigger's words are printed in full.
pub fn printing_examples()
    ensures events { event_text either ≡ codes "after a or (after b and after c)" }
    ensures of_class { decl_text class_p ≡ codes "class P { int n; event after a; trigger once committed immediate t(int k): after a && (n < k) ==> { say \"x\"; } }" }
{}

/// Instants of the years 1970, 2000, 0000 and 9999.
pub fn instant_examples()
    ensures early { instant_text (pos 90) ≡ codes "1970-01-01T00:01:30Z" }
    ensures leap_day { instant_text (pos 951782400) ≡ codes "2000-02-29T00:00:00Z" }
    ensures first { instant_text (negsuc 62167219199) ≡ codes "0000-01-01T00:00:00Z" }
    ensures last { instant_text (pos 253402300799) ≡ codes "9999-12-31T23:59:59Z" }
{}
