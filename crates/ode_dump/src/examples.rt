//! Examples of the definitions, computed, each carried by the contract of a function that does nothing.
ghost use Rattle.std.specs.Prelude.{◌≡◌, ◌++◌, [], ◌∷◌, codes, map, negsuc, true};
ghost use Rattle.ode_codec.specs.declared.record.Record.TheVariants.{Counters, Entry};
ghost use Rattle.ode_value.specs.Texts.{line};
ghost use Rattle.ode_dump.specs.Dumping.{check_line};
ghost use Rattle.ode_dump.specs.Examples.{account, counters, lines, records, text, waiting};
ghost use Rattle.ode_dump.specs.Lines.{record_line};
ghost use Rattle.ode_dump.specs.Order.{in_order};

/// The dump of a small database, and how many records it has; a clock that is set; an entry of the queue, and the same without its class.
pub fn dump_examples()
    ensures dump { in_order lines ≡ text }
    ensures check { check_line (map (λ f. f.0) records) ≡ line (codes "good classes 1 objects 1 activations 1 entries 0") }
    ensures clock { record_line [] (Counters (counters true (negsuc 4))) ≡ line (codes "counters next 3 tx 4 entry 1") ++ line (codes "clock -5 0 0") }
    ensures entry { record_line (account ∷ []) (Entry 8 waiting) ≡ line (codes "entry 8 trigger low on #1 generation 2 -7") }
    ensures unknown { record_line [] (Entry 8 waiting) ≡ line (codes "entry 8 trigger  on #1 generation 2 -7") }
{}
