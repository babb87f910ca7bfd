//! Laws of generated scripts, each carried by the contract of a function that does nothing.
ghost use Rattle.std.specs.Prelude.{◌≡◌, ◌++◌, ◌≤◌, ℕ, codes};
ghost use Rattle.ode_script.specs.Cutting.{End, ending_of, pieces};
ghost use Rattle.ode_gen.specs.Generating.{class_line, gen_limit, gen_script, object_line};

use crate::generation::GEN_LIMIT;

/// The limit of the code is that of the definitions.
#[tactic(auto, unfolding(crate::specs::Generating::gen_limit))]
pub fn the_limit_agrees()
    ensures { GEN_LIMIT ≡ gen_limit }
{}

/// The calls of the smallest scripts.
pub fn small_scripts()
    ensures none { gen_script 0 ≡ class_line ++ object_line ++ codes "" }
    ensures one { gen_script 1 ≡ class_line ++ object_line ++ codes "begin; #1.put(38); #1.put(38); abort;\n" }
    ensures two { gen_script 2 ≡ class_line ++ object_line ++ codes "#1.put(8);\n#1.take(17);\n" }
{}

/// No generated script is too long, and none of its pieces is.
#[tactic(auto, using(crate::proofs::Ending::generated_end))]
pub fn generated_scripts_end()
    ensures ends { (number : ℕ) → number ≤ gen_limit → ending_of (pieces (gen_script number)) ≡ End }
{}
