//! Values, names, references, syntax trees and the definitions of the machine.
#![tactic(auto)]

mod arithmetic;
mod binding;
mod boxed;
mod change;
mod class;
mod digits;
mod event;
mod examples;
mod key;
mod laws;
pub mod limits;
mod list;
mod machine;
mod member;
mod name;
mod operator;
mod reason;
mod reference;
mod statement;
mod text;
mod tree;
mod value;
mod words;

pub use arithmetic::{Fault, int_op};
pub use binding::{Param, Var};
pub use boxed::Boxed;
pub use change::{Added, Change};
pub use class::{Class, Field};
pub use digits::{decimal, int_text, parse_decimal};
pub use event::{EventExpr, Kind, Mode, Point};
pub use examples::{
    composite_mask_examples, fa_examples, instant_examples, pipe_examples, plain_examples,
    printing_examples, relative_examples, sequence_examples, symbol_examples,
};
pub use key::{Key, kinds_agree};
pub use laws::{
    lengths_are_counts, numbers_answer_for_views, numbers_stand_for_views, points_are_firings,
    starts_stay_within, symbols_are_marks,
};
pub use list::{Copied, List};
pub use machine::{
    a_fresh_world_is_good, actions_at_the_last_level, changes_are_tested_in_order, dropped_firings,
    empty_transactions, once_only_triggers_after_an_abort,
};
pub use member::{Constraint, Method, TriggerDecl};
pub use name::{Name, is_name};
pub use operator::{BinOp, UnOp};
pub use reason::{CheckError, Reason, Refusal};
pub use reference::{parse_ref, ref_text};
pub use statement::{Call, ClassDecl, Expr, Member, Rhs, Sort, Statement, Stmt};
pub use text::{OdeText, TextError, is_text};
pub use tree::StateTree;
pub use value::{Ref, Value};
pub use words::is_free;
