//! What tests of whole runs share: calls of `ode` over a disk and an output in memory, images of files made by hand, and acts
//! with a file. An assertion may end a process, so it stands in the tests: here what isn't as it should be is an answer.
#![tactic(auto)]

pub mod acts;
pub mod amiss;
pub mod images;
pub mod long;
pub mod trial;

pub use ode_top::file_word;
