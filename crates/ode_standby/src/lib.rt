//! A standby: a stream of frames is read and applied to a file.
#![tactic(auto)]

mod applying;
mod error;
mod following;
mod laws;
mod standby;
mod stream;
mod text;

pub use error::ShipError;
pub use following::{Followed, follow};
pub use laws::{
    pieces_are_one_stream, standbys_follow_their_primaries,
    stops_in_pieces_are_stops_in_one_stream, stops_leave_records_of_the_primary, streams_end_once,
};
pub use standby::Standby;
pub use stream::Stream;
pub use text::{followed_line, stopped_line};
