//! What a comparison answers.
use ode_value::List;

/// Whether two event expressions fire alike.
#[derive(Debug, Drop)]
pub enum Verdict {
    Same,
    /// On the word's marks one of them alone fires: the first one, or not.
    Differs { word: List<u8>, first: bool },
}
