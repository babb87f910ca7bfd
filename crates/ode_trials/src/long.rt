//! Long texts.
use std::alloc::{AllocError, Global};

/// This piece so many times.
pub fn times(alloc: Global, piece: &str, times: u64) -> Result<String, AllocError> {
    let mut text = String::new(alloc);
    for _ in 0..times {
        text.push_str(piece)?;
    }
    Ok(text)
}

/// The text with what so many queued firings of `t` print, each in a transaction of its own, from this number on.
pub fn push_firings(
    alloc: Global,
    text: &mut String,
    first: u64,
    count: u64,
) -> Result<(), AllocError> {
    for at in 0..count {
        let number = first.saturating_add(at);
        let line = format!(in alloc; "fired t on #1\ntx {number} committed\n")?;
        text.push_str(line.as_str())?;
    }
    Ok(())
}
