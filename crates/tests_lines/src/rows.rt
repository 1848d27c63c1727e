//! The rows of plans of many games.
use std::alloc::{AllocError, Global};

/// Writes `games` rows with commas between them: games g0, g1 and so on, each with that quota.
pub fn rows_text(alloc: Global, games: u8, quota: u32) -> Result<String, AllocError> {
    let mut rows = String::new(alloc);
    for game in 0..games {
        let comma = if game == 0 { "" } else { "," };
        let row = format!(in alloc; "{comma}{{\"game\":\"g{game}\",\"quota\":{quota}}}")?;
        rows.push_str(row.as_str())?;
    }
    Ok(rows)
}

/// Joins the texts.
pub fn joined(alloc: Global, texts: &[&str]) -> Result<String, AllocError> {
    let mut whole = String::new(alloc);
    for text in texts {
        whole.push_str(text)?;
    }
    Ok(whole)
}
