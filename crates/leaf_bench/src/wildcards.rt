//! Patterns that almost fit a text, so that each place of the text is tried.
use anyhow::{Result, bail};
use leaf_match::{Wild, like, wild};
use std::alloc::Global;

#[derive(Drop)]
enum Pattern {
    Wild(Wild),
    Like(String),
}

#[derive(Drop)]
pub struct Case {
    pattern: Pattern,
    text: String,
}

impl Case {
    /// The measurement that the word names, on a text of letters `a`.
    pub fn make(alloc: Global, word: &str, size: u32, length: u32) -> Result<Case> {
        let text = repeated(alloc, "", "a", length, "")?;
        let pattern = match word {
            "wild_runs" => wild_of(alloc, "*a*a*a*a*", "a", 0, "b")?,
            "wild_letters" => wild_of(alloc, "*", "a", size, "b")?,
            "wild_letters_run" => wild_of(alloc, "*", "a", size, "b*")?,
            "like_runs" => Pattern::Like(repeated(alloc, "*a*a*a*a*", "a", 0, "b")?),
            "like_letters" => Pattern::Like(repeated(alloc, "*", "a", size, "b")?),
            "like_letters_run" => Pattern::Like(repeated(alloc, "*", "a", size, "b*")?),
            "like_characters_run" => Pattern::Like(repeated(alloc, "*", "?", size, "b*")?),
            _ => bail!("no measurement has this name"),
        };
        Ok(Case { pattern, text })
    }

    pub fn answer(&self) -> bool {
        match &self.pattern {
            Pattern::Wild(pattern) => wild(pattern, self.text.as_str()),
            Pattern::Like(pattern) => like(pattern.as_str(), self.text.as_str()),
        }
    }
}

fn wild_of(alloc: Global, front: &str, unit: &str, count: u32, end: &str) -> Result<Pattern> {
    let text = repeated(alloc, front, unit, count, end)?;
    Ok(Pattern::Wild(Wild::read(alloc, text.as_str())?))
}

fn repeated(alloc: Global, front: &str, unit: &str, count: u32, end: &str) -> Result<String> {
    let mut text = String::from_str(alloc, front)?;
    for _ in 0..count {
        text.push_str(unit)?;
    }
    text.push_str(end)?;
    Ok(text)
}
