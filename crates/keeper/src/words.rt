// The words of the command line.
use crate::stop::Stop;
use std::env;
use std::rt::Env;

/// What the command line asks for.
#[derive(Drop)]
pub struct Asked {
    /// Whether the hub must exist already.
    pub is_old: bool,
    pub first: String,
    pub second: String,
    /// How many changes to ask for.
    pub count: u64,
}

/// Reads what the command line asks for.
pub fn asked_of<R: AllocGlobal + Env>(rt: &R) -> Result<Asked, Stop> {
    let mut words = env::args(rt)?;
    let _program = words.next();
    let Some(word) = words.next() else {
        return Err(Stop::Words);
    };
    let is_old = word.as_str() == "--old";
    let first = if is_old { words.next() } else { Some(word) };
    let (Some(first), Some(second)) = (first, words.next()) else {
        return Err(Stop::Words);
    };
    let count = match words.next() {
        Some(word) => word.as_str().parse::<u64>().map_err(|_| Stop::Words)?,
        None => u64::MAX,
    };
    if words.next().is_some() {
        return Err(Stop::Words);
    }
    Ok(Asked {
        is_old,
        first,
        second,
        count,
    })
}
