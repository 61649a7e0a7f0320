// Places by number.
ghost use Rattle.std.specs.Prelude.{◌≡◌, None, IfOk, replicate};

use bytetext::NoMemory;
use std::alloc::Global;

/// Returns `count` empty places, of what is found by its number.
///
/// # Errors
/// `NoMemory` if an allocation fails.
pub fn empty_places<T: Drop>(alloc: Global, count: usize) -> Result<Vec<Option<T>>, NoMemory>
    ensures { IfOk result (λ places. places.items ≡ replicate count None) }
{
    let mut places = Vec::with_capacity(alloc, count)?;
    for _place in 0..count {
        places.push(None)?;
    }
    Ok(places)
}
