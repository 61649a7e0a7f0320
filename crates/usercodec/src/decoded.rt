// A value that was read.
use bytetext::{NoMemory, TryCopy};
use std::alloc::Global;

/// A value at the front of some bytes.
#[derive(Debug, Drop)]
pub struct Decoded<T> {
    /// The value.
    pub value: T,
    /// The number of bytes that spell the value. The bytes after them were not read.
    pub used: usize,
}

impl<T: TryCopy> TryCopy for Decoded<T> {
    fn copy(&self, alloc: Global) -> Result<Decoded<T>, NoMemory> {
        Ok(Decoded {
            value: self.value.copy(alloc)?,
            used: self.used,
        })
    }
}
