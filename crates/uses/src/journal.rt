// A journal that is opened again.
use anyhow::Error;
use bytejournal::Journal;
use disks::MemDisk;
use std::alloc::Global;

// The number of a layout, for whoever reads the base and the entries.
const LAYOUT: u8 = 1;

/// Returns how many entries a journal has after one was appended and all unsynced bytes were lost.
pub fn kept(alloc: Global) -> Result<usize, Error> {
    let (first, second) = (MemDisk::new(alloc), MemDisk::new(alloc));
    let made = Journal::create(alloc, first, second, LAYOUT, b"base");
    let mut journal = match made {
        Ok(journal) => journal,
        Err(returned) => return Err(returned.error.into()),
    };
    journal.append(alloc, b"entry")?;
    match journal.restart(alloc) {
        Ok(opened) => Ok(opened.entries.len()),
        Err(returned) => Err(returned.error.into()),
    }
}
