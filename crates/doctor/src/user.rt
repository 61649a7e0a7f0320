// Who this process is.
use crate::modes::{Seen, may_make};
use crate::words::{has_number, number_after};
use bytetext::NoMemory;
use std::alloc::Global;
use std::fs::File;
use std::io::ErrorKind;
use std::rt::Files;
use streams::{Duplex, ReadError, read_up_to};

// The most bytes of a text of the system that are read.
const MAX_TEXT: usize = 65_536;

// The user of this process, if the system says who that is, and what it says of the process.
pub(crate) struct User {
    pub(crate) number: Option<u64>,
    status: Vec<u8>,
}

// By hand, so that this is proved once, and not in each function in which one ends.
impl Drop for User {
    fn drop(self) {
        let User {
            number: _,
            status: _,
        } = self;
    }
}

impl User {
    // Returns who this process is.
    pub(crate) fn of_process<R: AllocGlobal + Files<File = File>>(
        rt: &R,
    ) -> Result<User, NoMemory> {
        let status = text_of(rt, "/proc/self/status")?;
        let number = number_after(status.as_slice(), b"Uid:");
        Ok(User { number, status })
    }

    // Returns whether the user may make a folder in `folder`, as far as its mode says it; true if nobody knows the user.
    pub(crate) fn may_make_in(&self, folder: Seen) -> bool {
        let Some(number) = self.number else {
            return true;
        };
        let group = u64::from(folder.group);
        let status = self.status.as_slice();
        let is_member = number_after(status, b"Gid:") == Some(group)
            || has_number(status, b"Groups:", group);
        may_make(number, is_member, folder)
    }
}

// Returns the text of a file of the system, and nothing if it can't be read.
pub(crate) fn text_of<R: AllocGlobal + Files<File = File>>(
    rt: &R,
    path: &str,
) -> Result<Vec<u8>, NoMemory> {
    match File::open(rt, path) {
        Ok(file) => {
            let mut stream = Duplex::new(file, Vec::new(rt.alloc()));
            text_read(rt.alloc(), read_up_to(rt.alloc(), &mut stream, MAX_TEXT))
        }
        Err(error) => match error.kind() {
            ErrorKind::OutOfMemory => Err(NoMemory),
            _ => Ok(Vec::new(rt.alloc())),
        },
    }
}

fn text_read(alloc: Global, read: Result<Vec<u8>, ReadError>) -> Result<Vec<u8>, NoMemory> {
    match read {
        Ok(text) => Ok(text),
        Err(ReadError::Fault) => Ok(Vec::new(alloc)),
        Err(ReadError::NoMemory) => Err(NoMemory),
    }
}
