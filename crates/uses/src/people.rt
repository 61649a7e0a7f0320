// Who a person is.
use anyhow::Error;
use bytetext::Text;
use rfccase::Casemapping;
use std::alloc::Global;
use userfile::{Change, Edit, Userfile};

/// Returns the length of the handle of somebody who writes from a host, by the hostmask that decides, on a server that
/// compares names as RFC 1459 does.
pub fn deciding_handle(alloc: Global) -> Result<usize, Error> {
    let mut userfile = Userfile::new(alloc);
    add_both(alloc, &mut userfile)?;
    let who = b"Bobby!bob@a.net";
    Ok(userfile.handle_of(Casemapping::Rfc1459, who).len())
}

// Adds a user whom any host matches, and one whose hostmask has more letters.
fn add_both(alloc: Global, userfile: &mut Userfile) -> Result<(), Error> {
    add(alloc, userfile, b"anybody", b"*!*@*.net")?;
    add(alloc, userfile, b"bob", b"*!bob@*.net")
}

// Adds a user with one hostmask.
fn add(alloc: Global, userfile: &mut Userfile, handle: &[u8], mask: &[u8]) -> Result<(), Error> {
    let user = Change::by_nobody(Edit::AddUser {
        handle: Text::from_slice(alloc, handle)?,
    });
    userfile.apply(alloc, &user)?;
    let host = Change::by_nobody(Edit::AddHost {
        handle: Text::from_slice(alloc, handle)?,
        mask: Text::from_slice(alloc, mask)?,
    });
    Ok(userfile.apply(alloc, &host)?)
}
