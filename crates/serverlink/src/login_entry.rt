// What the log says of a registration.
ghost use Rattle.std.specs.Prelude.{Some};
ghost use Rattle.serverlink.specs.LoginLogs.{text_of};

use std::fmt;
use std::fmt::Display;

// What happens in a registration, as the log shows it: nothing of its lines. Who knows those of a login can guess passwords
// at leisure.
#[derive(Clone, Copy)]
pub(crate) enum LoginEntry {
    // A line of the registration is queued for the server.
    Told,
    // The server has accepted the login.
    Accepted,
}

impl Display for LoginEntry {
    ghost output = { λ entry. Some (text_of entry) };

    fn fmt<W: fmt::Write>(&self, f: &mut fmt::Formatter<W>) -> fmt::Result {
        f.write_str(match *self {
            LoginEntry::Told => "> a line of the registration",
            LoginEntry::Accepted => "the server accepts the login",
        })
    }
}
