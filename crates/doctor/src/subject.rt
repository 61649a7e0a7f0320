// What was looked at.
use serverlink::{Shown, put};
use settings::Address;
use std::fmt;
use std::fmt::Display;

// The words before the name of a folder.
pub(crate) const FOLDER: &str = "folder ";

// What was looked at: the front of a line. Words say what kind of thing it is.
#[derive(Clone, Copy)]
pub(crate) enum Subject<'a> {
    // What has a name.
    Named(&'static str, &'a [u8]),
    // What has an address.
    At(&'static str, &'a Address),
}

impl Display for Subject<'_> {
    fn fmt<W: fmt::Write>(&self, f: &mut fmt::Formatter<W>) -> fmt::Result {
        match *self {
            Subject::Named(words, name) => put(f, words, &Shown(name)),
            Subject::At(words, address) => put_address(f, words, address),
        }
    }
}

fn put_address<W: fmt::Write>(
    f: &mut fmt::Formatter<W>,
    words: &str,
    address: &Address,
) -> fmt::Result {
    put(f, words, &Shown(address.host.as_bytes()))?;
    put(f, if address.tls { " +" } else { " " }, &address.port)
}
