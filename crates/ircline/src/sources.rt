// The source of a message.
use crate::person::Person;

/// The source of a message, by its prefix (RFC 2812 section 2.3.1).
#[derive(Clone, Copy, Debug)]
pub enum Source<'a> {
    /// The message has no prefix.
    None,
    /// A server, by its name.
    Server(&'a [u8]),
    /// A person.
    Person(Person<'a>),
}
