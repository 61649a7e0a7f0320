// Lines of IRC, as they are shown.
use crate::sink::Sink;
use ircline::{Line, Message};

/// Writes to `out` what `line` reads as, or the code of its fault.
pub fn line_shown(line: &Line, out: &mut Sink) {
    match line {
        Line::Bad(fault) => out.put(fault.code().as_bytes()),
        Line::Message(message) => message_shown(message, out),
    }
}

fn message_shown(message: &Message, out: &mut Sink) {
    out.put(b"'");
    out.put(message.prefix.as_bytes());
    out.put(b"' ");
    out.put(message.command.as_bytes());
    for param in message.params.as_slice() {
        out.quoted(param.as_bytes());
    }
    out.put(b" rest");
    out.quoted(message.rest.as_bytes());
}
