// Connections.
use crate::puppet::{Puppet, Silence};
use bytetext::Text;
use caselines::{BAD_WORDS, CaseError, Sink, cut, number};
use net::{Bounds, Connection};
use std::alloc::Global;
use streams::Given;

/// Answers `wire HEARD UNSENT STEP..` on `out`: what each step of a connection answers, with ` ; ` between.
pub fn wire(alloc: Global, words: &[Text], out: &mut Sink) -> Result<(), CaseError> {
    let [heard, unsent, steps @ ..] = words else {
        return Err(BAD_WORDS);
    };
    let bounds = Bounds {
        heard: number(heard.as_bytes())?,
        unsent: number(unsent.as_bytes())?,
    };
    let mut connection = Connection::new(alloc, Puppet::new(Vec::new(alloc)), bounds);
    for (place, step) in steps.iter().enumerate() {
        out.between(b" ; ", place);
        make(alloc, &mut connection, step.as_bytes(), out)?;
    }
    Ok(())
}

fn make(
    alloc: Global,
    connection: &mut Connection<Puppet>,
    step: &[u8],
    out: &mut Sink,
) -> Result<(), CaseError> {
    let (name, rest) = cut(step, b' ');
    match name {
        b"give" => {
            connection.stream.bytes.extend_from_slice(rest)?;
            read(connection, Silence::Stall, out)
        }
        b"end" => read(connection, Silence::End, out),
        b"stall" => read(connection, Silence::Stall, out),
        b"fault" => read(connection, Silence::Fault, out),
        b"tell" => tell(connection, rest, out),
        b"take" => {
            send(connection, number(rest)?, false, out);
            Ok(())
        }
        b"refuse" => {
            send(connection, 0, false, out);
            Ok(())
        }
        b"break" => {
            send(connection, 0, true, out);
            Ok(())
        }
        _ => show(alloc, connection, name, out),
    }
}

// The steps that show a connection.
fn show(
    alloc: Global,
    connection: &mut Connection<Puppet>,
    name: &[u8],
    out: &mut Sink,
) -> Result<(), CaseError> {
    match name {
        b"heard" => {
            out.put(b"heard");
            out.quoted(&connection.take_heard(alloc));
        }
        b"unsent" => {
            out.put(b"unsent");
            out.quoted(&connection.unsent);
        }
        b"over" => out.put(if connection.is_over {
            b"over"
        } else {
            b"not over"
        }),
        _ => return Err(BAD_WORDS),
    }
    Ok(())
}

fn read(
    connection: &mut Connection<Puppet>,
    silence: Silence,
    out: &mut Sink,
) -> Result<(), CaseError> {
    if connection.is_full() {
        out.put(b"full");
        return Ok(());
    }
    connection.stream.silence = silence;
    match connection.ask()? {
        Given::Bytes(count) => out.number(count as u64),
        Given::End => out.put(b"end"),
        Given::Stall => out.put(b"stall"),
        Given::Fault => out.put(b"fault"),
    }
    Ok(())
}

fn tell(connection: &mut Connection<Puppet>, text: &[u8], out: &mut Sink) -> Result<(), CaseError> {
    let is_told = connection.tell(text, b"")?;
    out.put(if is_told { b"told" } else { b"too much" });
    Ok(())
}

fn send(connection: &mut Connection<Puppet>, room: usize, is_broken: bool, out: &mut Sink) {
    if connection.unsent.is_empty() {
        out.put(b"none");
        return;
    }
    connection.stream.room = room;
    connection.stream.is_broken = is_broken;
    let before = connection.unsent.len();
    if connection.send() {
        out.number((before - connection.unsent.len()) as u64);
    } else {
        out.put(if connection.is_over {
            b"fault"
        } else {
            b"nothing"
        });
    }
}
