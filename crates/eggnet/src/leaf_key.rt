// The secret file of a leaf.
use handshake::{HandshakeLine, Secret, SecretFault, key_of, leaf_file_line};
use replaying::{FAULT, STREAM_FAULT, not_written};
use std::fs::File;
use std::io;
use std::rt::Files;
use streams::{Duplex, WriteFault, write_out};

/// Prints the secret file of the leaf numbered `leaf`, by the net's secret in `file`. Returns the exit status.
pub fn print_leaf_key<R: Input + Print + Eprint + Files<File = File>>(
    rt: &R,
    file: &str,
    leaf: u16,
) -> u8 {
    match key_of(rt, file) {
        Ok(secret) => print_key_by(rt, file, &secret, leaf),
        Err(fault) => {
            let _told = eprintln!(rt; "eggnet: {file} {fault}");
            status_of(fault)
        }
    }
}

// Prints the file, unless the secret is the key of one leaf alone.
fn print_key_by<R: Input + Print + Eprint>(rt: &R, file: &str, secret: &Secret, leaf: u16) -> u8 {
    match secret {
        Secret::Net(key) => print_line(rt, &leaf_file_line(key, leaf)),
        Secret::Leaf {
            leaf: other,
            key: _,
        } => {
            let _told = eprintln!(rt;
                "eggnet: {file} holds the key of leaf {other} alone: give the file of the net's secret"
            );
            FAULT
        }
    }
}

fn print_line<R: Input + Print + Eprint>(rt: &R, line: &HandshakeLine) -> u8 {
    let mut stream = Duplex::new(rt.reader(), io::writer(rt));
    match write_out(&mut stream, line.as_bytes()) {
        Ok(()) => 0,
        Err(WriteFault) => not_written(rt),
    }
}

fn status_of(fault: SecretFault) -> u8 {
    match fault {
        SecretFault::NotRegular
        | SecretFault::Length
        | SecretFault::BadLeafKey
        | SecretFault::LeafKey
        | SecretFault::OtherLeaf => FAULT,
        SecretFault::Unreadable
        | SecretFault::ProcessFiles
        | SecretFault::MachineFiles
        | SecretFault::NoMemory
        | SecretFault::DiskFails => STREAM_FAULT,
    }
}
