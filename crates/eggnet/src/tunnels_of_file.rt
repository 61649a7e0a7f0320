// The tunnels of a configuration file.
use crate::configuration::settings_of;
use botfolder::{FolderError, keep_tunnel_keys, make_tunnels};
use bytetext::Failure;
use replaying::{FAULT, STREAM_FAULT, not_written, out_of_memory};
use settings::Settings;
use std::fs::File;
use std::net::Net;
use std::rt::Files;
use std::{io, str};
use streams::{Duplex, WriteFault, write_out};
use tunnels::{clear_left, has_tunnels, stunnel_text};
use upkeep::{secret_of, tunnel_keys};

/// Prints the configuration with which stunnel makes the encrypted connections of the bot of the configuration file
/// `file`. Creates the bot's folder and the folder of the tunnels' sockets in it, if they are missing, and removes sockets
/// that an earlier stunnel left ([`clear_left`]). Returns the exit status: 1 also if no line has a plus before its port,
/// or if the folder's path does not begin with `/`, since stunnel takes no other.
pub fn print_tunnels<R: Input + Print + Eprint + AllocGlobal + Net + Files<File = File>>(
    rt: &R,
    file: &str,
) -> u8 {
    let settings = match settings_of(rt, file) {
        Ok(settings) => settings,
        Err(status) => return status,
    };
    if !has_tunnels(&settings) {
        let _told = eprintln!(rt;
            "eggnet: {file} has no tunnel: say a plus before a port, as in server irc.example.net +6697"
        );
        return FAULT;
    }
    let Some(folder) = absolute(&settings) else {
        return not_absolute(rt, file);
    };
    if let Err(error) = make_tunnels(rt, folder) {
        return not_made(rt, folder, error);
    }
    clear_left(rt, &settings);
    let Ok(text) = stunnel_text(rt.alloc(), &settings) else {
        return out_of_memory(rt);
    };
    let mut stream = Duplex::new(rt.reader(), io::writer(rt));
    match write_out(&mut stream, text.as_slice()) {
        Ok(()) => 0,
        Err(WriteFault) => not_written(rt),
    }
}

/// Writes the file `tls/keys` in the folder of the bot of the configuration file `file`: the keys by which the tunnels of
/// its links know each other, of the secret that the file names. Prints nothing. Returns the exit status: 1 also if the bot
/// is alone, or its secret does not suit it.
pub fn write_tunnel_keys<R: Print + Eprint + AllocGlobal + Files<File = File>>(
    rt: &R,
    file: &str,
) -> u8 {
    let settings = match settings_of(rt, file) {
        Ok(settings) => settings,
        Err(status) => return status,
    };
    let secret = match secret_of(rt, &settings) {
        Ok(Some(secret)) => secret,
        Ok(None) => {
            let _told = eprintln!(rt; "eggnet: {file} has no other bot: its tunnels need no keys");
            return FAULT;
        }
        Err(error) => {
            let _told = eprintln!(rt; "eggnet: {file}: {error}");
            return error.status();
        }
    };
    let Some(folder) = absolute(&settings) else {
        return not_absolute(rt, file);
    };
    let Ok(keys) = tunnel_keys(rt.alloc(), &settings, secret) else {
        return out_of_memory(rt);
    };
    match made_keys(rt, folder, keys.as_slice()) {
        Ok(()) => 0,
        Err(error) => not_made(rt, folder, error),
    }
}

// Makes the folder of the tunnels, and the file of their keys in it.
fn made_keys<R: AllocGlobal + Files<File = File>>(
    rt: &R,
    folder: &str,
    keys: &[u8],
) -> Result<(), FolderError> {
    make_tunnels(rt, folder)?;
    keep_tunnel_keys(rt, folder, keys)
}

// Reports that the folder's path is not whole.
fn not_absolute<R: Eprint>(rt: &R, file: &str) -> u8 {
    let _told = eprintln!(rt;
        "eggnet: {file}: say data FOLDER with a path from / on: stunnel takes no other"
    );
    FAULT
}

// The folder of the bot, if its path is whole and text.
fn absolute(settings: &Settings) -> Option<&str> {
    let folder = str::from_utf8(settings.folder.as_bytes()).ok()?;
    if folder.starts_with('/') {
        Some(folder)
    } else {
        None
    }
}

// Reports why there is no folder for the sockets.
fn not_made<R: Eprint + AllocGlobal>(rt: &R, folder: &str, error: FolderError) -> u8 {
    match error {
        Failure::NoMemory => out_of_memory(rt),
        Failure::Refused(fault) => {
            let _told = eprintln!(rt; "eggnet: {folder} {fault}");
            STREAM_FAULT
        }
    }
}
