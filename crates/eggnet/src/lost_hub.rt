// The leaves of a net whose hub is lost.
use administrators::ChangeWords;
use bytetext::Failure;
use commandline::escaped;
use promotion::{
    Leaf, LeafStanding, Leaving, Promoted, PromotionError, PromotionFault, highest, other_net,
    promote, standing_of,
};
use replaying::{FAULT, STREAM_FAULT, not_written, out_of_memory};
use std::alloc::{AllocError, Global};
use std::fs::File;
use std::random::RandomSource;
use std::rt::Files;
use std::time::Clock;
use std::{io, str};
use streams::{Duplex, WriteFault, write_out};

/// Makes the folder `heir` of an heir's hub, of the stopped leaf of `folder`, and prints what to do next. Returns the
/// exit status.
pub fn promote_leaf<
    R: Input + Print + Eprint + AllocGlobal + Files<File = File> + RandomSource + Clock,
>(rt: &R, folder: &str, heir: &str) -> u8 {
    match promote(rt, folder, heir) {
        Ok(promoted) => print(rt, promoted_text(rt.alloc(), &promoted, heir)),
        Err(error) => refused(rt, folder, heir, error),
    }
}

/// Prints where the stopped leaf of each of the `folders` stands, and which has the highest version. Returns the exit
/// status.
pub fn print_which<R: Input + Print + Eprint + AllocGlobal + Files<File = File> + Clock>(
    rt: &R,
    folders: &[&str],
) -> u8 {
    let mut standings = Vec::new(rt.alloc());
    for folder in folders {
        match standing_of(rt, folder) {
            Ok(one) => {
                if standings.push(one).is_err() {
                    return out_of_memory(rt);
                }
            }
            Err(error) => return refused(rt, folder, folder, error),
        }
    }
    if let Some(place) = other_net(standings.as_slice()) {
        let error = Failure::Refused(PromotionFault::OtherNet);
        let folder = folder_at(folders, place);
        return refused(rt, folder, folder, error);
    }
    print(
        rt,
        standings_text(rt.alloc(), folders, standings.as_slice()),
    )
}

/// Prints what the stopped leaf of `folder` had asked and not heard, and then puts its journal aside. Returns the exit
/// status.
pub fn start_leaf_over<R: Input + Print + Eprint + AllocGlobal + Files<File = File> + Clock>(
    rt: &R,
    folder: &str,
) -> u8 {
    let leaving = match Leaving::take(rt, folder) {
        Ok(leaving) => leaving,
        Err(error) => return refused(rt, folder, folder, error),
    };
    // Said before it is moved: whoever is cut off in between reads it again by a second call.
    let status = print(rt, leaving_text(rt.alloc(), &leaving));
    if status != 0 {
        return status;
    }
    match leaving.start_over(rt) {
        Ok(()) => print(rt, aside_text(rt.alloc(), &leaving)),
        Err(error) => refused(rt, folder, folder, error),
    }
}

fn promoted_text(alloc: Global, promoted: &Promoted, heir: &str) -> Result<Vec<u8>, AllocError> {
    let mut text = leaf_text(alloc, &promoted.leaf, digits(promoted.parent.as_bytes()))?;
    let net = digits(promoted.net.as_bytes());
    put(
        &mut text,
        format!(in alloc; "promoted: {heir} is the folder of a hub of the net {net}\n")?,
    )?;
    put_asked(alloc, &mut text, &promoted.leaf)?;
    put(
        &mut text,
        format!(in alloc;
            "next: name {heir} in the line data of the hub's configuration, and start the hub\n"
        )?,
    )?;
    put(
        &mut text,
        format!(in alloc;
            "next: a leaf of the net before that has a line hub for the new hub moves by itself; stop another, run eggnet start-over on its folder, name the new hub in its line hub, and start it\n"
        )?,
    )?;
    Ok(text)
}

fn standings_text(
    alloc: Global,
    folders: &[&str],
    standings: &[LeafStanding],
) -> Result<Vec<u8>, AllocError> {
    let mut text = Vec::new(alloc);
    for (folder, standing) in folders.iter().zip(standings) {
        let (leaf, version) = (standing.number, standing.version);
        let net = digits(standing.net.as_bytes());
        put(
            &mut text,
            format!(in alloc; "{folder} leaf {leaf} net {net} version {version}\n")?,
        )?;
    }
    if let Some(place) = highest(standings) {
        let folder = folder_at(folders, place);
        put(&mut text, format!(in alloc; "highest: {folder}\n")?)?;
    }
    Ok(text)
}

// The folder at a place, of which there are as many as standings.
fn folder_at<'a>(folders: &[&'a str], place: usize) -> &'a str {
    match folders.get(place) {
        Some(folder) => folder,
        None => "",
    }
}

fn leaving_text(alloc: Global, leaving: &Leaving) -> Result<Vec<u8>, AllocError> {
    match &leaving.leaf {
        Some(leaf) => {
            let mut text = leaf_text(alloc, leaf, digits(leaving.net.as_bytes()))?;
            put_asked(alloc, &mut text, leaf)?;
            Ok(text)
        }
        None => Ok(Vec::new(alloc)),
    }
}

fn aside_text(alloc: Global, leaving: &Leaving) -> Result<Vec<u8>, AllocError> {
    let net = digits(leaving.net.as_bytes());
    let text = format!(in alloc;
        "its journal is in journal.{net} now: name the new hub in its line hub, and start it\n"
    )?;
    Ok(text.into_bytes())
}

// Which leaf it is, and what it holds.
fn leaf_text(alloc: Global, leaf: &Leaf, net: &str) -> Result<Vec<u8>, AllocError> {
    let (number, version) = (leaf.number(), leaf.version());
    let users = leaf.user_count();
    let bans = leaf.records().len().saturating_sub(users);
    let text = format!(in alloc;
        "leaf {number} net {net} version {version} users {users} bans {bans}\n"
    )?;
    Ok(text.into_bytes())
}

// What it had asked, by the words of `eggnet tell`.
fn put_asked(alloc: Global, text: &mut Vec<u8>, leaf: &Leaf) -> Result<(), AllocError> {
    for request in leaf.asked() {
        let words = ChangeWords(&request.change);
        put(text, format!(in alloc; "asked and not heard: {words}\n")?)?;
    }
    Ok(())
}

fn put(text: &mut Vec<u8>, line: String) -> Result<(), AllocError> {
    text.extend_from_slice(line.as_bytes())
}

/// Returns the digits of a net's number.
pub fn digits(net: &[u8]) -> &str {
    str::from_utf8(net).unwrap_or("")
}

// Prints a text as a terminal may show it. Returns the exit status.
fn print<R: Input + Print + Eprint + AllocGlobal>(rt: &R, text: Result<Vec<u8>, AllocError>) -> u8 {
    let Ok(text) = text else {
        return out_of_memory(rt);
    };
    let Ok(text) = escaped(rt.alloc(), text) else {
        return out_of_memory(rt);
    };
    let mut stream = Duplex::new(rt.reader(), io::writer(rt));
    match write_out(&mut stream, text.as_slice()) {
        Ok(()) => 0,
        Err(WriteFault) => not_written(rt),
    }
}

/// Reports why a leaf of `folder` is not promoted, or does not start over. Returns the exit status.
pub fn refused<R: Eprint>(rt: &R, folder: &str, heir: &str, error: PromotionError) -> u8 {
    let fault = match error {
        Failure::Refused(fault) => fault,
        Failure::NoMemory => return out_of_memory(rt),
    };
    let (subject, status) = match fault {
        PromotionFault::Heir(_) | PromotionFault::Beside => (heir, STREAM_FAULT),
        PromotionFault::Folder(_) | PromotionFault::System => (folder, STREAM_FAULT),
        PromotionFault::IsHub
        | PromotionFault::NoNet
        | PromotionFault::BadNet
        | PromotionFault::OlderLayout
        | PromotionFault::Unread
        | PromotionFault::GenerationsSpent
        | PromotionFault::OtherNet => (folder, FAULT),
    };
    let _told = eprintln!(rt; "eggnet: {subject} {fault}");
    status
}
