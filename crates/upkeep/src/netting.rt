// Which net a bot belongs to, and how it is connected to the others.
ghost use Rattle.std.specs.Prelude.{◌≡◌, ◌<◌, IfOk, map};
ghost use Rattle.upkeep.specs.Stations.{IsKnownWhereWanted, IsLinkedAs, limit_in, own_key, rights_by};

use crate::ending::{RunError, of_folder};
use administrators::LogEntry;
use botfolder::BotFolder;
use bytetext::{Failure, NoMemory};
use handshake::{
    Book, DrawnNumber, LeafRights, Secret, SecretFault, key_of, leaf_key, parent_in,
    tunnel_key_line,
};
use net::{DoorFault, Log, Registry, literal};
use peers::{
    Doubted, HubConnection, HubLinks, HubStation, LeafLimit, LeafStation, Links, ListenFault,
    ListenPlace, doubt_in,
};
use sealing::Key;
use settings::{LeafLine, LeafRule, Settings, Station};
use std::alloc::Global;
use std::fs::File;
use std::net::Net;
use std::random::RandomSource;
use std::rt::Files;
use std::{fs, str};
use tunnels::{TunnelPath, tunnel_path};

/// Prepares the folder of a new bot: draws the number of the folder, unless it keeps one. A bot with the number 0 draws the
/// number of its net, and a leaf forgets an earlier one.
///
/// # Errors
/// `Folder`, `NoMade`, `System` and `NoMemory`, as [`RunError`] describes them.
pub fn begin_net<R: AllocGlobal + Files<File = File> + RandomSource>(
    rt: &R,
    folder: &BotFolder,
    settings: &Settings,
) -> Result<(), RunError> {
    let _made = made_of(rt, folder)?;
    if settings.station.number > 0 {
        return match folder.forget_net(rt) {
            Ok(()) => Ok(()),
            Err(error) => Err(of_folder(error)),
        };
    }
    keep_net(rt, folder, &drawn(rt)?)
}

// Saves the number of the net.
pub(crate) fn keep_net<R: AllocGlobal + Files<File = File>>(
    rt: &R,
    folder: &BotFolder,
    net: &DrawnNumber,
) -> Result<(), RunError> {
    match folder.keep_net(rt, net.as_bytes()) {
        Ok(()) => Ok(()),
        Err(error) => Err(of_folder(error)),
    }
}

// Reads the number of the net that the folder keeps, if it keeps one.
fn net_of<R: AllocGlobal + Files<File = File>>(
    rt: &R,
    folder: &BotFolder,
) -> Result<Option<DrawnNumber>, RunError> {
    match folder.net(rt) {
        Ok(Some(digits)) => match DrawnNumber::read(&digits) {
            Some(net) => Ok(Some(net)),
            None => Err(RunError::NoNet),
        },
        Ok(None) => Ok(None),
        Err(error) => Err(of_folder(error)),
    }
}

// Reads the number of the folder. If the folder keeps none, as one of an earlier release, draws it and saves it.
fn made_of<R: AllocGlobal + Files<File = File> + RandomSource>(
    rt: &R,
    folder: &BotFolder,
) -> Result<DrawnNumber, RunError> {
    match folder.made(rt) {
        Ok(Some(digits)) => match DrawnNumber::read(&digits) {
            Some(made) => Ok(made),
            None => Err(RunError::NoMade),
        },
        Ok(None) => keep_made(rt, folder, drawn(rt)?),
        Err(error) => Err(of_folder(error)),
    }
}

// Saves the number of the folder, and returns it.
fn keep_made<R: AllocGlobal + Files<File = File>>(
    rt: &R,
    folder: &BotFolder,
    made: DrawnNumber,
) -> Result<DrawnNumber, RunError>
    ensures { IfOk result (λ kept. kept ≡ made) }
{
    match folder.keep_made(rt, made.as_bytes()) {
        Ok(()) => Ok(made),
        Err(error) => Err(of_folder(error)),
    }
}

// Draws the number of a net or of a folder.
fn drawn<R: RandomSource>(rt: &R) -> Result<DrawnNumber, RunError> {
    match DrawnNumber::draw(rt) {
        Ok(number) => Ok(number),
        Err(_) => Err(RunError::System),
    }
}

/// Reads the secret that this bot's links need; none if the bot is alone.
///
/// # Errors
/// `Secret` if there is none that suits this bot.
pub fn secret_of<R: Files<File = File>>(
    rt: &R,
    settings: &Settings,
) -> Result<Option<Secret>, RunError>
    ensures known { IfOk result (IsKnownWhereWanted settings.now.station) }
{
    if settings.station.leaves == 0 {
        return Ok(None);
    }
    let path = match &settings.secret {
        Some(path) => path.as_bytes(),
        None => b"",
    };
    let Ok(path) = str::from_utf8(path) else {
        return Err(RunError::Secret(SecretFault::Unreadable));
    };
    match key_of(rt, path) {
        Ok(secret) => fitting(settings.station, secret),
        Err(fault) => Err(RunError::Secret(fault)),
    }
}

// The secret, unless it is a leaf's key and this bot is another: the hub needs the net's secret, and a leaf that or its own
// key.
fn fitting(station: Station, secret: Secret) -> Result<Option<Secret>, RunError>
    requires net { 0 < station.leaves }
    ensures known { IfOk result (IsKnownWhereWanted station) }
{
    match secret {
        Secret::Net(_) => Ok(Some(secret)),
        Secret::Leaf { leaf: _, key: _ } if station.number == 0 => {
            Err(RunError::Secret(SecretFault::LeafKey))
        }
        Secret::Leaf { leaf, key: _ } if leaf == station.number => Ok(Some(secret)),
        Secret::Leaf { leaf: _, key: _ } => Err(RunError::Secret(SecretFault::OtherLeaf)),
    }
}

/// Returns the lines of the file of the tunnels' keys of the bot of `settings`, by its `secret`: a hub's has a line of each
/// of its leaves, and a leaf's its own ([`tunnel_key_line`]).
///
/// # Errors
/// `NoMemory` if an allocation fails.
pub fn tunnel_keys(
    alloc: Global,
    settings: &Settings,
    secret: Secret,
) -> Result<Vec<u8>, NoMemory> {
    let mut text = Vec::new(alloc);
    let station = settings.station;
    if station.number > 0 {
        put_key(&mut text, station.number, &secret)?;
        return Ok(text);
    }
    for place in 0..station.leaves {
        put_key(&mut text, place + 1, &secret)?;
    }
    Ok(text)
}

// Appends the line of a leaf's key.
fn put_key(out: &mut Vec<u8>, leaf: u16, secret: &Secret) -> Result<(), NoMemory> {
    let line = tunnel_key_line(&own_key(leaf, *secret), leaf);
    out.extend_from_slice(line.as_bytes())?;
    Ok(())
}

/// Warns in the log, at second `now`, if a leaf knows the secret of its whole net. The seconds count from 1970-01-01 UTC.
pub fn warn(log: &mut Log, settings: &Settings, secret: Option<Secret>, now: u64) {
    let number = settings.station.number;
    if number > 0 && is_nets(secret) {
        log.note(now, &LogEntry::KnowsNet(number));
    }
}

// Whether a bot knows the secret of its whole net.
fn is_nets(secret: Option<Secret>) -> bool {
    match secret {
        Some(Secret::Net(_)) => true,
        Some(Secret::Leaf { leaf: _, key: _ }) | None => false,
    }
}

/// Creates a bot's connections to the others. None is connected yet. `version` is the version of the bot's records.
///
/// # Errors
/// `NoNet`, `NoMade`, `BadDoubt`, `BadParent`, `Book`, `Listen`, `Folder`, `System` and `NoMemory`, as [`RunError`] describes them.
#[inline(never)]
pub fn links_of<R: AllocGlobal + Net + Files<File = File> + RandomSource>(
    rt: &R,
    registry: &Registry,
    folder: &BotFolder,
    settings: &Settings,
    secret: Option<Secret>,
    version: u32,
) -> Result<Links, RunError>
    requires known { IsKnownWhereWanted settings.now.station secret }
    // The bot is alone, the hub or a leaf, as its number and the number of leaves say.
    ensures station { IfOk result (IsLinkedAs settings.now.station) }
{
    let Some(secret) = secret else {
        return Ok(Links::Alone);
    };
    if settings.station.number > 0 {
        let key = own_key(settings.station.number, secret);
        return leaf_links(rt, folder, settings, key, version);
    }
    match secret {
        Secret::Net(key) => open_hub(rt, registry, folder, settings, key),
        Secret::Leaf { leaf: _, key: _ } => Err(RunError::Secret(SecretFault::LeafKey)),
    }
}

// The key of the leaf numbered `leaf`, which knows this secret.
fn own_key(leaf: u16, secret: Secret) -> Key
    ensures { result ≡ own_key leaf secret }
{
    match secret {
        Secret::Net(net) => leaf_key(&net, leaf),
        Secret::Leaf { leaf: _, key } => key,
    }
}

// Creates a leaf's connection to its hub. A leaf that holds records of a hub has a number of its net.
fn leaf_links<R: AllocGlobal + Files<File = File> + RandomSource>(
    rt: &R,
    folder: &BotFolder,
    settings: &Settings,
    key: Key,
    version: u32,
) -> Result<Links, RunError>
    requires leaf { 0 < settings.now.station.number }
    requires others { 0 < settings.now.station.leaves }
    ensures station { IfOk result (IsLinkedAs settings.now.station) }
{
    let net = net_of(rt, folder)?;
    if net.is_none() && version > 0 {
        return Err(RunError::NoNet);
    }
    let station = LeafStation {
        key,
        leaf: settings.station.number,
        leaves: settings.station.leaves,
        made: made_of(rt, folder)?,
        net,
    };
    let hubs = settings.hubs.len();
    Ok(Links::Leaf(HubConnection::new(rt.alloc(), station, hubs)?))
}

// Opens the hub's connections.
fn open_hub<R: AllocGlobal + Net + Files<File = File>>(
    rt: &R,
    registry: &Registry,
    folder: &BotFolder,
    settings: &Settings,
    key: Key,
) -> Result<Links, RunError>
    requires hub { settings.now.station.number ≡ 0 }
    requires others { 0 < settings.now.station.leaves }
    ensures station { IfOk result (IsLinkedAs settings.now.station) }
{
    let Some(net) = net_of(rt, folder)? else {
        return Err(RunError::NoNet);
    };
    let path = listen_path(settings);
    let Some(place) = listen_place(settings, path.as_ref()) else {
        return Err(RunError::Listen(DoorFault::NotHere));
    };
    clear(rt, place);
    let station = HubStation {
        key,
        net,
        leaves: settings.station.leaves,
        limits: limits_of(rt.alloc(), settings)?,
        book: book_of(rt, folder, settings.station.leaves)?,
        doubt: doubt_of(rt, folder)?,
        parent: parent_of(rt, folder)?,
    };
    match HubLinks::open(rt, registry, place, station) {
        Ok(hub) => Ok(Links::Hub(hub)),
        Err(ListenFault::Door(fault)) => Err(RunError::Listen(fault)),
        Err(ListenFault::NoMemory) => Err(RunError::NoMemory),
    }
}

// The leaves that may not ask for every change.
fn limits_of(alloc: Global, settings: &Settings) -> Result<Vec<LeafLimit>, NoMemory>
    ensures { IfOk result (λ limits. limits.items ≡ map limit_in settings.now.limits) }
{
    let mut limits = Vec::new(alloc);
    for line in settings.limits.as_slice() {
        limits.push(limit_in(*line))?;
    }
    Ok(limits)
}

// What a line says that a leaf may do.
fn limit_in(line: LeafLine) -> LeafLimit
    ensures { result ≡ limit_in line }
{
    LeafLimit {
        leaf: line.leaf,
        may: rights_by(line.rule),
    }
}

fn rights_by(rule: LeafRule) -> LeafRights
    ensures { result ≡ rights_by rule }
{
    match rule {
        LeafRule::Reads => LeafRights::Reads,
        LeafRule::Persons => LeafRights::Persons,
    }
}

// Reads the hub's book of its leaves. A hub that has none yet knows no leaf's folder.
fn book_of<R: AllocGlobal + Files<File = File>>(
    rt: &R,
    folder: &BotFolder,
    leaves: u16,
) -> Result<Book, RunError> {
    let lines = match folder.leaves(rt) {
        Ok(Some(lines)) => lines,
        Ok(None) => return Ok(Book::empty(rt.alloc(), leaves)?),
        Err(error) => return Err(of_folder(error)),
    };
    match Book::read(rt.alloc(), lines.as_slice(), leaves) {
        Ok(book) => Ok(book),
        Err(Failure::Refused(fault)) => Err(RunError::Book(fault)),
        Err(Failure::NoMemory) => Err(RunError::NoMemory),
    }
}

// Reads whether the hub may be an older copy of itself, as it found before it was started again.
fn doubt_of<R: AllocGlobal + Files<File = File>>(
    rt: &R,
    folder: &BotFolder,
) -> Result<Option<Doubted>, RunError> {
    match folder.doubt(rt) {
        Ok(Some(bytes)) => match doubt_in(bytes.as_slice()) {
            Some(doubted) => Ok(Some(doubted)),
            None => Err(RunError::BadDoubt),
        },
        Ok(None) => Ok(None),
        Err(error) => Err(of_folder(error)),
    }
}

// Reads the number of the net that an heir's hub goes on from; none if this hub is no heir.
fn parent_of<R: AllocGlobal + Files<File = File>>(
    rt: &R,
    folder: &BotFolder,
) -> Result<Option<DrawnNumber>, RunError> {
    match folder.parent(rt) {
        Ok(Some(line)) => match parent_in(line.as_slice()) {
            Some(parent) => Ok(Some(parent)),
            None => Err(RunError::BadParent),
        },
        Ok(None) => Ok(None),
        Err(error) => Err(of_folder(error)),
    }
}

// The path at which the hub listens, if the port of its line listen has a plus.
fn listen_path(settings: &Settings) -> Option<TunnelPath> {
    match &settings.listen {
        Some(address) if address.tls => tunnel_path(settings.folder.as_bytes(), address),
        Some(_) | None => None,
    }
}

// Where the hub listens: at the path of its tunnel alone, if the port of its line listen has a plus, else at that line's
// address.
fn listen_place<'a>(settings: &Settings, path: Option<&'a TunnelPath>) -> Option<ListenPlace<'a>> {
    match &settings.listen {
        Some(address) if address.tls => Some(ListenPlace::Path(path?.as_str())),
        Some(address) => {
            let address = literal(address.host.as_bytes(), address.port)?;
            Some(ListenPlace::Address(address))
        }
        None => None,
    }
}

// Removes the socket that a killed hub left. This process has taken the folder in which it lies.
fn clear<R: Files>(rt: &R, place: ListenPlace<'_>) {
    if let ListenPlace::Path(path) = place {
        let _gone = fs::remove_file(rt, path);
    }
}
