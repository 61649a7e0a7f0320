// The page that shows the bot.
ghost use Rattle.std.specs.Prelude.{◌≡◌, IfOk, is_some};
ghost use Rattle.upkeep.specs.Ending.{page_cause};

use crate::account::{AccountFault, first_line, read_front};
use crate::ending::RunError;
use bytetext::Text;
use net::{DoorFault, Watch, literal};
use page::{PageServer, PageSite};
use settings::{PageSetting, Settings};
use std::fs::File;
use std::net::Net;
use std::rt::Files;
use std::str;

// Room for the longest password, with its CR and LF.
const ROOM: usize = 258;

/// Why the page of the configuration cannot be served.
#[derive(Clone, Copy, Debug, PartialEq, Eq)]
pub enum PageFault {
    /// The password's file is missing, or this user may not read it.
    Unreadable,
    /// The password's file is a folder, a FIFO, a socket or a device.
    NotRegular,
    /// The first line of the password's file is empty.
    Empty,
    /// The system has no file or memory for the password's file, or its disk fails.
    System,
    /// The process cannot listen at the address.
    Door(DoorFault),
}

/// Opens the page of `settings`, if there is one.
///
/// # Errors
/// `Page` if the password's file or the address cannot be used; `NoMemory` if an allocation fails.
pub fn page_of<R: AllocGlobal + Net + Files<File = File>>(
    rt: &R,
    watch: &Watch,
    settings: &Settings,
) -> Result<Option<PageServer>, RunError>
    ensures page { IfOk result (λ page. is_some page ≡ is_some settings.now.page) }
{
    match &settings.page {
        Some(setting) => Ok(Some(server_of(rt, watch, setting)?)),
        None => Ok(None),
    }
}

// Opens a page.
fn server_of<R: AllocGlobal + Net + Files<File = File>>(
    rt: &R,
    watch: &Watch,
    setting: &PageSetting,
) -> Result<PageServer, RunError> {
    let host = setting.address.host.as_bytes();
    let port = setting.address.port;
    let open = PageSite::new(rt.alloc(), host, port)?;
    let site = match password_of(rt, setting)? {
        Some(password) => open.with_password(password.as_bytes()),
        None => open,
    };
    let Some(address) = literal(host, port) else {
        return Err(RunError::Page(PageFault::Door(DoorFault::NotHere)));
    };
    match PageServer::open(rt, watch.registry(), address, site) {
        Ok(server) => Ok(server),
        Err(fault) => Err(RunError::Page(PageFault::Door(fault))),
    }
}

// Reads the password of a page, if it has one: the first line of its file.
fn password_of<R: AllocGlobal + Files<File = File>>(
    rt: &R,
    setting: &PageSetting,
) -> Result<Option<Text>, RunError>
    ensures { IfOk result (λ password. is_some password ≡ is_some setting.now.password) }
{
    let Some(path) = &setting.password else {
        return Ok(None);
    };
    let Ok(path) = str::from_utf8(path.as_bytes()) else {
        return Err(RunError::Page(PageFault::Unreadable));
    };
    let mut bytes = [0; ROOM];
    match read_front(rt, path, &mut bytes) {
        Ok(count) => match first_line(&bytes[..count]) {
            b"" => Err(RunError::Page(PageFault::Empty)),
            line => Ok(Some(Text::from_slice(rt.alloc(), line)?)),
        },
        Err(fault) => Err(RunError::Page(fault_of(fault))),
    }
}

// The fault of a password's file.
fn fault_of(fault: AccountFault) -> PageFault
    ensures { result ≡ page_cause fault }
{
    match fault {
        AccountFault::NotRegular => PageFault::NotRegular,
        AccountFault::System => PageFault::System,
        AccountFault::Unreadable | AccountFault::Credentials(_) => PageFault::Unreadable,
    }
}

impl PageFault {
    // What to change. It follows the name of the configuration file.
    pub(crate) fn advice(self) -> &'static str {
        match self {
            PageFault::Unreadable =>
                "the file of the line page can't be read: give a file that this user may read",
            PageFault::NotRegular =>
                "the file of the line page is not a regular file: give one whose first line is the password",
            PageFault::Empty =>
                "the first line of the file of the line page is empty: write the password there",
            PageFault::System =>
                "the file of the line page can't be read: the system has no file or memory for it, or its disk fails",
            PageFault::Door(DoorFault::InUse) =>
                "the address of the line page is in use: end the program that listens there, or take another port",
            PageFault::Door(DoorFault::NotHere) =>
                "the address of the line page is no address of this machine",
            PageFault::Door(DoorFault::Barred) =>
                "the address of the line page may not be listened on: take a port above 1023",
            PageFault::Door(DoorFault::Closed) =>
                "the address of the line page can't be listened on: the system has no file or memory for it",
        }
    }
}
