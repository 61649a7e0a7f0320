// What a running bot can't change when its configuration is read again.
ghost use Rattle.std.specs.Prelude.{◌≡◌};
ghost use Rattle.upkeep.specs.Reloading.{are_hubs_in, are_said_in, changed_word, is_at, is_hub_in, same_address, same_hubs};
ghost use Rattle.upkeep.specs.Reloading.{same_leaves, same_page, same_station, same_text};

use bytetext::Text;
use settings::{Address, PageSetting, SettingWord, Settings, Station};

/// Returns the first word whose lines differ in `old` and `new`, of those that can't change while the bot runs, besides
/// `zone`.
pub fn changed_word(old: &Settings, new: &Settings) -> Option<SettingWord>
    ensures { result ≡ changed_word old.now new.now }
{
    if old.folder.as_bytes() != new.folder.as_bytes() {
        Some(SettingWord::Data)
    } else if !same_station(old.station, new.station) {
        Some(SettingWord::Bot)
    } else if !same_hubs(old.hubs.as_slice(), new.hubs.as_slice()) {
        Some(SettingWord::Hub)
    } else if !same_address(&old.listen, &new.listen) {
        Some(SettingWord::Listen)
    } else if !same_leaves(old, new) {
        Some(SettingWord::Leaf)
    } else if !same_text(&old.secret, &new.secret) {
        Some(SettingWord::Secret)
    } else if old.exclusive != new.exclusive {
        Some(SettingWord::Exclusive)
    } else if !same_page(&old.page, &new.page) {
        Some(SettingWord::Page)
    } else {
        None
    }
}

fn same_station(old: Station, new: Station) -> bool
    ensures { result ≡ same_station old new }
{
    old.number == new.number && old.leaves == new.leaves
}

pub(crate) fn same_text(old: &Option<Text>, new: &Option<Text>) -> bool
    ensures { result ≡ same_text old.now new.now }
{
    match (old, new) {
        (None, None) => true,
        (Some(old), Some(new)) => old.as_bytes() == new.as_bytes(),
        (None, Some(_)) | (Some(_), None) => false,
    }
}

fn same_address(old: &Option<Address>, new: &Option<Address>) -> bool
    ensures { result ≡ same_address old.now new.now }
{
    match (old, new) {
        (None, None) => true,
        (Some(old), Some(new)) => is_at(old, new),
        (None, Some(_)) | (Some(_), None) => false,
    }
}

// Whether the same hubs stand there, in whatever order.
fn same_hubs(old: &[Address], new: &[Address]) -> bool
    ensures { result ≡ same_hubs old.now new.now }
{
    are_hubs_in(old, new) && are_hubs_in(new, old)
}

fn are_hubs_in(hubs: &[Address], others: &[Address]) -> bool
    ensures { result ≡ are_hubs_in hubs.now others.now }
{
    hubs.iter().all(|hub| is_hub_in(hub, others))
}

fn is_hub_in(hub: &Address, others: &[Address]) -> bool
    ensures { result ≡ is_hub_in hub.now others.now }
{
    others.iter().any(|other| is_at(hub, other))
}

fn is_at(old: &Address, new: &Address) -> bool
    ensures { result ≡ is_at old.now new.now }
{
    old.port == new.port && old.tls == new.tls && old.host.as_bytes() == new.host.as_bytes()
}

// Whether the same lines of leaves stand there, in whatever order.
fn same_leaves(old: &Settings, new: &Settings) -> bool
    ensures { result ≡ same_leaves old.now.limits new.now.limits }
{
    are_said_in(old, new) && are_said_in(new, old)
}

fn are_said_in(one: &Settings, other: &Settings) -> bool
    ensures { result ≡ are_said_in one.now.limits other.now.limits }
{
    one.limits
        .as_slice()
        .iter()
        .all(|line| other.is_limited(line.leaf, line.rule))
}

fn same_page(old: &Option<PageSetting>, new: &Option<PageSetting>) -> bool
    ensures { result ≡ same_page old.now new.now }
{
    match (old, new) {
        (None, None) => true,
        (Some(old), Some(new)) => {
            is_at(&old.address, &new.address) && same_text(&old.password, &new.password)
        }
        (None, Some(_)) | (Some(_), None) => false,
    }
}
