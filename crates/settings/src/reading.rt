// A whole file.
ghost use Rattle.std.specs.Prelude.{◌≡◌, ◌==◌, None, map, IfOk};
ghost use Rattle.std.specs.List.{slice_split};
ghost use Rattle.settings.specs.Reading.{Answers, is_placed, lack_of, lines_read, misplaced, misplacing, role_lack, said_by, station_of, utc};

use crate::MAX_FILE;
use crate::advice::SettingAdvice;
use crate::draft::Draft;
use crate::fault::{Lack, SettingsError, SettingsFault};
use crate::saying::saying_of;
use crate::settings::{LeafLine, Settings, Station};
use crate::tunnels::tunnels_fit;
use bottimers::Zone;
use bytetext::Failure;
use std::alloc::{AllocError, Global};

// A hub without leaves.
pub(crate) const ALONE: Station = Station {
    number: 0,
    leaves: 0,
};

impl Settings {
    ghost use Rattle.std.specs.Prelude.{◌≡◌, ◌<◌, length};
    ghost use Rattle.settings.specs.Reading.{ReadsAs};

    /// Reads `bytes` as a configuration file.
    ///
    /// # Errors
    /// `Refused` with `TooLong` above 65,536 bytes, else with the first line that breaks a rule by itself or after those
    /// above it, else with the first line `leaf` that does not fit the bot, else with the first thing that the file
    /// lacks; `NoMemory` if an allocation fails before a fault is seen. The check of the length
    /// does not allocate.
    pub fn read(alloc: Global, bytes: &[u8]) -> Result<Settings, SettingsError>
        ensures reads { ReadsAs bytes.now result }
        ensures too_long { MAX_FILE < length bytes.now → result ≡ Err (Failure.Refused SettingsFault.TooLong) }
    {
        if bytes.len() > MAX_FILE {
            return Err(Failure::Refused(SettingsFault::TooLong));
        }
        let lines = lines_of(alloc, bytes)?;
        complete(draft_of(alloc, lines.as_slice())?)
    }
}

// The lines, empty ones too: one more than there are line feeds.
fn lines_of(alloc: Global, bytes: &[u8]) -> Result<Vec<&[u8]>, AllocError>
    ensures { IfOk result (λ lines. map (λ line. line.now) lines.items ≡ slice_split (λ b. b == 10) bytes.now) }
{
    let mut lines = Vec::new(alloc);
    for line in bytes.split(|byte| *byte == b'\n') {
        lines.push(line)?;
    }
    Ok(lines)
}

// What these lines say together.
fn draft_of(alloc: Global, lines: &[&[u8]]) -> Result<Draft, SettingsError>
    ensures { Answers (lines_read (map (λ line. line.now) lines.now)) result }
{
    let mut draft = Draft::new(alloc);
    for (place, bytes) in lines.iter().enumerate() {
        let line = place as u64 + 1;
        let saying = saying_of(alloc, bytes)?;
        match draft.refusal(&saying) {
            Some(advice) => return Err(Failure::Refused(SettingsFault::Line { line, advice })),
            None => saying.add_to(line, &mut draft)?,
        }
    }
    Ok(draft)
}

// The settings, if lines without a fault lack nothing.
#[tactic(auto, unfolding(crate::specs::Reading::said_by))]
fn complete(draft: Draft) -> Result<Settings, SettingsError>
    ensures { Answers (said_by draft) result }
{
    if let Some(
        LeafLine {
            line,
            leaf: _,
            rule: _,
        },
    ) = misplaced(&draft)
    {
        let advice = misplacing(station_of(&draft));
        return Err(Failure::Refused(SettingsFault::Line { line, advice }));
    }
    match lack_of(&draft) {
        Some(lack) => Err(Failure::Refused(SettingsFault::Lacks(lack))),
        None => Ok(draft.into_settings()),
    }
}

// The first line `leaf` that does not fit the bot.
fn misplaced(draft: &Draft) -> Option<LeafLine>
    ensures { result ≡ misplaced draft.now }
{
    let station = station_of(draft);
    draft
        .limits
        .as_slice()
        .iter()
        .copied()
        .find(|line| !is_placed(station, *line))
}

// Whether a line `leaf` fits the bot at this station.
fn is_placed(station: Station, line: LeafLine) -> bool
    ensures { result ≡ is_placed station line }
{
    station.number == 0 && line.leaf >= 1 && line.leaf <= station.leaves
}

// What to say of a line `leaf` that does not fit the bot at this station.
fn misplacing(station: Station) -> SettingAdvice
    ensures { result ≡ misplacing station }
{
    if station.number == 0 {
        SettingAdvice::NoLeaf
    } else {
        SettingAdvice::HubAlone
    }
}

// Which bot it is.
fn station_of(draft: &Draft) -> Station
    ensures { result ≡ station_of draft.now }
{
    draft.station.unwrap_or(ALONE)
}

// What lines without a fault lack.
fn lack_of(draft: &Draft) -> Option<Lack>
    ensures { result ≡ lack_of draft.now }
{
    if draft.folder.is_none() {
        return Some(Lack::Data);
    }
    if draft.nick.is_none() {
        return Some(Lack::Nick);
    }
    if draft.servers.is_empty() {
        return Some(Lack::Server);
    }
    let lack = role_lack(
        station_of(draft),
        !draft.hubs.is_empty(),
        draft.listen.is_some(),
        draft.secret.is_some(),
    );
    match lack {
        None if !tunnels_fit(draft) => Some(Lack::Tunnel),
        None | Some(_) => lack,
    }
}

// What a bot at this station lacks.
fn role_lack(station: Station, hub: bool, listen: bool, secret: bool) -> Option<Lack>
    ensures { result ≡ role_lack station hub listen secret }
{
    let is_leaf = station.number > 0;
    if is_leaf && !hub {
        return Some(Lack::Hub);
    }
    if is_leaf && listen {
        return Some(Lack::LeafListens);
    }
    if !is_leaf && station.leaves > 0 && !listen {
        return Some(Lack::Listen);
    }
    if !is_leaf && hub {
        return Some(Lack::HubOfHub);
    }
    if (is_leaf || station.leaves > 0) && !secret {
        return Some(Lack::Secret);
    }
    None
}

// A clock that shows UTC.
pub(crate) fn utc() -> Zone
    ensures { result ≡ utc }
{
    Zone::fixed(0).unwrap()
}
