// Which texts may stand in a change or a record.
ghost use Rattle.std.specs.Prelude.{◌≡◌, ◌==◌, ◌&&◌, not};
ghost use Rattle.std.specs.List.{list_all};
ghost use Rattle.userfile.specs.Shapes.{is_handle_byte, is_handle, is_ban_channel, is_hostmask, is_person, is_line_byte, is_comment, is_info};

use crate::limits::{MAX_COMMENT, MAX_HANDLE, MAX_INFO};
use rfccase::is_channel_name;
use wildmask::host_fault;

/// Returns whether `bytes` are a handle: 1 to 32 bytes from 33 to 126, none of them one of `* , : @`.
#[tactic(auto, unfolding(crate::specs::Shapes::is_handle))]
pub fn is_handle(bytes: &[u8]) -> bool
    ensures { result ≡ is_handle bytes.now }
{
    !bytes.is_empty() && bytes.len() <= MAX_HANDLE && are_handle_bytes(bytes)
}

fn are_handle_bytes(bytes: &[u8]) -> bool
    ensures { result ≡ list_all is_handle_byte bytes.now }
{
    bytes.iter().all(|byte| is_handle_byte(*byte))
}

fn is_handle_byte(byte: u8) -> bool
    ensures { result ≡ is_handle_byte byte }
{
    byte >= 33 && byte <= 126 && byte != b'*' && byte != b',' && byte != b':' && byte != b'@'
}

/// Returns whether `bytes` may be a ban's channel: a channel name, or empty for a ban of all channels.
#[tactic(auto, unfolding(crate::specs::Shapes::is_ban_channel))]
pub fn is_ban_channel(bytes: &[u8]) -> bool
    ensures { result ≡ is_ban_channel bytes.now }
{
    bytes.is_empty() || is_channel_name(bytes)
}

/// Returns whether `bytes` are a hostmask by the rules of `wildmask`.
#[tactic(auto, unfolding(crate::specs::Shapes::is_hostmask))]
pub fn is_hostmask(bytes: &[u8]) -> bool
    ensures { result ≡ is_hostmask bytes.now }
{
    host_fault(bytes).is_none()
}

/// Returns whether `bytes` are a person: `nick!user@host`, or `$a:NAME`, somebody who is known by the account `NAME` of
/// the IRC network. Such a text is a hostmask without the wildcards `*` and `?`.
#[tactic(auto, unfolding(crate::specs::Shapes::is_person))]
pub fn is_person(bytes: &[u8]) -> bool
    ensures { result ≡ is_person bytes.now }
{
    is_hostmask(bytes) && has_no_wildcard(bytes)
}

fn has_no_wildcard(bytes: &[u8]) -> bool
    ensures { result ≡ list_all (λ b. not (b == 42) && not (b == 63)) bytes.now }
{
    bytes.iter().all(|byte| *byte != b'*' && *byte != b'?')
}

/// Returns whether `bytes` may be a ban's comment: at most 100 bytes, none of them NUL, CR or LF.
#[tactic(auto, unfolding(crate::specs::Shapes::is_comment))]
pub fn is_comment(bytes: &[u8]) -> bool
    ensures { result ≡ is_comment bytes.now }
{
    bytes.len() <= MAX_COMMENT && is_one_line(bytes)
}

/// Returns whether `bytes` may be a user's info text: at most 80 bytes, none of them NUL, CR or LF.
#[tactic(auto, unfolding(crate::specs::Shapes::is_info))]
pub fn is_info(bytes: &[u8]) -> bool
    ensures { result ≡ is_info bytes.now }
{
    bytes.len() <= MAX_INFO && is_one_line(bytes)
}

/// Returns whether none of the `bytes` is NUL, CR or LF.
pub fn is_one_line(bytes: &[u8]) -> bool
    ensures { result ≡ list_all is_line_byte bytes.now }
{
    bytes
        .iter()
        .all(|byte| *byte != 0 && *byte != b'\r' && *byte != b'\n')
}
