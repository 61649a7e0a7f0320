// A ban as an object.
ghost use Rattle.std.specs.Prelude.{◌≡◌, ◌++◌, OnOk};
ghost use Rattle.recordjson.specs.Bans.{ban_text, aim_text, terms_text};

use crate::line::JsonLine;
use bytetext::NoMemory;
use userfile::Ban;

// Appends `ban` as an object.
#[tactic(auto, using(std::proofs::Common::append_assoc))]
pub(crate) fn put_ban(line: &mut JsonLine, ban: &Ban) -> Result<(), NoMemory>
    ensures { OnOk result (line.new ≡ line.old ++ ban_text ban.now) }
{
    put_aim(line, ban)?;
    put_terms(line, ban)
}

// {"channel":C,"mask":M,"creator":H
#[tactic(auto, using(std::proofs::Common::append_assoc))]
fn put_aim(line: &mut JsonLine, ban: &Ban) -> Result<(), NoMemory>
    ensures { OnOk result (line.new ≡ line.old ++ aim_text ban.now) }
{
    line.put_first(b"channel")?;
    line.put_text_or_null(ban.channel.as_bytes())?;
    line.put_next(b"mask")?;
    line.put_text(ban.mask.as_bytes())?;
    line.put_next(b"creator")?;
    line.put_text(ban.creator.as_bytes())
}

// ,"expires":E,"comment":TEXT,"sticky":B}
#[tactic(auto, using(std::proofs::Common::append_assoc))]
fn put_terms(line: &mut JsonLine, ban: &Ban) -> Result<(), NoMemory>
    ensures { OnOk result (line.new ≡ line.old ++ terms_text ban.now) }
{
    line.put_next(b"expires")?;
    line.put_second(ban.expires)?;
    line.put_next(b"comment")?;
    line.put_text_or_null(ban.comment.as_bytes())?;
    line.put_next(b"sticky")?;
    line.put_truth(ban.sticky)?;
    line.put_words(b"}")
}
