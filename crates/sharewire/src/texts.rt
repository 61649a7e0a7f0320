// Which texts one bot may send to another.
ghost use Rattle.std.specs.Prelude.{◌≡◌};
ghost use Rattle.sharewire.specs.Texts.{is_bot_text};

use userfile::is_one_line;

/// The most bytes of a text that one bot sends to another (our own choice: it fits a line of IRC).
pub const MAX_BOT_TEXT: usize = 400;

/// Whether one bot may send `text` to another: it has 1 to 400 bytes, none of them NUL, CR or LF.
#[tactic(auto, unfolding(crate::specs::Texts::is_bot_text))]
pub fn is_bot_text(text: &[u8]) -> bool
    ensures { result ≡ is_bot_text text.now }
{
    !text.is_empty() && text.len() <= MAX_BOT_TEXT && is_one_line(text)
}
