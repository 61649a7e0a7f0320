// What a command asks for.
use bytetext::Text;
use settings::BindWords;
use userfile::Change;

/// What an admin asks a running bot for.
#[derive(Drop)]
pub enum AdminCommand {
    /// To change the userfile, in nobody's name. Nothing has checked that the handles, masks and channels are well formed.
    Change(Change),
    /// To show the version and the records.
    Show,
    /// To show the version and the records as JSON.
    ShowJson,
    /// To tell the accepted changes that the journal holds, from the one of this number on, from 1.
    Changes(u32),
    /// To show the bot's status.
    Status,
    /// To show the bot's status as JSON.
    StatusJson,
    /// To add a bind. Nothing has checked that such a type exists, or that flags and mask are well formed.
    Bind(BindWords),
    /// To remove a bind.
    Unbind(UnbindWords),
    /// To send the server a line of 1 to 510 bytes.
    Say(Text),
    /// To rewrite the journal.
    Compact,
    /// To leave the server for the next.
    Jump,
    /// At a hub: to disconnect the leaf of this number, from 1, and to let it come back from another folder. Nothing has
    /// checked that the net has such a leaf.
    Renew(u16),
    /// At a hub: to count its own records as the net's, though a leaf has shown newer or other ones.
    Trust,
    /// At a hub: to take no change any more, and to end once the leaf of this number, from 1, has all that it accepted.
    /// Nothing has checked that the net has such a leaf.
    HandOver(u16),
    /// To read the configuration file again.
    Reload,
    /// To open the log's file again.
    Reopen,
    /// To copy the journal into a new folder of this absolute path.
    Backup(Text),
    /// To join a channel, until the bot ends.
    Join(ChannelWords),
    /// To leave the channel of this name, until the bot ends.
    Part(Text),
    /// To ignore the person of this key, `user@host`, no longer.
    Unignore(Text),
    /// To end, and to send the server this text, which may be empty.
    Die(Text),
}

/// The words of a bind to remove. None is empty.
#[derive(Debug, Drop)]
pub struct UnbindWords {
    /// The type, as the table of binds names it.
    pub kind: Text,
    /// The proc that is called.
    pub proc: Text,
    /// The mask or keyword.
    pub mask: Text,
}

/// A channel to join.
#[derive(Debug, Drop)]
pub struct ChannelWords {
    /// The channel's name.
    pub channel: Text,
    /// Its key, if it needs one: 1 to [`MAX_KEY`](crate::MAX_KEY) bytes.
    pub key: Option<Text>,
}
