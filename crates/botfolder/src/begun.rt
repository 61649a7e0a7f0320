// What a start finds in a bot's folder.
use disks::Pair;

/// The disks of a bot's journal, as a start finds them.
#[derive(Drop)]
pub enum Begun {
    /// A journal was made on them. If a crash came, nobody knows more of the journal than the crash left.
    Found(Pair),
    /// They are empty: create a bot on them, and then call [`BotFolder::finish`](crate::BotFolder::finish).
    Empty(Pair),
}
