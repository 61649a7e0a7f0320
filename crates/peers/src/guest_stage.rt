// How far a guest has come.
use handshake::Ask;

// How far a guest has come.
#[derive(Clone, Copy)]
pub(crate) enum GuestStage {
    // It has not shown a code.
    Meets,
    // It is a leaf that has shown its code, and waits to be judged.
    Asks(Asked),
    // It may join as soon as the line for its folder is in the book on the disk.
    Enters(Asked),
}

// What a leaf that has shown its code asks.
#[derive(Clone, Copy)]
pub(crate) struct Asked {
    // The length of its line.
    pub(crate) used: usize,
    pub(crate) ask: Ask,
}
