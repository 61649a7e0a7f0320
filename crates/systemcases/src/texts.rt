// Answers as words.
use net::DoorFault;
use streams::{Given, Taken};

/// Returns the word for the `answer` of a stream to a read.
pub fn given(answer: Given) -> &'static str {
    match answer {
        Given::Bytes(_) => "bytes",
        Given::End => "its end",
        Given::Stall => "nothing yet",
        Given::Fault => "a fault",
    }
}

/// Returns the word for the `answer` of a stream that was offered bytes.
pub fn taken(answer: Taken) -> &'static str {
    match answer {
        Taken::Bytes(_) => "bytes",
        Taken::Nothing => "none now",
        Taken::Fault => "a fault",
    }
}

/// Returns the word for whether `door` was opened.
pub fn opened<D>(door: &Result<D, DoorFault>) -> &'static str {
    match door {
        Ok(_) => "done",
        Err(DoorFault::InUse) => "in use",
        Err(DoorFault::NotHere) => "no address of this machine",
        Err(DoorFault::Barred) => "barred",
        Err(DoorFault::Closed) => "closed",
    }
}
