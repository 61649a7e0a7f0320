// The statuses with which the programs end.
/// The status if the text of a file, or a request to a bot, breaks a rule.
pub const FAULT: u8 = 1;

/// The status if the command line is not understood.
pub const USAGE: u8 = 2;

/// The status if reading, writing, a folder or a socket fails, if no bot runs, or if a botnet stalls.
pub const STREAM_FAULT: u8 = 3;

/// The status if memory runs out.
pub const NO_MEMORY: u8 = 4;

/// Reports that memory ran out, and returns the status.
pub fn out_of_memory<R: Eprint>(rt: &R) -> u8 {
    let _told = eprintln!(rt; "eggnet: out of memory\nfree some and try again");
    NO_MEMORY
}

/// Reports that standard output takes no more, and returns the status.
pub fn not_written<R: Eprint>(rt: &R) -> u8 {
    let _told = eprintln!(rt; "eggnet: write fault");
    STREAM_FAULT
}

/// Reports that the script in `file` can't be read, and returns the status.
pub(crate) fn not_read<R: Eprint>(rt: &R, file: &str) -> u8 {
    let _told = eprintln!(rt;
        "eggnet: {file} can't be read: give a script that this user may read"
    );
    STREAM_FAULT
}
