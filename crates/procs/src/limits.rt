// The limits of stores, replies and tables of binds.

/// The most procs that a store holds.
pub const MAX_PROCS: usize = 200;

/// The most actions that a reply has.
pub const MAX_ACTIONS: usize = 8;

/// The most binds that a table holds (our own choice).
pub const MAX_BINDS: usize = 500;

/// The most bytes in a mask (our own choice, as for all masks).
pub const MAX_MASK: usize = 120;

/// The last number that a bind can have.
pub const MAX_NUMBER: u32 = 4_294_967_295;

/// The most bytes of an account that a hostmask `$a:NAME` can name: a hostmask has at most 120.
pub const MAX_ACCOUNT: usize = 117;
