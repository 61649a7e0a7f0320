// What procs promise.

/// What the procs of a program promise, for contracts alone: no value of such a type exists, and none of it runs.
///
/// `promised` has three parts:
///
/// - `code_of` gives the code of a proc's answer, by the proc's name, the call, and the records and channels that it
///   sees. It can't depend on the clock, so bots with the same records and channels answer alike.
/// - `may` says which actions the answer may have, by everything that the proc sees.
/// - `may_lack` says for which calls the proc may run out of memory. With `promised code_of may`, every call may.
pub trait Promise {
    ghost use Rattle.procs.specs.Promises.{Promised};

    ghost promised: { Promised };
}
