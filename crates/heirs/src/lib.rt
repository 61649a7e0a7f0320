//! An heir: a net that goes on from the records of another net, whose hub is lost.
//!
//! If the machine of a hub is lost, its leaves keep their records, but nobody can change them any more. So an operator
//! promotes a leaf: its version and its records become those of the hub of a new net, the *heir*. That hub has number 0,
//! and no reply to any leaf. The leaves of the old net become new leaves of the heir's net, without records and without
//! requests, and catch up.
//!
//! [`laws_of_heirs`] states that all that `processes` promises of a net holds of the heir's. In it, bots at one version
//! hold the same records, no version goes back, a request is accepted at most once, and bots that are alike call the same
//! procs. The two nets agree too: a bot of the old net and one of the heir's hold the same records, at whatever moments, if
//! they are at one version, and it is at most that of the promoted bot. The heir's hub is never below it. If the promoted
//! bot was at the hub's version, nothing that the hub had accepted by then is lost. The old net may go on meanwhile, or
//! come back: the laws hold all the same.
//!
//! An heir may have an heir. The laws are said of a net with any number of *ancestors*, of which each is an heir of the one
//! before it. Without ancestors it is a new net, as `processes` has it.
//!
//! What is promoted is what a bot shows. A bot that has stopped shows it once a process has opened its folder (`stopped`).
//! The heir's hub may be a bot that runs, or a folder that no process has opened yet (`founded`).
//!
//! The laws rest on these premises, which are definitions in `specs/`:
//!
//! - The heir's net begins as `IsHeir` says: no packet, and no request of the old net, gets into it. The connections of
//!   two nets have different keys, since a net draws its own number.
//! - Each net's bots do what `processes` allows (`Run`).
//!
//! Not promised: changes that the promoted bot did not have; that a request which was made in both nets is accepted only
//! once. The crate `promotion` makes the folder of such a hub.
#![tactic(auto)]

mod laws;

pub use crate::laws::laws_of_heirs;
