//! Procs and binds: code that a bot's user writes, the events that call it, and the order in which it is called.
//!
//! # Procs
//!
//! The bot calls a proc with a [`Call`], which is the [`CallKind`] of an event and its arguments, and a [`View`] of
//! itself: the records of people and bans, the channels, and the second of its clock. The proc returns a [`ProcReply`]: a
//! [`Code`] and at most eight [`Actions`]. It changes nothing itself: the bot carries out its actions.
//!
//! A [`Promise`] says what procs answer. It exists for contracts alone: for each proc name, `Call` and view it fixes
//! the code, a relation that the actions satisfy, and whether the proc may run out of memory. Codes can't depend on
//! the clock. [`Proc::new`] requires that a body keeps the promise of its name, so no layer above must require it
//! again. [`ProcStore`] holds at most 200 procs and calls them by name: the answer of [`ProcStore::call`] keeps the
//! promise of that name, `Call` and view, whichever closure the store holds. Contracts see a store as the list of its
//! names.
//!
//! A body is any type that implements [`Run`]. A program's `main` boxes closures ([`Body`]), and one function that is
//! generic over its bodies creates the store:
//!
//! ```text
//! struct Ours;
//! impl Promise for Ours {
//!     // Every proc answers 0, and asks for nothing.
//!     ghost promised = { promised (λ name call sight. Zero) (λ name call seen actions. actions ≡ []) };
//! }
//!
//! let mut store: ProcStore<Ours, B> = ProcStore::new(alloc);
//! store.add(alloc, Proc::new(Text::from_slice(alloc, b"quiet")?, quiet));
//! let view = View::new(&userfile, &channels, Some(1_000_000_000));
//! store.call(b"quiet", &call, &view)    // Ok(Reply { code: Code::Zero, actions: none })
//! store.call(b"other", &call, &view)    // Err(Refused(NoSuchProc)): P3
//! ```
//!
//! # Binds
//!
//! A bind names a kind of event, a flag expression, a mask and a proc, as Eggdrop's command `bind` does (its Tcl
//! commands document). An event calls the binds of its kind, oldest first, whose mask matches its subject and whose
//! expression the person's flags meet. Raw, bot, time and cron binds ignore flags:
//!
//! | kind | its mask | matched against |
//! |---|---|---|
//! | raw | wildcards | the command of a line |
//! | msg, pub | one keyword, in either case | the first word of a text |
//! | msgm, notc | wildcards | the whole text |
//! | pubm | wildcards | the channel, a space and the whole text |
//! | join, part, sign | wildcards | the channel, a space and `nick!user@host` |
//! | kick | wildcards | the channel, a space and the nick that is kicked |
//! | nick | wildcards | the channel, a space and the new nick |
//! | mode | wildcards | the channel, a space and one signed mode |
//! | topc | wildcards | the channel, a space and the topic |
//! | account | wildcards | the channel, `nick!user@host` and the account, with a space before each but the first |
//! | bot | one keyword, in either case | the first word of another bot's text |
//! | time | wildcards | `mm hh dd MM yyyy`, with the month from 00 |
//! | cron | cron fields | the minute that begins |
//!
//! [`handle_by`] says who the person of an event is. Whoever is logged in to the account NAME of the network's services
//! is the user with the hostmask `$a:NAME`, whatever the address. Everybody else is found by `nick!user@host`.
//! [`claim_by`] returns the text by which a person is found.
//!
//! A keyword has at most one bind of its kind: a new bind replaces the old one and is appended. A second bind of the
//! same kind, mask and proc only changes the flags. The order by age is our own choice.
//!
//! [`BindTable`] holds up to [`MAX_BINDS`] binds. [`bind`](BindTable::bind) and [`unbind`](BindTable::unbind) change
//! it, [`called`](BindTable::called) iterates over the binds that a [`BindEvent`] calls without allocating,
//! [`find`](BindTable::find) returns their numbers, [`get`](BindTable::get) the bind with a number, and
//! [`list`](BindTable::list) all of them. [`takes_none`](BindTable::takes_none) is a quick look that may show that no bind
//! takes a text, before the events of a message are built.
//!
//! ```text
//! let mut table = BindTable::new(alloc);
//! table.bind(alloc, BindKind::Pub, b"o", b"!hi", b"greet")?;       // 1
//! table.bind(alloc, BindKind::Pubm, b"*", b"% !hi*", b"log")?;     // 2
//! table.find(alloc, &event)                                        // 1, where someone with global o says `!HI`
//! table.unbind(BindKind::Pubm, b"% !HI*", b"log")                  // Ok(2)
//! ```
//!
//! # Which procs a bot calls
//!
//! A [`Trigger`] calls procs: an event of a message, a due timer, a minute that begins, or a text of another bot.
//! [`call_procs`] calls the procs of a list of triggers, one after another. It returns a [`Dispatch`], the calls that
//! it made and the binds that it left out. `specs/Dispatching.antt` defines what it calls: each bind of the trigger's
//! kind whose mask and flags allow it, oldest first. `specs/Occasions.antt` and, for messages, `specs/Heard.antt`
//! define the arguments of a proc. All procs see what the [`Scene`] shows of their bot.
//!
//! ```text
//! let view = View::new(&userfile, &channels, Some(1_000_000_000));
//! let scene = Scene { store: &store, binds: &binds, view: &view, exclusive: false };
//! let made = call_procs(alloc, &scene, &[Trigger::Heard(event)])?;
//! let (calls, unbound) = made.into_parts();
//! ```
#![tactic(auto)]

mod action;
mod actions;
mod bind;
mod bind_fault;
mod bind_kind;
mod call;
mod call_kind;
mod called;
mod dispatch;
mod event;
mod heard;
mod hearing;
mod held;
mod identity;
mod index;
mod keep;
mod kinds;
mod limits;
mod made_call;
mod matcher;
mod next;
mod nobody;
mod people;
mod proc;
mod proc_fault;
mod promise;
mod reply;
mod run;
mod scene;
mod shapes;
mod store;
mod table;
mod trigger;
mod view;
mod wish;
mod words;

pub use crate::action::{Action, BotWish, PutWish, TimerName, TimerWish};
pub use crate::actions::Actions;
pub use crate::bind::{Bind, Binds};
pub use crate::bind_fault::{BindError, BindFault};
pub use crate::bind_kind::BindKind;
pub use crate::call::Call;
pub use crate::call_kind::CallKind;
pub use crate::called::Called;
pub use crate::dispatch::{Dispatch, call_procs};
pub use crate::event::BindEvent;
pub use crate::identity::{claim_by, handle_by, laws_of_identity};
pub use crate::limits::{MAX_ACCOUNT, MAX_ACTIONS, MAX_BINDS, MAX_MASK, MAX_NUMBER, MAX_PROCS};
pub use crate::made_call::{MadeCall, MadeCalls, Unbound};
pub use crate::next::{has_raw_one, is_logged};
pub use crate::nobody::{Nobodies, Nobody};
pub use crate::proc::Proc;
pub use crate::proc_fault::{ActionsFault, AddError, AddFault, CallError, CallFault, PushError};
pub use crate::promise::Promise;
pub use crate::reply::{Code, ProcReply};
pub use crate::run::{Body, Run};
pub use crate::scene::Scene;
pub use crate::store::{NotAdded, ProcStore};
pub use crate::table::BindTable;
pub use crate::trigger::Trigger;
pub use crate::view::View;
pub use crate::words::starts_with_word;
