// Who asked for the changes that wait at a bot.
ghost use Rattle.std.specs.Prelude.{◌≡◌, ◌∷◌, ◌++◌, [], IfOk, OnOk, drop, replicate, count_by, sum_by};
ghost use Rattle.std.specs.List.{list_any, flat_map};
ghost use Rattle.std.specs.VecDeque.{deque_len};
ghost use Rattle.administrators.specs.declared.asks.Recipient.TheVariants.{Nobody};
ghost use Rattle.administrators.specs.Askers.{admin_if, asker_in, askers_of, asks_of, at_most_usize, first_asker, is_admin, is_ask};
ghost use Rattle.administrators.specs.Askers.{is_ask_fault, is_spoken, queued};

use bytetext::{NoMemory, Text, TryCopy};
use procs::{Action, Call, CallKind, MadeCall, MadeCalls};
use sharelink::{LinkFault, LinkNote};
use std::alloc::Global;
use std::collections::VecDeque;

/// Who gets the outcome of a change.
#[derive(Drop)]
pub enum Recipient {
    /// Nobody who waits for an answer.
    Nobody,
    /// The admin with this number.
    Admin(u64),
    /// The person with this nick, whose words made a proc ask.
    Person(Text),
}

/// Who asked for the changes that wait or are out, the oldest first. They are answered in this order: a leaf sends all
/// that is out by rising number, and a connection keeps the order of requests and of their answers.
#[derive(Drop)]
pub struct Asks {
    askers: VecDeque<Recipient>,
    /// The number of the admin whose command is being executed, if its answer comes later.
    pub asker: Option<u64>,
}

impl Asks {
    /// Nobody has asked for anything yet. Allocates nothing.
    pub fn new(alloc: Global) -> Asks
        ensures { result.askers.items ≡ [] }
    {
        Asks {
            askers: VecDeque::new(alloc),
            asker: None,
        }
    }

    /// The number of changes that wait or are out.
    pub fn len(&self) -> usize
        ensures { result ≡ deque_len self.now.askers }
    {
        self.askers.len()
    }

    /// Whether the admin numbered `number` asked for one of them.
    pub fn holds(&self, number: u64) -> bool
        ensures { result ≡ list_any (is_admin number) self.now.askers.items }
    {
        self.askers.iter().any(|asker| is_admin(asker, number))
    }

    /// Notes that `asker` asked for a change.
    ///
    /// # Errors
    /// `NoMemory` if an allocation fails.
    pub fn put(&mut self, asker: Recipient) -> Result<(), NoMemory>
        ensures last { OnOk result (self.new.askers.items ≡ self.old.askers.items ++ asker ∷ []) }
        ensures same { self.new.asker ≡ self.old.asker }
    {
        self.askers.push_back(asker)?;
        Ok(())
    }

    /// Notes `count` changes for which nobody waits for an answer.
    ///
    /// # Errors
    /// `NoMemory` if an allocation fails.
    pub fn put_many(&mut self, count: usize) -> Result<(), NoMemory>
        ensures last { OnOk result (self.new.askers.items ≡ self.old.askers.items ++ replicate count Nobody) }
        ensures same { self.new.asker ≡ self.old.asker }
    {
        for _ask in 0..count {
            self.put(Recipient::Nobody)?;
        }
        Ok(())
    }

    /// Notes the changes that calls asked for, and the person who waits for each.
    ///
    /// # Errors
    /// `NoMemory` if an allocation fails.
    pub fn put_callers(&mut self, alloc: Global, calls: &MadeCalls) -> Result<(), NoMemory>
        ensures last { OnOk result (self.new.askers.items ≡ self.old.askers.items ++ flat_map askers_of calls.now) }
        ensures same { self.new.asker ≡ self.old.asker }
    {
        for call in calls.as_slice() {
            self.put_caller(alloc, call)?;
        }
        Ok(())
    }

    fn put_caller(&mut self, alloc: Global, call: &MadeCall) -> Result<(), NoMemory>
        ensures last { OnOk result (self.new.askers.items ≡ self.old.askers.items ++ askers_of call.now) }
        ensures same { self.new.asker ≡ self.old.asker }
    {
        for _ask in 0..asks_among(call.reply.actions.as_slice()) {
            self.put(asker_in(alloc, &call.call)?)?;
        }
        Ok(())
    }

    /// Notes what the link says of a step: if it has queued a change, the admin whose command is being executed asked for it,
    /// or nobody who waits for an answer.
    ///
    /// # Errors
    /// `NoMemory` if an allocation fails.
    pub fn note(&mut self, note: &LinkNote) -> Result<(), NoMemory>
        ensures last { OnOk result (self.new.askers.items ≡ queued self.old.asker note.now self.old.askers.items) }
        ensures same { self.new.asker ≡ self.old.asker }
    {
        match note {
            LinkNote::Queued => self.put(admin_if(self.asker)),
            LinkNote::Idle
            | LinkNote::Sent(_)
            | LinkNote::Accepted(_)
            | LinkNote::Refused(_)
            | LinkNote::Served(_)
            | LinkNote::Old
            | LinkNote::Repeat
            | LinkNote::Gap
            | LinkNote::Early
            | LinkNote::Applied(_)
            | LinkNote::Kept(_)
            | LinkNote::Installed(_)
            | LinkNote::Compacted
            | LinkNote::Relayed
            | LinkNote::Text { from: _, text: _ }
            | LinkNote::Stray
            | LinkNote::Restarted(_) => Ok(()),
        }
    }

    /// Removes the oldest change, which is answered, and returns who asked for it.
    pub fn settle(&mut self) -> Recipient
        ensures first { result ≡ first_asker self.old.askers.items }
        ensures rest { self.new.askers.items ≡ drop 1 self.old.askers.items }
        ensures same { self.new.asker ≡ self.old.asker }
    {
        self.askers.pop_front().unwrap_or(Recipient::Nobody)
    }
}

// The admin whose command is being executed, if there is one.
fn admin_if(asker: Option<u64>) -> Recipient
    ensures { result ≡ admin_if asker }
{
    match asker {
        Some(number) => Recipient::Admin(number),
        None => Recipient::Nobody,
    }
}

// Whether the asker is the admin numbered `number`.
fn is_admin(asker: &Recipient, number: u64) -> bool
    ensures { result ≡ is_admin number asker.now }
{
    match asker {
        Recipient::Admin(other) => *other == number,
        Recipient::Nobody | Recipient::Person(_) => false,
    }
}

// Who waits for the answer to what a call asks for: the person for whose words the call was made.
pub(crate) fn asker_in(alloc: Global, call: &Call) -> Result<Recipient, NoMemory>
    ensures { IfOk result (λ asker. asker ≡ asker_in call.now) }
{
    match call.args.as_slice().first() {
        Some(nick) if is_spoken(call.kind) => Ok(Recipient::Person(nick.copy(alloc)?)),
        Some(_) | None => Ok(Recipient::Nobody),
    }
}

// Whether a call of this kind is made for words that somebody said to the bot or on a channel. That person's nick
// comes first.
fn is_spoken(kind: CallKind) -> bool
    ensures { result ≡ is_spoken kind }
{
    match kind {
        CallKind::Msg | CallKind::Msgm | CallKind::Pub | CallKind::Pubm => true,
        CallKind::Raw
        | CallKind::Notc
        | CallKind::Join
        | CallKind::Part
        | CallKind::Sign
        | CallKind::Kick
        | CallKind::Nick
        | CallKind::Mode
        | CallKind::Topc
        | CallKind::Account
        | CallKind::Bot
        | CallKind::Time
        | CallKind::Cron
        | CallKind::Timer => false,
    }
}

/// Returns the number of changes that calls asked for.
pub fn asks_in(calls: &MadeCalls) -> usize
    ensures { result ≡ at_most_usize (sum_by asks_of calls.now) }
{
    let mut count = 0usize;
    for call in calls.as_slice() {
        count = count.saturating_add(asks_among(call.reply.actions.as_slice()));
    }
    count
}

// The number of actions that ask for a change.
pub(crate) fn asks_among(actions: &[Action]) -> usize
    ensures { result ≡ count_by is_ask actions.now }
{
    let mut count = 0;
    for action in actions {
        if is_ask(action) {
            count += 1;
        }
    }
    count
}

fn is_ask(action: &Action) -> bool
    ensures { result ≡ is_ask action.now }
{
    match action {
        Action::Ask(_) => true,
        Action::Timer(_)
        | Action::Utimer(_)
        | Action::KillTimer(_)
        | Action::SendBot(_)
        | Action::Put(_) => false,
    }
}

/// Whether the link refuses a change, and not a text, with this fault.
pub fn is_ask_fault(fault: LinkFault) -> bool
    ensures { result ≡ is_ask_fault fault }
{
    match fault {
        LinkFault::AsksFull | LinkFault::BadChange(_) => true,
        LinkFault::Down
        | LinkFault::OtherLayout
        | LinkFault::Diverged
        | LinkFault::NumbersSpent
        | LinkFault::JournalFault
        | LinkFault::BadBotText
        | LinkFault::TextsFull
        | LinkFault::DiskFault => false,
    }
}
