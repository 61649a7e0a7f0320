// The names of the procs.
ghost use Rattle.std.specs.Prelude.{◌≡◌};
ghost use Rattle.eggprocs.specs.Procs.{name_of, code_by, duty_of};

use crate::duties::Duty;
use procs::Code;

/// The number of procs.
pub const PROC_COUNT: usize = 46;

/// Every proc, in the order in which [`store`](crate::store) adds them.
pub const EVERY: [ProcName; PROC_COUNT] = [
    ProcName::Quiet,
    ProcName::Stop,
    ProcName::AddUser,
    ProcName::Tick,
    ProcName::Tell,
    ProcName::Echo,
    ProcName::Op,
    ProcName::Deop,
    ProcName::Voice,
    ProcName::Devoice,
    ProcName::AutoOp,
    ProcName::Kick,
    ProcName::Topic,
    ProcName::Invite,
    ProcName::Ban,
    ProcName::Unban,
    ProcName::Lift,
    ProcName::PlusUser,
    ProcName::MinusUser,
    ProcName::PlusHost,
    ProcName::MinusHost,
    ProcName::Chattr,
    ProcName::Whois,
    ProcName::Info,
    ProcName::Greet,
    ProcName::Stick,
    ProcName::Unstick,
    ProcName::Bans,
    ProcName::Seen,
    ProcName::OpAll,
    ProcName::ProtectOps,
    ProcName::Bitch,
    ProcName::Guard,
    ProcName::EnforceBans,
    ProcName::Later,
    ProcName::Expire,
    ProcName::Ctcp,
    ProcName::KeepModes,
    ProcName::Cycle,
    ProcName::DynamicBans,
    ProcName::NeedOp,
    ProcName::GiveOp,
    ProcName::KeepBans,
    ProcName::KickFloods,
    ProcName::NeedIn,
    ProcName::LetIn,
];

/// A proc of the programs. The crate's first page says what each is for.
#[derive(Clone, Copy, Debug)]
pub enum ProcName {
    /// `quiet`: requests nothing.
    Quiet,
    /// `stop`: requests nothing, and answers 1.
    Stop,
    /// `adduser`: requests a new user.
    AddUser,
    /// `tick`: requests a call of `quiet`.
    Tick,
    /// `tell`: sends a text to the hub.
    Tell,
    /// `echo`: repeats a text.
    Echo,
    /// `op`: makes somebody an operator of a channel.
    Op,
    /// `deop`: the reverse of `op`.
    Deop,
    /// `voice`: gives somebody voice on a channel.
    Voice,
    /// `devoice`: the reverse of `voice`.
    Devoice,
    /// `autoop`: gives op or voice to a person who joins.
    AutoOp,
    /// `kick`: kicks somebody from a channel.
    Kick,
    /// `topic`: sets a channel's topic.
    Topic,
    /// `invite`: invites somebody to a channel.
    Invite,
    /// `ban`: bans a mask from a channel.
    Ban,
    /// `unban`: the reverse of `ban`.
    Unban,
    /// `lift`: ends a ban on its channel, for the timer that `ban` requests.
    Lift,
    /// `+user`: requests a new user.
    PlusUser,
    /// `-user`: requests the end of a user.
    MinusUser,
    /// `+host`: requests a new hostmask of a user.
    PlusHost,
    /// `-host`: requests the end of a user's hostmask.
    MinusHost,
    /// `chattr`: requests other flags of a user.
    Chattr,
    /// `whois`: says who a user is.
    Whois,
    /// `info`: says the caller's info line, or requests another one.
    Info,
    /// `greet`: says the info line of a person who joins.
    Greet,
    /// `stick`: requests that a ban is sticky.
    Stick,
    /// `unstick`: the reverse of `stick`.
    Unstick,
    /// `bans`: lists the bans.
    Bans,
    /// `seen`: says whether somebody is here.
    Seen,
    /// `opall`: gives op and voice to the members of a channel when the bot gets op there.
    OpAll,
    /// `protectops`: gives op again to an operator from whom somebody takes it.
    ProtectOps,
    /// `bitch`: takes op from a member who is to have none, when somebody gives it.
    Bitch,
    /// `guard`: removes a ban that hits the bot, an operator or a friend.
    Guard,
    /// `enforcebans`: kicks the members whom a ban hits.
    EnforceBans,
    /// `later`: does what another bot left undone, for the timers of bots that let that one go first.
    Later,
    /// `expire`: removes the bans that have ended.
    Expire,
    /// `ctcp`: answers VERSION, PING and TIME.
    Ctcp,
    /// `keepmodes`: undoes the change of a mode.
    KeepModes,
    /// `cycle`: leaves a channel on which nobody is an operator, and joins it again.
    Cycle,
    /// `dynamicbans`: ends the bot's own bans on a channel after an hour.
    DynamicBans,
    /// `needop`: asks the hub for op.
    NeedOp,
    /// `giveop`: gives op to another bot that asks for it.
    GiveOp,
    /// `keepbans`: bans and kicks a person who joins under a ban of the records, and sets a sticky one again.
    KeepBans,
    /// `kickfloods`: kicks who floods.
    KickFloods,
    /// `needin`: asks the hub to be let in to a channel.
    NeedIn,
    /// `letin`: invites another bot that asks for it.
    LetIn,
}

impl ProcName {
    /// Returns the name under which a store has the proc.
    pub fn name(self) -> &'static [u8]
        ensures { result.now ≡ name_of self }
    {
        match self {
            ProcName::Quiet => b"quiet",
            ProcName::Stop => b"stop",
            ProcName::AddUser => b"adduser",
            ProcName::Tick => b"tick",
            ProcName::Tell => b"tell",
            ProcName::Echo => b"echo",
            ProcName::Op => b"op",
            ProcName::Deop => b"deop",
            ProcName::Voice => b"voice",
            ProcName::Devoice => b"devoice",
            ProcName::AutoOp => b"autoop",
            ProcName::Kick => b"kick",
            ProcName::Topic => b"topic",
            ProcName::Invite => b"invite",
            ProcName::Ban => b"ban",
            ProcName::Unban => b"unban",
            ProcName::Lift => b"lift",
            ProcName::PlusUser => b"+user",
            ProcName::MinusUser => b"-user",
            ProcName::PlusHost => b"+host",
            ProcName::MinusHost => b"-host",
            ProcName::Chattr => b"chattr",
            ProcName::Whois => b"whois",
            ProcName::Info => b"info",
            ProcName::Greet => b"greet",
            ProcName::Stick => b"stick",
            ProcName::Unstick => b"unstick",
            ProcName::Bans => b"bans",
            ProcName::Seen => b"seen",
            ProcName::OpAll => b"opall",
            ProcName::ProtectOps => b"protectops",
            ProcName::Bitch => b"bitch",
            ProcName::Guard => b"guard",
            ProcName::EnforceBans => b"enforcebans",
            ProcName::Later => b"later",
            ProcName::Expire => b"expire",
            ProcName::Ctcp => b"ctcp",
            ProcName::KeepModes => b"keepmodes",
            ProcName::Cycle => b"cycle",
            ProcName::DynamicBans => b"dynamicbans",
            ProcName::NeedOp => b"needop",
            ProcName::GiveOp => b"giveop",
            ProcName::KeepBans => b"keepbans",
            ProcName::KickFloods => b"kickfloods",
            ProcName::NeedIn => b"needin",
            ProcName::LetIn => b"letin",
        }
    }

    // The code of the proc's answers.
    #[tactic(auto, unfolding(crate::specs::Procs::code_by))]
    pub(crate) fn code(self) -> Code
        ensures { result ≡ code_by self }
    {
        match self {
            ProcName::Stop => Code::One,
            ProcName::Quiet
            | ProcName::AddUser
            | ProcName::Tick
            | ProcName::Tell
            | ProcName::Echo
            | ProcName::Op
            | ProcName::Deop
            | ProcName::Voice
            | ProcName::Devoice
            | ProcName::AutoOp
            | ProcName::Kick
            | ProcName::Topic
            | ProcName::Invite
            | ProcName::Ban
            | ProcName::Unban
            | ProcName::Lift
            | ProcName::PlusUser
            | ProcName::MinusUser
            | ProcName::PlusHost
            | ProcName::MinusHost
            | ProcName::Chattr
            | ProcName::Whois
            | ProcName::Info
            | ProcName::Greet
            | ProcName::Stick
            | ProcName::Unstick
            | ProcName::Bans
            | ProcName::Seen
            | ProcName::OpAll
            | ProcName::ProtectOps
            | ProcName::Bitch
            | ProcName::Guard
            | ProcName::EnforceBans
            | ProcName::Later
            | ProcName::Expire
            | ProcName::Ctcp
            | ProcName::KeepModes
            | ProcName::Cycle
            | ProcName::DynamicBans
            | ProcName::NeedOp
            | ProcName::GiveOp
            | ProcName::KeepBans
            | ProcName::KickFloods
            | ProcName::NeedIn
            | ProcName::LetIn => Code::Zero,
        }
    }
    /// Returns who of the bots on a channel does what the proc requests there.
    pub fn duty(self) -> Duty
        ensures { result ≡ duty_of self }
    {
        match self {
            ProcName::AddUser | ProcName::Echo | ProcName::Greet | ProcName::Seen => Duty::First,
            ProcName::Topic
            | ProcName::Invite
            | ProcName::Ban
            | ProcName::Unban
            | ProcName::KeepModes => Duty::FirstOp,
            ProcName::OpAll => Duty::Turns,
            ProcName::Op
            | ProcName::Deop
            | ProcName::Voice
            | ProcName::Devoice
            | ProcName::AutoOp
            | ProcName::Kick
            | ProcName::ProtectOps
            | ProcName::Bitch
            | ProcName::EnforceBans
            | ProcName::KeepBans => Duty::TurnsOp,
            ProcName::Quiet
            | ProcName::Stop
            | ProcName::Tick
            | ProcName::Tell
            | ProcName::Lift
            | ProcName::PlusUser
            | ProcName::MinusUser
            | ProcName::PlusHost
            | ProcName::MinusHost
            | ProcName::Chattr
            | ProcName::Whois
            | ProcName::Info
            | ProcName::Stick
            | ProcName::Unstick
            | ProcName::Bans
            | ProcName::Guard
            | ProcName::Later
            | ProcName::Expire
            | ProcName::Ctcp
            | ProcName::Cycle
            | ProcName::DynamicBans
            | ProcName::NeedOp
            | ProcName::GiveOp
            | ProcName::KickFloods
            | ProcName::NeedIn
            | ProcName::LetIn => Duty::Each,
        }
    }
}
