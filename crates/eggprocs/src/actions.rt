// What each proc requests.
ghost use Rattle.std.specs.Prelude.{◌≡◌, IfOk};
ghost use Rattle.eggprocs.specs.Procs.{wanted_by, actions_by};

use crate::bans::{asked_by_ban, asked_by_lift, asked_by_unban};
use crate::basics::{asked_by_adduser, asked_by_echo, asked_by_tell, asked_by_tick};
use crate::channel::{
    asked_by_autoop, asked_by_invite, asked_by_kick, asked_by_topic, asked_for_mode,
};
use crate::ctcp::asked_by_ctcp;
use crate::cycling::asked_by_cycle;
use crate::dynamic::asked_by_dynamicbans;
use crate::ends::asked_by_expire;
use crate::entries::{asked_by_letin, asked_by_needin};
use crate::everyone::asked_by_opall;
use crate::floods::asked_by_kickfloods;
use crate::guards::asked_by_guard;
use crate::infos::{asked_by_greet, asked_by_info};
use crate::keeping::{asked_by_bitch, asked_by_enforcebans, asked_by_protectops};
use crate::looks::asked_by_later;
use crate::marks::asked_by_bans;
use crate::modes::asked_by_keepmodes;
use crate::needs::{asked_by_giveop, asked_by_needop};
use crate::orders::{Order, asked_by_order};
use crate::proc_name::ProcName;
use crate::recorded::asked_by_keepbans;
use crate::rights::{is_from_op, is_from_voice};
use crate::turns::share_out;
use crate::whereabouts::asked_by_seen;
use crate::whois::asked_by_whois;
use bytetext::NoMemory;
use procs::{Actions, Call, View};
use std::alloc::Global;

// What a proc requests: its share of what it would request of a lone bot.
pub(crate) fn actions_by(
    alloc: Global,
    which: ProcName,
    call: &Call,
    view: &View<'_>,
) -> Result<Actions, NoMemory>
    ensures { IfOk result (λ actions. actions ≡ actions_by which call.now view.now) }
{
    let wanted = wanted_by(alloc, which, call, view)?;
    let actions = share_out(alloc, which.duty(), call, view, wanted)?;
    Ok(actions)
}

// What a proc would request of a lone bot, given its call and what it sees.
#[tactic(auto, unfolding(crate::specs::Procs::wanted_by))]
fn wanted_by(
    alloc: Global,
    which: ProcName,
    call: &Call,
    view: &View<'_>,
) -> Result<Actions, NoMemory>
    ensures { IfOk result (λ actions. actions ≡ wanted_by which call.now view.now) }
{
    match which {
        ProcName::Quiet | ProcName::Stop => Ok(Actions::empty(alloc)),
        ProcName::AddUser => asked_by_adduser(alloc, call),
        ProcName::Tick => asked_by_tick(alloc),
        ProcName::Tell => asked_by_tell(alloc, call),
        ProcName::Echo => asked_by_echo(alloc, call),
        ProcName::Op => asked_for_mode(alloc, is_from_op(call, view), b"+o", call),
        ProcName::Deop => asked_for_mode(alloc, is_from_op(call, view), b"-o", call),
        ProcName::Voice => asked_for_mode(alloc, is_from_voice(call, view), b"+v", call),
        ProcName::Devoice => asked_for_mode(alloc, is_from_voice(call, view), b"-v", call),
        ProcName::AutoOp => asked_by_autoop(alloc, call, view),
        ProcName::Kick => asked_by_kick(alloc, is_from_op(call, view), call),
        ProcName::Topic => asked_by_topic(alloc, is_from_op(call, view), call),
        ProcName::Invite => asked_by_invite(alloc, is_from_op(call, view), call),
        ProcName::Ban => asked_by_ban(alloc, is_from_op(call, view), call, view),
        ProcName::Unban => asked_by_unban(alloc, is_from_op(call, view), call, view),
        ProcName::Lift => asked_by_lift(alloc, call, view),
        ProcName::PlusUser => asked_by_order(alloc, Order::PlusUser, call, view),
        ProcName::MinusUser => asked_by_order(alloc, Order::MinusUser, call, view),
        ProcName::PlusHost => asked_by_order(alloc, Order::PlusHost, call, view),
        ProcName::MinusHost => asked_by_order(alloc, Order::MinusHost, call, view),
        ProcName::Chattr => asked_by_order(alloc, Order::Chattr, call, view),
        ProcName::Whois => asked_by_whois(alloc, call, view),
        ProcName::Info => asked_by_info(alloc, call, view),
        ProcName::Greet => asked_by_greet(alloc, call, view),
        ProcName::Stick => asked_by_order(alloc, Order::Stick, call, view),
        ProcName::Unstick => asked_by_order(alloc, Order::Unstick, call, view),
        ProcName::Bans => asked_by_bans(alloc, call, view),
        ProcName::Seen => asked_by_seen(alloc, call, view),
        ProcName::OpAll => asked_by_opall(alloc, call, view),
        ProcName::ProtectOps => asked_by_protectops(alloc, call, view),
        ProcName::Bitch => asked_by_bitch(alloc, call, view),
        ProcName::Guard => asked_by_guard(alloc, call, view),
        ProcName::EnforceBans => asked_by_enforcebans(alloc, call, view),
        ProcName::Later => asked_by_later(alloc, call, view),
        ProcName::Expire => asked_by_expire(alloc, call, view),
        ProcName::Ctcp => asked_by_ctcp(alloc, call, view),
        ProcName::KeepModes => asked_by_keepmodes(alloc, call, view),
        ProcName::Cycle => asked_by_cycle(alloc, call, view),
        ProcName::DynamicBans => asked_by_dynamicbans(alloc, call, view),
        ProcName::NeedOp => asked_by_needop(alloc, call, view),
        ProcName::GiveOp => asked_by_giveop(alloc, call, view),
        ProcName::KeepBans => asked_by_keepbans(alloc, call, view),
        ProcName::KickFloods => asked_by_kickfloods(alloc, call, view),
        ProcName::NeedIn => asked_by_needin(alloc, call, view),
        ProcName::LetIn => asked_by_letin(alloc, call, view),
    }
}
