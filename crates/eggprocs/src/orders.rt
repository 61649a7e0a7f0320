// The commands by which masters change the userfile.
ghost use Rattle.std.specs.Prelude.{◌≡◌, IfOk};
ghost use Rattle.eggprocs.specs.Orders.{usage_of, wish_of, asked_by_order};

use crate::args::told_of;
use crate::marks::{stick, unstick};
use crate::people::{asked_by_command, chattr, minus_host, minus_user, plus_host, plus_user};
use bytetext::NoMemory;
use procs::{Actions, Call, View};
use std::alloc::Global;
use userfile::Edit;

/// A command by which a master changes the userfile: the proc of the same name.
#[derive(Clone, Copy, Debug)]
pub enum Order {
    PlusUser,
    MinusUser,
    PlusHost,
    MinusHost,
    Chattr,
    Stick,
    Unstick,
}

// What such a command requests.
pub(crate) fn asked_by_order(
    alloc: Global,
    order: Order,
    call: &Call,
    view: &View<'_>,
) -> Result<Actions, NoMemory>
    ensures { IfOk result (λ actions. actions ≡ asked_by_order order call.now view.now) }
{
    let wish = wish_of(alloc, order, told_of(call))?;
    asked_by_command(alloc, call, view, usage_of(order), wish)
}

// What the NOTICE says if a word is missing.
fn usage_of(order: Order) -> &'static [u8]
    ensures { result.now ≡ usage_of order }
{
    match order {
        Order::PlusUser => b"use +user HANDLE",
        Order::MinusUser => b"use -user HANDLE",
        Order::PlusHost => b"use +host HANDLE MASK",
        Order::MinusHost => b"use -host HANDLE MASK",
        Order::Chattr => b"use chattr HANDLE FLAGS",
        Order::Stick => b"use stick MASK CHANNEL",
        Order::Unstick => b"use unstick MASK CHANNEL",
    }
}

// The edit that a text means.
fn wish_of(alloc: Global, order: Order, text: &[u8]) -> Result<Option<Edit>, NoMemory>
    ensures { IfOk result (λ wish. wish ≡ wish_of order text.now) }
{
    match order {
        Order::PlusUser => plus_user(alloc, text),
        Order::MinusUser => minus_user(alloc, text),
        Order::PlusHost => plus_host(alloc, text),
        Order::MinusHost => minus_host(alloc, text),
        Order::Chattr => chattr(alloc, text),
        Order::Stick => stick(alloc, text),
        Order::Unstick => unstick(alloc, text),
    }
}
