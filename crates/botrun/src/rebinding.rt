// The binds of a configuration that is read again.
ghost use Rattle.watching.specs.Following.{IsWatched, StepsQuietly};

use crate::deeds::unbind;
use crate::starting::bind_all;
use botcore::Bot;
use bytetext::{NoMemory, TryCopy};
use control::UnbindWords;
use disks::FileDisk;
use procs::{ProcStore, Promise, Run};
use settings::{BindWords, Settings};
use std::alloc::Global;
use upkeep::RunError;
use watching::Watcher;

// Removes the binds of `from` that `to` lacks, and makes those of `to`. A bind that an operator made stays.
pub(crate) fn swap_binds<P: Promise, B: Run, W: Watcher>(
    alloc: Global,
    bot: &mut Bot<FileDisk>,
    store: &ProcStore<P, B>,
    from: &Settings,
    to: &Settings,
    watcher: &mut W,
) -> Result<(), RunError>
    requires watched { IsWatched P.promised store.now W.may (W.past watcher.old) bot.old }
    ensures { StepsQuietly P.promised store.now W.may (W.past watcher.old) (W.past watcher.new) bot.new }
{
    unbind_gone(alloc, bot, store, from, to, watcher)?;
    bind_all(alloc, bot, store, to, watcher)
}

// Removes the binds of `from` that `to` lacks.
fn unbind_gone<P: Promise, B: Run, W: Watcher>(
    alloc: Global,
    bot: &mut Bot<FileDisk>,
    store: &ProcStore<P, B>,
    from: &Settings,
    to: &Settings,
    watcher: &mut W,
) -> Result<(), RunError>
    requires watched { IsWatched P.promised store.now W.may (W.past watcher.old) bot.old }
    ensures { StepsQuietly P.promised store.now W.may (W.past watcher.old) (W.past watcher.new) bot.new }
{
    for bind in from.binds.as_slice() {
        unbind_one(alloc, bot, store, &bind.words, to, watcher)?;
    }
    Ok(())
}

// Removes a bind if `to` lacks it. An operator may have removed it before.
fn unbind_one<P: Promise, B: Run, W: Watcher>(
    alloc: Global,
    bot: &mut Bot<FileDisk>,
    store: &ProcStore<P, B>,
    words: &BindWords,
    to: &Settings,
    watcher: &mut W,
) -> Result<(), RunError>
    requires watched { IsWatched P.promised store.now W.may (W.past watcher.old) bot.old }
    ensures { StepsQuietly P.promised store.now W.may (W.past watcher.old) (W.past watcher.new) bot.new }
{
    if has_bind(to, words) {
        return Ok(());
    }
    let gone = words_to_remove(alloc, words)?;
    let _answer = unbind(alloc, bot, store, gone, watcher)?;
    Ok(())
}

// Whether the configuration has a bind of this type, proc and mask.
fn has_bind(settings: &Settings, words: &BindWords) -> bool {
    settings.binds.as_slice().iter().any(|bind| {
        bind.words.kind.as_bytes() == words.kind.as_bytes()
            && bind.words.proc.as_bytes() == words.proc.as_bytes()
            && bind.words.mask.as_bytes() == words.mask.as_bytes()
    })
}

fn words_to_remove(alloc: Global, words: &BindWords) -> Result<UnbindWords, NoMemory> {
    Ok(UnbindWords {
        kind: words.kind.copy(alloc)?,
        proc: words.proc.copy(alloc)?,
        mask: words.mask.copy(alloc)?,
    })
}
