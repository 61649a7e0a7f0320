//! Bots of IRC that share a userfile: each as a process of its own, and nets of them for trying things out.
//!
//! `eggnet run CONFIG` runs the bot of a configuration file, until it is asked to end. `eggnet check CONFIG` reads the
//! file and ends; it opens nothing else. `eggnet doctor CONFIG` looks at all that the file names, prints a line for
//! each finding, and changes nothing ([`doctor`]). `eggnet tunnel CONFIG` prints the configuration with which stunnel
//! makes the bot's encrypted connections ([`tunnels`]), and creates the folder for their sockets. `eggnet tell FOLDER
//! WORDS..` gives a command to the bot that runs on this folder, and prints its answer. `eggnet show FOLDER` prints the
//! version and the records of a bot, whether it runs or not. `eggnet key SECRETFILE N` prints the secret file of leaf
//! N, by the net's secret in SECRETFILE. A leaf that has this file alone can't speak as another one.
//!
//! If a net's hub is lost, `eggnet promote --which FOLDER..` says which of these stopped leaves' folders has the highest
//! version, `eggnet promote LEAF_FOLDER NEW_FOLDER` makes the folder of a new hub of it, and `eggnet start-over FOLDER` has
//! another leaf join that one ([`promotion`]). A leaf that finds that hub by one of its lines `hub` moves there by itself.
//!
//! `eggnet replay` reads a script from standard input or a named file, runs its commands with a botnet in memory, and
//! prints the transcript. `eggnet picture` draws such a script's run, as SVG. `eggnet live` reads a live script from
//! standard input, and runs its commands with a server, a hub and leaves that talk over sockets of this machine. It
//! prints what the script has shown and what its guests have heard. `eggnet serve PORT` runs a small IRC server on this
//! machine, for other programs. It prints the port, which the system chooses if PORT is 0, and then serves until it is
//! ended.
//!
//! `eggnet --version` prints the program's version and the layout of the journals that it writes.
//!
//! Binds may call the procs of `eggprocs`, whose first page lists them.
//!
//! The program ends with status 0 when all is done; 1 for a faulty configuration, another bot's journal, a file without
//! the secret of a net, a folder whose leaf can't be promoted, a command that a bot refuses or does not understand, and
//! a script that breaks a rule; 2 for a command line that is not understood; 3 if reading, writing, a folder, a disk or
//! a socket fails, if no bot runs, or if a live botnet stalls; 4 if memory runs out. Standard error says which.
#![tactic(auto)]

mod configuration;
mod leaf_key;
mod lost_hub;
mod moving;
mod scripts;
mod serve;
mod talk;
mod tunnels_of_file;

use crate::configuration::{check_file, doctor_file, run_file};
use crate::leaf_key::print_leaf_key;
use crate::lost_hub::{print_which, promote_leaf, start_leaf_over};
use crate::scripts::live_script;
use crate::serve::serve_port;
use crate::talk::print_answer;
use crate::tunnels_of_file::{print_tunnels, write_tunnel_keys};
use commandline::{ProgramTask, refused, task_of, version_of};
use control::{ask, show};
use eggprocs::store;
use replaying::{out_of_memory, picture_script, replay_file, replay_input, unread, words_of};
use std::process::ExitCode;

fn main(rt: HostRuntime) -> ExitCode {
    let words = match words_of(&rt) {
        Ok(words) => words,
        Err(error) => return ExitCode::from(unread(&rt, &error)),
    };
    let Ok(version) = version_of(rt.alloc()) else {
        return ExitCode::from(out_of_memory(&rt));
    };
    let task = match task_of(rt.alloc(), words.as_slice(), version.as_str()) {
        Ok(task) => task,
        Err(error) => return ExitCode::from(refused(&rt, &error)),
    };
    let Ok(store) = store(rt.alloc()) else {
        return ExitCode::from(out_of_memory(&rt));
    };
    let status = match &task {
        ProgramTask::Run(file) => run_file(&rt, &store, file),
        ProgramTask::Check(file) => check_file(&rt, &store, file),
        ProgramTask::Doctor(file) => doctor_file(&rt, &store, file),
        ProgramTask::Tunnel(file) => print_tunnels(&rt, file),
        ProgramTask::TunnelKeys(file) => write_tunnel_keys(&rt, file),
        ProgramTask::Tell(folder, line) => print_answer(
            &rt,
            folder,
            ask(&rt, folder, line.as_slice()),
        ),
        ProgramTask::Show(folder) => print_answer(&rt, folder, show(&rt, folder)),
        ProgramTask::Key(file, leaf) => print_leaf_key(&rt, file, *leaf),
        ProgramTask::Promote(folder, heir) => promote_leaf(&rt, folder, heir),
        ProgramTask::Which(folders) => print_which(&rt, folders.as_slice()),
        ProgramTask::StartOver(folder) => start_leaf_over(&rt, folder),
        ProgramTask::Replay(Some(file)) => replay_file(&rt, store, file),
        ProgramTask::Replay(None) => replay_input(&rt, store),
        ProgramTask::Picture(file) => picture_script(&rt, store, *file),
        ProgramTask::Live => live_script(&rt, store),
        ProgramTask::Serve(port) => serve_port(&rt, *port),
    };
    ExitCode::from(status)
}
