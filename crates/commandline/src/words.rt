// What the command line asks for.
use botjournal::LAYOUT;
use clap::error::ErrorKind;
use clap::{Arg, ArgAction, ArgMatches, Command, Error, value_parser};
use replaying::{USAGE, not_written, out_of_memory};
use settings::MAX_LEAVES;
use std::alloc::{AllocError, Global};

/// The program's version.
const VERSION: &str = "0.2.0";

/// The toolchain's kit that proves and builds the program: what `rt version` prints first. `tools/package` packs no
/// program that names another one.
const KIT: &str = "rattle-kit-13f";

/// What the program is to do.
#[derive(Drop)]
pub enum ProgramTask<'a> {
    /// Replay the script in this file, or else on standard input.
    Replay(Option<&'a str>),
    /// Draw the run of the script in this file, or else on standard input.
    Picture(Option<&'a str>),
    /// Play the live script on standard input.
    Live,
    /// Listen on this port with the small server.
    Serve(u16),
    /// Run the bot of this configuration file.
    Run(&'a str),
    /// Check this configuration file.
    Check(&'a str),
    /// Look at what the bot of this configuration file needs.
    Doctor(&'a str),
    /// Print the configuration of stunnel for the tunnels of this configuration file.
    Tunnel(&'a str),
    /// Write the file of the keys of the links' tunnels of this configuration file.
    TunnelKeys(&'a str),
    /// Send this line to the bot of this folder.
    Tell(&'a str, Vec<u8>),
    /// Print the version and the records of this folder's bot.
    Show(&'a str),
    /// Print the secret file of the leaf of this number, by the net's secret in this file.
    Key(&'a str, u16),
    /// Make the folder of an heir's hub, the second one, of the stopped leaf's folder, the first one.
    Promote(&'a str, &'a str),
    /// Say which of the stopped leaves of these folders has the highest version.
    Which(Vec<&'a str>),
    /// Put the journal of this folder's stopped leaf aside.
    StartOver(&'a str),
}

/// Prints `error`: what clap says of a command line that it rejects, its help, or the version. Returns the exit status.
pub fn refused<R: Print + Eprint>(rt: &R, error: &Error) -> u8 {
    if error.kind() == ErrorKind::OutOfMemory {
        return out_of_memory(rt);
    }
    let told = error.print(rt);
    if error.use_stderr() {
        USAGE
    } else if told.is_ok() {
        0
    } else {
        not_written(rt)
    }
}

/// Returns what `--version` prints after the program's name: the version, the layout of the journals that it writes, and
/// the toolchain's kit.
pub fn version_of(alloc: Global) -> Result<String, AllocError> {
    format!(in alloc; "{VERSION}, journal layout {LAYOUT}, {KIT}")
}

/// Returns the task that `words` ask for. The first of them is the program's name. `--version` prints `version`.
///
/// # Errors
/// Those of clap, which also has one for a failed allocation.
pub fn task_of<'a>(
    alloc: Global,
    words: &'a [String],
    version: &'a str,
) -> Result<ProgramTask<'a>, Error> {
    let matches = command(alloc, version)?.try_get_matches_from(words)?;
    match matches.subcommand() {
        Some((name, said)) => task_named(alloc, name, said),
        None => Ok(ProgramTask::Live),
    }
}

// The task of the subcommand `name`, of which this was `said`.
fn task_named<'a>(
    alloc: Global,
    name: &str,
    said: &ArgMatches<'a>,
) -> Result<ProgramTask<'a>, Error> {
    match name {
        "run" => Ok(ProgramTask::Run(word(said, "CONFIG"))),
        "check" => Ok(ProgramTask::Check(word(said, "CONFIG"))),
        "doctor" => Ok(ProgramTask::Doctor(word(said, "CONFIG"))),
        "tunnel" if said.get_flag("keys") => Ok(ProgramTask::TunnelKeys(word(said, "CONFIG"))),
        "tunnel" => Ok(ProgramTask::Tunnel(word(said, "CONFIG"))),
        "show" => Ok(ProgramTask::Show(word(said, "FOLDER"))),
        "tell" => {
            let line = joined(alloc, said.get_strs("WORDS").unwrap_or(&[]))?;
            Ok(ProgramTask::Tell(word(said, "FOLDER"), line))
        }
        "key" => Ok(ProgramTask::Key(word(said, "SECRETFILE"), said.get_one("N").unwrap_or(0))),
        "promote" => promotion_of(alloc, said),
        "start-over" => Ok(ProgramTask::StartOver(word(said, "FOLDER"))),
        "serve" => Ok(ProgramTask::Serve(said.get_one("PORT").unwrap_or(0))),
        "replay" => Ok(ProgramTask::Replay(said.get_str("FILE"))),
        "picture" => Ok(ProgramTask::Picture(said.get_str("FILE"))),
        _ => Ok(ProgramTask::Live),
    }
}

// What the subcommand `promote` is to do.
fn promotion_of<'a>(alloc: Global, said: &ArgMatches<'a>) -> Result<ProgramTask<'a>, Error> {
    match said.get_strs("which") {
        Some(folders) => Ok(ProgramTask::Which(Vec::from_slice(alloc, folders)?)),
        None => Ok(ProgramTask::Promote(word(said, "LEAF_FOLDER"), word(said, "NEW_FOLDER"))),
    }
}

// The required word with this name.
fn word<'a>(said: &ArgMatches<'a>, name: &str) -> &'a str {
    said.get_str(name).unwrap_or("")
}

// The words with one space between.
fn joined(alloc: Global, words: &[&str]) -> Result<Vec<u8>, AllocError> {
    let mut line = Vec::new(alloc);
    for (place, word) in words.iter().enumerate() {
        if place > 0 {
            line.push(b' ')?;
        }
        line.extend_from_slice(word.as_bytes())?;
    }
    Ok(line)
}

// The command line.
fn command<'a>(alloc: Global, version: &'a str) -> Result<Command<'a>, AllocError> {
    let command = Command::new(alloc, "eggnet")
        .about("IRC bots that share a userfile")
        .version(version)
        .subcommand_required(true);
    with_scripts(
        alloc,
        with_heirs(alloc, with_keepers(alloc, with_bots(alloc, command)?)?)?,
    )
}

// With the commands about a configuration file.
fn with_bots<'a>(alloc: Global, command: Command<'a>) -> Result<Command<'a>, AllocError> {
    command
        .subcommand(run_command(alloc)?)?
        .subcommand(check_command(alloc)?)?
        .subcommand(doctor_command(alloc)?)?
        .subcommand(tunnel_command(alloc)?)
}

// With the commands about a bot's folder and a secret.
fn with_keepers<'a>(alloc: Global, command: Command<'a>) -> Result<Command<'a>, AllocError> {
    command
        .subcommand(tell_command(alloc)?)?
        .subcommand(show_command(alloc)?)?
        .subcommand(key_command(alloc)?)
}

// With the commands about a net whose hub is lost.
fn with_heirs<'a>(alloc: Global, command: Command<'a>) -> Result<Command<'a>, AllocError> {
    command
        .subcommand(promote_command(alloc)?)?
        .subcommand(start_over_command(alloc)?)
}

// With the commands about scripts, and the small server.
fn with_scripts<'a>(alloc: Global, command: Command<'a>) -> Result<Command<'a>, AllocError> {
    command
        .subcommand(replay_command(alloc)?)?
        .subcommand(picture_command(alloc)?)?
        .subcommand(live_command(alloc))?
        .subcommand(serve_command(alloc)?)
}

fn run_command<'a>(alloc: Global) -> Result<Command<'a>, AllocError> {
    Command::new(alloc, "run")
        .about("Run the bot of a configuration file, until it is told to end")
        .arg(config_word(alloc))
}

fn check_command<'a>(alloc: Global) -> Result<Command<'a>, AllocError> {
    Command::new(alloc, "check")
        .about("Read a configuration file and say what is wrong with it; nothing is opened")
        .arg(config_word(alloc))
}

fn doctor_command<'a>(alloc: Global) -> Result<Command<'a>, AllocError> {
    Command::new(alloc, "doctor")
        .about(
            "Look at what a configuration file's bot needs and say what to change; nothing is changed",
        )
        .arg(config_word(alloc))
}

fn tunnel_command<'a>(alloc: Global) -> Result<Command<'a>, AllocError> {
    let keys = Arg::new(alloc, "keys")
        .long("keys")
        .help("Print nothing, and write the keys of the links to FOLDER/tls/keys")
        .action(ArgAction::SetTrue);
    Command::new(alloc, "tunnel")
        .about("Print what stunnel needs for the addresses with +PORT of a configuration file")
        .arg(keys)?
        .arg(config_word(alloc))
}

fn config_word<'a>(alloc: Global) -> Arg<'a> {
    Arg::new(alloc, "CONFIG")
        .help("The configuration file")
        .required(true)
}

fn tell_command<'a>(alloc: Global) -> Result<Command<'a>, AllocError> {
    let words = Arg::new(alloc, "WORDS")
        .help("A command: show, status, adduser HANDLE, die TEXT, or another")
        .required(true)
        .num_args(1..)
        .trailing_var_arg(true)
        .allow_hyphen_values(true);
    Command::new(alloc, "tell")
        .about("Give a command to the bot that runs on a folder, and print its answer")
        .arg(folder_word(alloc))?
        .arg(words)
}

fn show_command<'a>(alloc: Global) -> Result<Command<'a>, AllocError> {
    Command::new(alloc, "show")
        .about("Print the version and the records of a folder's bot, whether it runs or not")
        .arg(folder_word(alloc))
}

fn key_command<'a>(alloc: Global) -> Result<Command<'a>, AllocError> {
    let file = Arg::new(alloc, "SECRETFILE")
        .help("The file of the net's secret, as the hub's configuration names it")
        .required(true);
    let leaf = Arg::new(alloc, "N")
        .help("The leaf's number, from 1")
        .required(true)
        .value_parser(value_parser!(u16).range(1..=i64::from(MAX_LEAVES)));
    Command::new(alloc, "key")
        .about("Print the secret file of one leaf, with which it can speak as that leaf alone")
        .arg(file)?
        .arg(leaf)
}

fn promote_command<'a>(alloc: Global) -> Result<Command<'a>, AllocError> {
    let leaf = Arg::new(alloc, "LEAF_FOLDER")
        .help("The folder of a stopped leaf, which is only read")
        .required_unless_present("which")?;
    let new = Arg::new(alloc, "NEW_FOLDER")
        .help("The folder to make: nothing may have this name")
        .required_unless_present("which")?;
    let which = Arg::new(alloc, "which")
        .long("which")
        .value_name("FOLDER")
        .help(
            "Say which of these stopped leaves' folders has the highest version, and make nothing",
        )
        .num_args(1..)
        .conflicts_with("LEAF_FOLDER")?
        .conflicts_with("NEW_FOLDER")?;
    Command::new(alloc, "promote")
        .about("Make a new hub's folder of a stopped leaf's, when the hub is gone")
        .arg(leaf)?
        .arg(new)?
        .arg(which)
}

fn start_over_command<'a>(alloc: Global) -> Result<Command<'a>, AllocError> {
    Command::new(alloc, "start-over")
        .about("Put a stopped leaf's journal aside, so that it joins a new hub as a new leaf")
        .arg(folder_word(alloc))
}

fn folder_word<'a>(alloc: Global) -> Arg<'a> {
    Arg::new(alloc, "FOLDER")
        .help("The bot's folder, as its configuration's line data names it")
        .required(true)
}

fn replay_command<'a>(alloc: Global) -> Result<Command<'a>, AllocError> {
    Command::new(alloc, "replay")
        .about("Do a script with a botnet in memory and print the transcript")
        .arg(script_word(alloc))
}

fn picture_command<'a>(alloc: Global) -> Result<Command<'a>, AllocError> {
    Command::new(alloc, "picture")
        .about("Draw what a script's run was, as SVG that a browser shows")
        .arg(script_word(alloc))
}

fn script_word<'a>(alloc: Global) -> Arg<'a> {
    Arg::new(alloc, "FILE").help("The script; standard input where none is named")
}

fn live_command<'a>(alloc: Global) -> Command<'a> {
    Command::new(alloc, "live").about(
        "Do a live script from standard input, over sockets of this machine",
    )
}

fn serve_command<'a>(alloc: Global) -> Result<Command<'a>, AllocError> {
    let port = Arg::new(alloc, "PORT")
        .help("The port of 127.0.0.1, or 0 for one that the system chooses")
        .required(true)
        .value_parser(value_parser!(u16));
    Command::new(alloc, "serve")
        .about("Keep a small IRC server running on this machine, for other programs")
        .arg(port)
}
