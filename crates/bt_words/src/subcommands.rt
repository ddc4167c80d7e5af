//! The commands of the program, and the words of each.
ghost use Rattle.std.specs.Prelude.{◌≡◌, false, map, IfOk};
ghost use Rattle.clap.specs.Words.{app_of, new_app, rule_of, with_rule, with_subcommand};
ghost use Rattle.clap.specs.declared.builder.command.Command.TheViews.{out-Command as fields_of};
ghost use Rattle.bt_words.specs.Subcommands.{with_version, with_demands, command_app, top_app, program_app};
ghost use Rattle.bt_words.specs.SubcommandsSteps.{app_of_row, rule_of_word, with_commands};

use clap::{Arg, ArgAction, Command};
use std::alloc::{AllocError, Global};

const ABOUT: &str =
    "Makes, shows, checks, seeds and fetches BitTorrent v2 torrents, and replays scripts of events.";

const VERSION: &str = "0.1.0";

/// A word of a command: how it is named and taken, and what help says of it.
#[derive(Clone, Copy)]
struct Word<'a> {
    id: &'a str,
    kind: Kind<'a>,
    help: &'a str,
}

/// How a word is taken. A value's name is that which help gives it.
#[derive(Clone, Copy)]
enum Kind<'a> {
    /// It must be there, by its place.
    Needed,
    /// It must be there, by its place, and more may follow.
    NeededList,
    /// An option with a value, which must be there.
    NeededOption,
    /// An option with a value: where it is not there, it is this.
    Default(&'a str),
    /// An option with a value of this name.
    Value(&'a str),
    /// The same, of which help says nothing.
    HiddenValue(&'a str),
    /// An option with a value of this name, and its value where it is not there.
    ValueOr(&'a str, &'a str),
    /// An option without a value.
    Flag,
}

const TORRENT: Word<'static> = Word {
    id: "TORRENT",
    kind: Kind::Needed,
    help: "The torrent file",
};

const INFO: Word<'static> = Word {
    id: "info",
    kind: Kind::Flag,
    help: "The torrent file holds the info dictionary alone",
};

const VERBOSE: Word<'static> = Word {
    id: "verbose",
    kind: Kind::Flag,
    help: "Before a device fault tell which file it was, and what could not be done; and give hints, as at a terminal",
};

const MAKE_DIR: Word<'static> = Word {
    id: "DIR",
    kind: Kind::Needed,
    help: "The folder whose files the torrent is made of",
};

const OUT: Word<'static> = Word {
    id: "OUT",
    kind: Kind::Needed,
    help: "The file that the torrent is written to",
};

const NAME: Word<'static> = Word {
    id: "name",
    kind: Kind::NeededOption,
    help: "The torrent's name",
};

const PIECE_LENGTH: Word<'static> = Word {
    id: "piece-length",
    kind: Kind::Default("262144"),
    help: "How many bytes a piece has: a power of two from 16384 to 268435456. Good is one of which the files have 1000 to 20000; they may have 2097152 at most",
};

const DIR: Word<'static> = Word {
    id: "DIR",
    kind: Kind::Needed,
    help: "The folder that holds the files",
};

const JOBS: Word<'static> = Word {
    id: "jobs",
    kind: Kind::ValueOr("N", "1"),
    help: "How many processes check side by side, from 1 to 64: each reads its part of the files",
};

const PART: Word<'static> = Word {
    id: "part",
    kind: Kind::HiddenValue("I/N"),
    help: "For --jobs itself: checks part I of N, from 0 on, and prints a line for each run of its blocks",
};

const SERVE: Word<'static> = Word {
    id: "serve",
    kind: Kind::Value("N"),
    help: "How many connections are served, one after the other: this or --forever is needed",
};

const FOREVER: Word<'static> = Word {
    id: "forever",
    kind: Kind::Flag,
    help: "In place of --serve: all connections that come are served, up to 64 at once, until the program is ended",
};

const SERVE_TOGETHER: Word<'static> = Word {
    id: "together",
    kind: Kind::Flag,
    help: "With --serve: up to 64 connections are served at once, as they are with --forever",
};

const LISTEN: Word<'static> = Word {
    id: "listen",
    kind: Kind::ValueOr("ADDRESS", "127.0.0.1"),
    help: "The address of this machine to listen at, IPv4 or IPv6: at 127.0.0.1 this machine alone can connect",
};

const PORT: Word<'static> = Word {
    id: "port",
    kind: Kind::ValueOr("P", "0"),
    help: "The port to listen at, from 0 to 65535: at 0 the system chooses one",
};

const READ_ONLY: Word<'static> = Word {
    id: "read-only",
    kind: Kind::Flag,
    help: "Files are only read, and none is made; if not all are complete, nothing is served",
};

const LOG: Word<'static> = Word {
    id: "log",
    kind: Kind::Value("F"),
    help: "A file that keeps what is known of the files: a run begins with what it records, and with nothing else; it is made where it is missing",
};

const FETCH_DIR: Word<'static> = Word {
    id: "DIR",
    kind: Kind::Needed,
    help: "The folder that the files are put in",
};

const PEERS: Word<'static> = Word {
    id: "PEER",
    kind: Kind::NeededList,
    help: "A peer as HOST:PORT, a name or an address before the last colon",
};

const FETCH_TOGETHER: Word<'static> = Word {
    id: "together",
    kind: Kind::Flag,
    help: "Up to 64 peers are fetched from at once, and not one after the other; of more, the next is dialled as one goes",
};

/// A command: its name, what it is for, and its words.
#[derive(Clone, Copy)]
struct Subcommand<'a> {
    name: &'a str,
    about: &'a str,
    words: &'a [Word<'a>],
}

const SUBCOMMANDS: &[Subcommand<'static>] = &[
    Subcommand {
        name: "make",
        about: "Writes the torrent of a folder, and prints its infohash",
        words: &[MAKE_DIR, OUT, NAME, PIECE_LENGTH, VERBOSE],
    },
    Subcommand {
        name: "show",
        about: "Prints a torrent's contents",
        words: &[TORRENT, INFO, VERBOSE],
    },
    Subcommand {
        name: "check",
        about: "Checks downloaded files against a torrent; changes nothing",
        words: &[TORRENT, DIR, JOBS, PART, INFO, VERBOSE],
    },
    Subcommand {
        name: "seed",
        about: "Serves the files of a folder to peers that connect, and takes what is missing from them, unless with --read-only",
        words: &[
            TORRENT,
            DIR,
            SERVE,
            FOREVER,
            SERVE_TOGETHER,
            LISTEN,
            PORT,
            READ_ONLY,
            LOG,
            INFO,
            VERBOSE,
        ],
    },
    Subcommand {
        name: "fetch",
        about: "Fetches the files of a torrent from peers, which are tried in turn, or with --together at once, and prints the report",
        words: &[
            TORRENT,
            FETCH_DIR,
            PEERS,
            FETCH_TOGETHER,
            LOG,
            INFO,
            VERBOSE,
        ],
    },
    Subcommand {
        name: "replay",
        about: "Runs the script of events on standard input over files in memory, and prints what they answer",
        words: &[VERBOSE],
    },
];

/// The program, its commands and their words.
pub fn commands<'a>(alloc: Global) -> Result<Command<'a>, AllocError>
    ensures { IfOk result (λ command. app_of command ≡ program_app) }
{
    with_commands(alloc, SUBCOMMANDS)
}

/// The command of this name, as its usage is told; or the program, where none has it.
pub fn command_named(alloc: Global, name: &str) -> Result<Command<'static>, AllocError> {
    for row in SUBCOMMANDS {
        if row.name == name {
            let command = command_of(alloc, row.name, row.about, row.words)?;
            return command.bin_name(format!(in alloc; "btseed {name}")?.as_str());
        }
    }
    commands(alloc)
}

/// The program with these commands.
fn with_commands<'a>(alloc: Global, rows: &[Subcommand<'a>]) -> Result<Command<'a>, AllocError>
    ensures { IfOk result (λ made. app_of made ≡ with_commands top_app (map app_of_row rows.now)) }
{
    let top = top_command(alloc)?;
    let mut command = top;
    for row in rows {
        command = with_command(alloc, command, *row)?;
    }
    Ok(command)
}

/// A command with a subcommand more.
fn with_command<'a>(
    alloc: Global,
    command: Command<'a>,
    row: Subcommand<'a>,
) -> Result<Command<'a>, AllocError>
    ensures { IfOk result
        (λ made. app_of made ≡ with_subcommand (app_of command.entry) (app_of_row row.entry).top) }
{
    let subcommand = command_of(alloc, row.name, row.about, row.words)?;
    command.subcommand(subcommand)
}

/// The program, of which each command is a subcommand.
#[tactic(auto, unfolding(crate::specs::Subcommands::top_app))]
fn top_command<'a>(alloc: Global) -> Result<Command<'a>, AllocError>
    ensures { IfOk result (λ command. app_of command ≡ top_app) }
{
    let command = Command::new(alloc, "btseed").bin_name("btseed")?;
    Ok(with_demands(with_version(command, ABOUT, VERSION)))
}

/// A command that tells what it is for, and its version.
fn with_version<'a>(command: Command<'a>, about: &'a str, version: &'a str) -> Command<'a>
    ensures { app_of result ≡ with_version (app_of command.entry) }
{
    command.about(about).version(version)
}

/// A command whose words begin after the program's name: a subcommand must be there, and with no word at all
/// there is help.
fn with_demands<'a>(command: Command<'a>) -> Command<'a>
    ensures { app_of result ≡ with_demands (app_of command.entry) }
{
    command
        .no_binary_name(true)
        .subcommand_required(true)
        .arg_required_else_help(true)
}

/// A command of this name with these words.
fn command_of<'a>(
    alloc: Global,
    name: &'a str,
    about: &'a str,
    words: &[Word<'a>],
) -> Result<Command<'a>, AllocError>
    ensures words { IfOk result
        (λ command. app_of command ≡ command_app name.now (map rule_of_word words.now)) }
    ensures local { IfOk result (λ command. (fields_of command).has_globals ≡ false) }
{
    let mut command = plain_command(alloc, name, about);
    for word in words {
        command = with_word(command, arg_of(alloc, *word))?;
    }
    Ok(command)
}

/// A command of this name, with no words.
fn plain_command<'a>(alloc: Global, name: &'a str, about: &'a str) -> Command<'a>
    ensures words { app_of result ≡ new_app name.now }
    ensures local { (fields_of result).has_globals ≡ false }
{
    Command::new(alloc, name).about(about)
}

/// A command with a word more.
fn with_word<'a>(command: Command<'a>, word: Arg<'a>) -> Result<Command<'a>, AllocError>
    requires { word.global ≡ false }
    ensures words { IfOk result
        (λ made. app_of made ≡ with_rule (app_of command.entry) (rule_of word.entry)) }
    ensures local { IfOk result
        (λ made. (fields_of made).has_globals ≡ (fields_of command.entry).has_globals) }
{
    command.arg(word)
}

/// A word, as clap has it.
fn arg_of<'a>(alloc: Global, word: Word<'a>) -> Arg<'a>
    ensures rule { rule_of result ≡ rule_of_word word.entry }
    ensures local { result.global ≡ false }
{
    let id = word.id;
    let arg = Arg::new(alloc, id).help(word.help);
    match word.kind {
        Kind::Needed => arg.required(true),
        Kind::NeededList => arg.required(true).action(ArgAction::Append),
        Kind::NeededOption => arg.required(true).long(id),
        Kind::Default(otherwise) => arg.long(id).default_value(otherwise),
        Kind::Value(name) => arg.long(id).value_name(name),
        Kind::HiddenValue(name) => arg.long(id).value_name(name).hide(true),
        Kind::ValueOr(name, otherwise) => { arg.long(id).value_name(name).default_value(otherwise) }
        Kind::Flag => arg.long(id).action(ArgAction::SetTrue),
    }
}
