//! What the words of the command line ask for.
ghost use Rattle.std.specs.Prelude.{◌≡◌, ℕ, Option, Some, List, map, codes, string_bytes, IfOk, IfErr, IfSome};
ghost use Rattle.std.specs.Bool.{Decides};
ghost use Rattle.std.specs.Borrow.{Bor};
ghost use Rattle.std.specs.List.{AllZip};
ghost use Rattle.clap.specs.declared.error.kind.ErrorKind.TheVariants.{MissingRequiredArgument, ValueValidation};
ghost use Rattle.clap.specs.Words.{all_of, app_of, first_of, found_of, kind_of, rows_of, subcommand_rows_of};
ghost use Rattle.bt_words.specs.CommandLine.{AsksFor, IsTaskOf, IsNoTaskOf, IsTaskIn, IsMakeTaskIn, IsServiceIn, IsServingIn, IsLogBeside, IsLogIn, IsSourceIn, IsFlagIn, IsGiven, IsWorkIn, HasJobs, HasNumber};
ghost use Rattle.bt_words.specs.CommandLineSteps.{AreWordsOf, IsRefusalFor, TellsOf};
ghost use Rattle.bt_words.specs.Subcommands.{program_app};
ghost use Rattle.bt_words.specs.Values.{IsPeerWord};
ghost use Rattle.bt_words.specs.declared.command_line.Refusal.TheVariants.{OutOfMemory};

use crate::peer::{Peer, Service, Serving};
use crate::subcommands::{command_named, commands};
use crate::values::{is_address, jobs_in, number_in, part_in, peer_in, port_in};
use bt_check::Source;
use bt_parts::Part;
use clap::error::ErrorKind;
use clap::{ArgMatches, Command, Error};
use std::alloc::{AllocError, AllocFailed, Global};

/// What the program is asked to do.
#[derive(Drop)]
pub enum Task<'a> {
    /// Write the torrent of a folder.
    Make(MakeTask<'a>),
    /// Print what a torrent says.
    Show(ShowTask<'a>),
    /// Check the data files in a folder against a torrent.
    Check(CheckTask<'a>),
    /// Serve the data files in a folder to peers.
    Seed(SeedTask<'a>),
    /// Fetch the data files of a torrent from peers.
    Fetch(FetchTask<'a>),
    /// Run the script of events that standard input has.
    Replay,
}

/// The folder that a torrent is made of, the file that it is written to, and what it says beside the files.
#[derive(Clone, Copy)]
pub struct MakeTask<'a> {
    pub dir: &'a str,
    pub out: &'a str,
    pub name: &'a str,
    pub piece_length: u32,
    /// Whether a call that fails is told of.
    pub verbose: bool,
}

/// The torrent that is printed.
#[derive(Clone, Copy)]
pub struct ShowTask<'a> {
    pub torrent: Source<'a>,
    /// Whether a call that fails is told of.
    pub verbose: bool,
}

/// The torrent whose files are checked, the folder in which they lie, and how much of the check is done.
#[derive(Clone, Copy)]
pub struct CheckTask<'a> {
    pub torrent: Source<'a>,
    pub dir: &'a str,
    pub work: Work,
    /// Whether a call that fails is told of.
    pub verbose: bool,
}

/// How much of a check is done.
#[derive(Clone, Copy, Debug)]
pub enum Work {
    /// All of it, by this many processes: 1 to 64.
    Jobs(u32),
    /// One of the parts into which it is divided.
    Part(Part),
}

/// The torrent whose files are served, the folder in which they lie, and where peers connect.
#[derive(Clone, Copy)]
pub struct SeedTask<'a> {
    pub torrent: Source<'a>,
    pub dir: &'a str,
    pub service: Service<'a>,
    /// The file of the log, where there is to be one: none, where files are only read.
    pub log: Option<&'a str>,
    /// Whether a call that fails is told of.
    pub verbose: bool,
}

/// The torrent whose files are fetched, the folder that they are put in, and the peers, to be tried in turn or at once:
/// one at least.
#[derive(Drop)]
pub struct FetchTask<'a> {
    pub torrent: Source<'a>,
    pub dir: &'a str,
    pub peers: Vec<Peer<'a>>,
    /// Whether peers are fetched from at once, up to 64 of them, and not one after the other.
    pub is_together: bool,
    /// The file of the log, where there is to be one.
    pub log: Option<&'a str>,
    /// Whether a call that fails is told of.
    pub verbose: bool,
}

/// Why words that are well formed ask for no task.
#[derive(Drop)]
enum Refusal<'a> {
    OutOfMemory,
    /// A value is missing, or the word in its place is not what is wanted.
    Value(Mistake<'a>),
}

/// What is wanted of a value, the word that stands in its place, if one does, and the option that it belongs to, with a
/// space behind it: none of a value that is told by its place.
#[derive(Clone, Copy)]
struct Mistake<'a> {
    option: &'a str,
    word: Option<&'a str>,
    wanted: &'a str,
}

impl<'a> Mistake<'a> {
    /// No word is at fault: something is missing.
    fn missing(wanted: &'a str) -> Mistake<'a> {
        Mistake {
            option: "",
            word: None,
            wanted,
        }
    }

    /// The word that an option has as its value.
    fn of_option(option: &'a str, word: &'a str, wanted: &'a str) -> Mistake<'a> {
        Mistake {
            option,
            word: Some(word),
            wanted,
        }
    }
}

impl From<AllocError> for Refusal<'_> {
    ghost from_gives = { λ _ refusal. refusal ≡ OutOfMemory };

    fn from(_error: AllocError) -> Self {
        Refusal::OutOfMemory
    }
}

impl<T: Drop> From<AllocFailed<T>> for Refusal<'_> {
    ghost from_gives = { λ _ refusal. refusal ≡ OutOfMemory };

    fn from(_error: AllocFailed<T>) -> Self {
        Refusal::OutOfMemory
    }
}

const COMMAND_WANTED: &str = "a command is wanted";

const WORD_WANTED: &str = "a word is missing";

const PIECE_LENGTH_WANTED: &str = "a power of two from 16384 to 268435456, as decimal digits";

const SERVING_WANTED: &str = "one of --serve N and --forever is wanted, and not both";

const JOBS_WANTED: &str = "a number from 1 to 64, as decimal digits";

const PART_WANTED: &str = "I/N, with I below N and N from 1 to 64, and no --jobs beside it";

const COUNT_WANTED: &str = "a number from 0 to 4294967295, as decimal digits";

const ADDRESS_WANTED: &str = "an IPv4 or IPv6 address";

const PORT_WANTED: &str = "a number from 0 to 65535, as decimal digits";

const LOG_UNWANTED: &str = "no log goes with --read-only: a log is written";

const PEER_WANTED: &str =
    "a peer is HOST:PORT, with a port in decimal digits: a number from 0 to 65535";

/// Reads the words that follow the program's name. Where they ask for help, or are refused, the error has the
/// text.
pub fn parse<'a>(alloc: Global, words: &'a [String]) -> Result<Task<'a>, Error>
    ensures task { IfOk result (IsTaskOf (map string_bytes words.now)) }
    ensures error { IfErr result (λ error. IsNoTaskOf (map string_bytes words.now)
        (kind_of error)) }
{
    let mut command = commands(alloc)?;
    task_by(alloc, &mut command, words)
}

/// Reads the words by the program's commands.
fn task_by<'a>(
    alloc: Global,
    command: &mut Command<'a>,
    words: &'a [String],
) -> Result<Task<'a>, Error>
    requires { app_of command.old ≡ program_app }
    ensures task { IfOk result (IsTaskOf (map string_bytes words.now)) }
    ensures error { IfErr result (λ error. IsNoTaskOf (map string_bytes words.now)
        (kind_of error)) }
{
    let matches = matches_of(alloc, command, words)?;
    match task_of(alloc, &matches) {
        Ok(task) => Ok(task),
        Err(refusal) => Err(error_of(alloc, command_in(words), refusal)),
    }
}

/// The words, as the program's commands have them.
fn matches_of<'a>(
    alloc: Global,
    command: &mut Command<'a>,
    words: &'a [String],
) -> Result<ArgMatches<'a>, Error>
    requires { app_of command.old ≡ program_app }
    ensures matches { IfOk result (AreWordsOf (map string_bytes words.now)) }
    ensures error { IfErr result (λ error. IsNoTaskOf (map string_bytes words.now)
        (kind_of error)) }
{
    match read_words(command, words) {
        Ok(matches) => Ok(matches),
        Err(error) => Err(with_name_hint(alloc, words, error)),
    }
}

/// The words as clap reads them.
fn read_words<'a>(command: &mut Command<'a>, words: &'a [String]) -> Result<ArgMatches<'a>, Error>
    requires { app_of command.old ≡ program_app }
    ensures matches { IfOk result (AreWordsOf (map string_bytes words.now)) }
    ensures error { IfErr result (λ error. IsNoTaskOf (map string_bytes words.now)
        (kind_of error)) }
{
    command.try_get_matches_from_mut(words)
}

/// The word in a command's place: none is an empty one.
fn command_in(words: &[String]) -> &str {
    match words.first() {
        Some(word) => word.as_str(),
        None => "",
    }
}

/// The error that tells of a refusal of the words of a command, with the usage of that.
fn error_of(alloc: Global, name: &str, refusal: Refusal<'_>) -> Error
    ensures { TellsOf refusal.entry (kind_of result) }
{
    match refusal {
        Refusal::OutOfMemory => Error::from(AllocError),
        Refusal::Value(mistake) => match value_error(alloc, name, mistake) {
            Ok(error) => error,
            Err(memory) => Error::from(memory),
        },
    }
}

/// The error that tells of a value of a command.
fn value_error(alloc: Global, name: &str, mistake: Mistake<'_>) -> Result<Error, AllocError>
    ensures { IfOk result (λ error. kind_of error ≡ ValueValidation) }
{
    let text = mistake_text(alloc, mistake)?;
    usage_error(alloc, name, ErrorKind::ValueValidation, text.as_str())
}

/// An error of this kind, with the usage of a command.
fn usage_error(alloc: Global, name: &str, kind: ErrorKind, text: &str) -> Result<Error, AllocError>
    ensures { IfOk result (λ error. kind_of error ≡ kind) }
{
    let mut command = command_named(alloc, name)?;
    command.error(kind, text)
}

/// Which value it is, and what is wanted of it.
fn mistake_text(alloc: Global, mistake: Mistake<'_>) -> Result<String, AllocError> {
    let Mistake {
        option,
        word,
        wanted,
    } = mistake;
    match word {
        Some(word) => format!(in alloc; "{option}{word}: {wanted}"),
        None => String::from_str(alloc, wanted),
    }
}

/// The same error; and where of all that `make` needs the name alone is missing, with one that can be taken.
fn with_name_hint(alloc: Global, words: &[String], error: Error) -> Error
    requires { IsNoTaskOf (map string_bytes words.now) (kind_of error) }
    ensures { IsNoTaskOf (map string_bytes words.now) (kind_of result) }
{
    if error.kind() != ErrorKind::MissingRequiredArgument || command_in(words) != "make" {
        return error;
    }
    match name_error(alloc, words, &error) {
        Ok(Some(told)) => told,
        Ok(None) => error,
        Err(memory) => Error::from(memory),
    }
}

/// The error that tells that the name is missing, and which can be taken; none where it is not, or not alone.
fn name_error(alloc: Global, words: &[String], error: &Error) -> Result<Option<Error>, AllocError>
    ensures { IfOk result (λ told. IfSome told (λ told. kind_of told ≡ MissingRequiredArgument)) }
{
    let text = format!(in alloc; "{error}")?;
    if !text.contains("\n  --name ") || text.contains("\n  <") {
        return Ok(None);
    }
    let name = folder_name(words).unwrap_or("NAME");
    let text = format!(in alloc; "the torrent's name is missing: as --name {name}")?;
    let told = usage_error(
        alloc,
        "make",
        ErrorKind::MissingRequiredArgument,
        text.as_str(),
    )?;
    Ok(Some(told))
}

/// The last name of the folder that `make` is to make a torrent of, if it has one.
fn folder_name(words: &[String]) -> Option<&str> {
    let name = last_name(folder_word(words)?);
    match name {
        "" | "." | ".." => None,
        _ => Some(name),
    }
}

/// The first word behind the command that is neither an option nor the value of one.
fn folder_word(words: &[String]) -> Option<&str> {
    let mut is_value = false;
    for word in words.iter().skip(1) {
        let word = word.as_str();
        if !is_value && !word.starts_with('-') {
            return Some(word);
        }
        is_value = word == "--piece-length";
    }
    None
}

/// What stands behind the last slash of a path, but for those at its end.
fn last_name(path: &str) -> &str {
    let path = path.trim_end_matches('/');
    match path.rsplit_once('/') {
        Some((_, name)) => name,
        None => path,
    }
}

/// The task that the words ask for.
fn task_of<'a>(alloc: Global, matches: &ArgMatches<'a>) -> Result<Task<'a>, Refusal<'a>>
    ensures task { IfOk result (IsTaskIn (subcommand_rows_of matches.now)) }
    ensures refused { IfErr result
        (IsRefusalFor ((task : Task) → ¬ IsTaskIn (subcommand_rows_of matches.now) task)) }
{
    match matches.subcommand() {
        Some((name, found)) => task_named(alloc, name, found),
        None => Err(Refusal::Value(Mistake::missing(COMMAND_WANTED))),
    }
}

/// The task of a subcommand.
fn task_named<'a>(
    alloc: Global,
    name: &str,
    matches: &ArgMatches<'a>,
) -> Result<Task<'a>, Refusal<'a>>
    ensures task { IfOk result (AsksFor name.now (rows_of (found_of matches.now))) }
    ensures refused { IfErr result
        (IsRefusalFor ((task : Task) → ¬ AsksFor name.now (rows_of (found_of matches.now)) task)) }
{
    match name {
        "make" => make_task(matches),
        "show" => show_task(matches),
        "check" => check_task(matches),
        "seed" => seed_task(matches),
        "fetch" => fetch_task(alloc, matches),
        "replay" => Ok(Task::Replay),
        _ => Err(Refusal::Value(Mistake::missing(COMMAND_WANTED))),
    }
}

fn make_task<'a>(matches: &ArgMatches<'a>) -> Result<Task<'a>, Refusal<'a>>
    ensures task { IfOk result (AsksFor (codes "make") (rows_of (found_of matches.now))) }
    ensures refused { IfErr result (IsRefusalFor
        ((task : Task) → ¬ AsksFor (codes "make") (rows_of (found_of matches.now)) task)) }
{
    let request = make_task_of(matches)?;
    Ok(Task::Make(request))
}

fn show_task<'a>(matches: &ArgMatches<'a>) -> Result<Task<'a>, Refusal<'a>>
    ensures task { IfOk result (AsksFor (codes "show") (rows_of (found_of matches.now))) }
    ensures refused { IfErr result (IsRefusalFor
        ((task : Task) → ¬ AsksFor (codes "show") (rows_of (found_of matches.now)) task)) }
{
    let torrent = source_of(matches)?;
    let verbose = has_flag(matches, "verbose");
    Ok(Task::Show(ShowTask { torrent, verbose }))
}

fn check_task<'a>(matches: &ArgMatches<'a>) -> Result<Task<'a>, Refusal<'a>>
    ensures task { IfOk result (AsksFor (codes "check") (rows_of (found_of matches.now))) }
    ensures refused { IfErr result (IsRefusalFor
        ((task : Task) → ¬ AsksFor (codes "check") (rows_of (found_of matches.now)) task)) }
{
    let torrent = source_of(matches)?;
    let dir = word_of(matches, "DIR")?;
    let work = work_of(matches)?;
    let verbose = has_flag(matches, "verbose");
    Ok(Task::Check(CheckTask {
        torrent,
        dir,
        work,
        verbose,
    }))
}

/// How much of a check is done: all of it, by one process or more, or a part.
fn work_of<'a>(matches: &ArgMatches<'a>) -> Result<Work, Refusal<'a>>
    ensures work { IfOk result (IsWorkIn (rows_of (found_of matches.now))) }
    ensures refused { IfErr result (IsRefusalFor
        ((work : Work) → ¬ IsWorkIn (rows_of (found_of matches.now)) work)) }
{
    let digits = word_of(matches, "jobs")?;
    match jobs_in(digits) {
        Some(count) => work_by(matches, count),
        None => Err(Refusal::Value(Mistake::of_option("--jobs ", digits, JOBS_WANTED))),
    }
}

/// How much of a check is done, where `count` processes are asked for: all of it, or a part.
fn work_by<'a>(matches: &ArgMatches<'a>, count: u32) -> Result<Work, Refusal<'a>>
    requires { HasJobs (rows_of (found_of matches.now)) count }
    ensures work { IfOk result (IsWorkIn (rows_of (found_of matches.now))) }
    ensures refused { IfErr result (IsRefusalFor
        ((work : Work) → ¬ IsWorkIn (rows_of (found_of matches.now)) work)) }
{
    match matches.get_str("part") {
        Some(word) => part_by(matches, word, count),
        None => Ok(Work::Jobs(count)),
    }
}

/// The part of a check that a word names, where `count` processes are asked for, which then have to be one.
fn part_by<'a>(matches: &ArgMatches<'a>, word: &'a str, count: u32) -> Result<Work, Refusal<'a>>
    requires jobs { HasJobs (rows_of (found_of matches.now)) count }
    requires given { first_of (codes "part") (rows_of (found_of matches.now)) ≡ Some word.now }
    ensures work { IfOk result (IsWorkIn (rows_of (found_of matches.now))) }
    ensures refused { IfErr result (IsRefusalFor
        ((work : Work) → ¬ IsWorkIn (rows_of (found_of matches.now)) work)) }
{
    if count != 1 {
        return Err(Refusal::Value(Mistake::of_option("--part ", word, PART_WANTED)));
    }
    match part_in(word) {
        Some(part) => Ok(Work::Part(part)),
        None => Err(Refusal::Value(Mistake::of_option("--part ", word, PART_WANTED))),
    }
}

fn seed_task<'a>(matches: &ArgMatches<'a>) -> Result<Task<'a>, Refusal<'a>>
    ensures task { IfOk result (AsksFor (codes "seed") (rows_of (found_of matches.now))) }
    ensures refused { IfErr result (IsRefusalFor
        ((task : Task) → ¬ AsksFor (codes "seed") (rows_of (found_of matches.now)) task)) }
{
    let torrent = source_of(matches)?;
    let dir = word_of(matches, "DIR")?;
    let service = service_of(matches)?;
    let log = log_beside(matches, service.is_read_only)?;
    let verbose = has_flag(matches, "verbose");
    Ok(Task::Seed(SeedTask {
        torrent,
        dir,
        service,
        log,
        verbose,
    }))
}

fn fetch_task<'a>(alloc: Global, matches: &ArgMatches<'a>) -> Result<Task<'a>, Refusal<'a>>
    ensures task { IfOk result (AsksFor (codes "fetch") (rows_of (found_of matches.now))) }
    ensures refused { IfErr result (IsRefusalFor
        ((task : Task) → ¬ AsksFor (codes "fetch") (rows_of (found_of matches.now)) task)) }
{
    let torrent = source_of(matches)?;
    let dir = word_of(matches, "DIR")?;
    let verbose = has_flag(matches, "verbose");
    let is_together = is_given(matches, "together");
    let log = log_in(matches);
    let words = words_of(matches, "PEER")?;
    let peers = peers_of(alloc, words)?;
    Ok(Task::Fetch(FetchTask {
        torrent,
        dir,
        peers,
        is_together,
        log,
        verbose,
    }))
}

fn make_task_of<'a>(matches: &ArgMatches<'a>) -> Result<MakeTask<'a>, Refusal<'a>>
    ensures task { IfOk result (IsMakeTaskIn (rows_of (found_of matches.now))) }
    ensures refused { IfErr result (IsRefusalFor
        ((request : MakeTask) → ¬ IsMakeTaskIn (rows_of (found_of matches.now)) request)) }
{
    let dir = word_of(matches, "DIR")?;
    let out = word_of(matches, "OUT")?;
    let name = word_of(matches, "name")?;
    let text = word_of(matches, "piece-length")?;
    let verbose = has_flag(matches, "verbose");
    match number_in(text) {
        Some(piece_length) => Ok(MakeTask {
            dir,
            out,
            name,
            piece_length,
            verbose,
        }),
        None => Err(Refusal::Value(Mistake::of_option(
            "--piece-length ",
            text,
            PIECE_LENGTH_WANTED,
        ))),
    }
}

/// Where a seed listens, how many connections it serves, and whether it may write files.
fn service_of<'a>(matches: &ArgMatches<'a>) -> Result<Service<'a>, Refusal<'a>>
    ensures service { IfOk result (IsServiceIn (rows_of (found_of matches.now))) }
    ensures refused { IfErr result (IsRefusalFor
        ((service : Service) → ¬ IsServiceIn (rows_of (found_of matches.now)) service)) }
{
    let serving = serving_of(matches)?;
    let address = word_of(matches, "listen")?;
    if !is_address(address) {
        return Err(Refusal::Value(Mistake::of_option("--listen ", address, ADDRESS_WANTED)));
    }
    let digits = word_of(matches, "port")?;
    let is_read_only = is_given(matches, "read-only");
    match port_in(digits) {
        Some(port) => Ok(Service {
            address,
            port,
            serving,
            is_read_only,
        }),
        None => Err(Refusal::Value(Mistake::of_option("--port ", digits, PORT_WANTED))),
    }
}

/// How many connections are served: one of the two words that say it must be there, and not both.
fn serving_of<'a>(matches: &ArgMatches<'a>) -> Result<Serving, Refusal<'a>>
    ensures serving { IfOk result (IsServingIn (rows_of (found_of matches.now))) }
    ensures refused { IfErr result (IsRefusalFor
        ((serving : Serving) → ¬ IsServingIn (rows_of (found_of matches.now)) serving)) }
{
    let is_forever = is_given(matches, "forever");
    match matches.get_str("serve") {
        Some(digits) => {
            if is_forever {
                return Err(Refusal::Value(Mistake::missing(SERVING_WANTED)));
            }
            match number_in(digits) {
                Some(count) => Ok(serving_by(matches, count)),
                None => Err(Refusal::Value(Mistake::of_option("--serve ", digits, COUNT_WANTED))),
            }
        }
        None => {
            if is_forever {
                return Ok(Serving::Forever);
            }
            Err(Refusal::Value(Mistake::missing(SERVING_WANTED)))
        }
    }
}

/// How `count` connections are served: one after the other, or some at once.
fn serving_by(matches: &ArgMatches<'_>, count: u32) -> Serving
    requires count { HasNumber 32 (rows_of (found_of matches.now)) (codes "serve") count }
    requires ends { ¬ IsGiven (codes "forever") (rows_of (found_of matches.now)) }
    ensures { IsServingIn (rows_of (found_of matches.now)) result }
{
    if is_given(matches, "together") {
        Serving::Together(count)
    } else {
        Serving::Count(count)
    }
}

/// The file of a seed's log, if there is to be one: none, where files are only read.
fn log_beside<'a>(
    matches: &ArgMatches<'a>,
    is_read_only: bool,
) -> Result<Option<&'a str>, Refusal<'a>>
    ensures log { IfOk result (IsLogBeside is_read_only (rows_of (found_of matches.now))) }
    ensures refused { IfErr result (IsRefusalFor ((log : Option (Bor (List ℕ)))
        → ¬ IsLogBeside is_read_only (rows_of (found_of matches.now)) log)) }
{
    match log_in(matches) {
        Some(path) => {
            if is_read_only {
                return Err(Refusal::Value(Mistake::of_option("--log ", path, LOG_UNWANTED)));
            }
            Ok(Some(path))
        }
        None => Ok(None),
    }
}

/// The file of a log, if there is to be one.
fn log_in<'a>(matches: &ArgMatches<'a>) -> Option<&'a str>
    ensures { IsLogIn (rows_of (found_of matches.now)) result }
{
    matches.get_str("log")
}

/// Whether a flag is among the words.
fn is_given(matches: &ArgMatches<'_>, id: &str) -> bool
    ensures { Decides result (IsGiven id.now (rows_of (found_of matches.now))) }
{
    match matches.get_str(id) {
        Some(text) => text == "true",
        None => false,
    }
}

/// The peers that words name, in turn.
fn peers_of<'a>(alloc: Global, words: &[&'a str]) -> Result<Vec<Peer<'a>>, Refusal<'a>>
    ensures peers { IfOk result (λ peers. AllZip IsPeerWord (map (λ word. word.now) words.now)
        peers.items) }
    ensures refused { IfErr result (IsRefusalFor
        ((peers : List Peer) → ¬ AllZip IsPeerWord (map (λ word. word.now) words.now) peers)) }
{
    let mut peers = Vec::new(alloc);
    for word in words {
        let Some(peer) = peer_in(word) else {
            return Err(Refusal::Value(Mistake::of_option("", word, PEER_WANTED)));
        };
        peers.push(peer)?;
    }
    Ok(peers)
}

fn source_of<'a>(matches: &ArgMatches<'a>) -> Result<Source<'a>, Refusal<'a>>
    ensures source { IfOk result (IsSourceIn (rows_of (found_of matches.now))) }
    ensures refused { IfErr result (IsRefusalFor
        ((source : Source) → ¬ IsSourceIn (rows_of (found_of matches.now)) source)) }
{
    let is_info = has_flag(matches, "info");
    let path = word_of(matches, "TORRENT")?;
    Ok(Source { path, is_info })
}

/// Whether the flag of this id is among the words.
fn has_flag(matches: &ArgMatches<'_>, id: &str) -> bool
    ensures { IsFlagIn id.now result (rows_of (found_of matches.now)) }
{
    matches.get_flag(id)
}

/// The word of this id.
fn word_of<'a>(matches: &ArgMatches<'a>, id: &str) -> Result<&'a str, Refusal<'a>>
    ensures word { IfOk result (λ word. first_of id.now (rows_of (found_of matches.now))
        ≡ Some word.now) }
    ensures refused { IfErr result (IsRefusalFor
        ((text : List ℕ) → ¬ (first_of id.now (rows_of (found_of matches.now)) ≡ Some text))) }
{
    match matches.get_str(id) {
        Some(word) => Ok(word),
        None => Err(Refusal::Value(Mistake::missing(WORD_WANTED))),
    }
}

/// All words of this id.
fn words_of<'b, 'a>(matches: &'b ArgMatches<'a>, id: &str) -> Result<&'b [&'a str], Refusal<'a>>
    ensures words { IfOk result (λ words. all_of id.now (rows_of (found_of matches.now))
        ≡ Some (map (λ word. word.now) words.now)) }
    ensures refused { IfErr result (IsRefusalFor
        ((texts : List (List ℕ)) → ¬ (all_of id.now (rows_of (found_of matches.now))
        ≡ Some texts))) }
{
    match matches.get_strs(id) {
        Some(words) => Ok(words),
        None => Err(Refusal::Value(Mistake::missing(WORD_WANTED))),
    }
}
