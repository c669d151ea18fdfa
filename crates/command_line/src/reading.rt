//! What a command line asks for.

ghost use Rattle.std.specs.Prelude.{◌≡◌, IfOk};
ghost use Rattle.command_line.specs.Guarded.{IsGuarded, IsGuardedInvocation};
ghost use Rattle.clap.specs.Matches.{found_of};
ghost use Rattle.command_line.specs.Listening.{IsWhereItListens, listen_word};

use crate::addresses::{port_here, read_address};
use crate::guarding::first_unguarded;
use crate::help;
use crate::help::{Extent, extent_of};
use crate::peers::{NamedPeer, PeersFault, read_peers};
use crate::subcommands::{SUBCOMMANDS, Subcommand};
use crate::words::text_of;
use clap::error::ErrorKind;
use clap::{ArgMatches, Command, Error};
use std::alloc::{AllocError, Global};
use std::net::SocketAddr;
use std::time::Duration;

const VERSION: &str = "0.2.0";

/// What the program is asked to do.
#[derive(Debug, Drop)]
pub enum Invocation<'a> {
    /// To print the canonical spelling of an action text.
    Parse(&'a str),
    /// To run the script on standard input.
    Sim(SimOptions),
    /// To run the script of threads on standard input.
    Threads(ThreadOptions<'a>),
    /// To audit the drill in a file, or that of the parts in files.
    Audit(AuditOptions<'a>),
    /// To draw the drill in a file, or that of the parts in files.
    Picture(PictureOptions<'a>),
    /// To serve a node over HTTP, and to keep its part, if that is wanted.
    Serve(ServeOptions<'a>, Option<PartOptions<'a>>),
    /// To say what the codes in a text mean, or, without one, to list all codes.
    Explain(Option<String>),
}

/// How a script is run.
#[derive(Clone, Copy, Debug, Drop)]
pub struct SimOptions {
    /// Whether each line is written before what it prints.
    pub echo: bool,
    /// Whether lines expect answers, and what fails is told and counts.
    pub check: bool,
    /// Whether nothing is said of lines that go wrong, where they aren't checked.
    pub quiet: bool,
    /// Whether answers are written as objects of JSON.
    pub json: bool,
}

/// How a script of threads is run.
#[derive(Clone, Copy, Debug, Drop)]
pub struct ThreadOptions<'a> {
    /// The file that its drill is kept in, if it is kept.
    pub record: Option<&'a str>,
    /// The folder that a part of each node is kept in, if they are kept.
    pub record_parts: Option<&'a str>,
    /// Whether files that are there are written over.
    pub force: bool,
    /// Whether what goes wrong counts.
    pub check: bool,
    /// Whether nothing is said of what goes wrong, where it doesn't count.
    pub quiet: bool,
    /// Whether answers are written as objects of JSON.
    pub json: bool,
}

/// What is audited.
#[derive(Debug, Drop)]
pub struct AuditOptions<'a> {
    /// The file of a drill, or those of its parts.
    pub files: Vec<&'a str>,
    /// Whether answers are written as objects of JSON.
    pub json: bool,
}

/// What is drawn.
#[derive(Debug, Drop)]
pub struct PictureOptions<'a> {
    /// The file of a drill, or those of its parts.
    pub files: Vec<&'a str>,
    /// Whether it is drawn as text.
    pub text: bool,
}

/// Which rights a served node gives to others of its own accord.
#[derive(Clone, Copy, Debug, PartialEq, Eq)]
pub enum Rights {
    /// None: they stay where they were put.
    Stay,
    /// Those that are asked for elsewhere, before each round of gossip.
    FollowDemand,
}

/// From when on a served node takes calls that are no deliveries.
#[derive(Clone, Copy, Debug, PartialEq, Eq)]
pub enum Start {
    /// At once.
    AtOnce,
    /// Once each other node of the cluster was heard, or at once where it goes on from its part.
    OthersHeard,
}

/// Whom a served node tells what it knows, and how often, and whether it hears them first.
#[derive(Debug, Drop)]
pub struct GossipOptions {
    pub peers: Vec<NamedPeer>,
    pub rounds: u32,
    /// The rest between two rounds.
    pub every: Duration,
    /// Which of its rights it gives to others before each round.
    pub rights: Rights,
    /// From when on it takes calls.
    pub start: Start,
}

/// The node that is served, and where.
#[derive(Debug, Drop)]
pub struct ServeOptions<'a> {
    pub node: u8,
    pub nodes: u8,
    /// Where it listens; a port of 0 is one that the system picks.
    pub listen: SocketAddr,
    /// The file of the key that clients and peers share, if they do.
    pub key_file: Option<&'a str>,
    /// How many calls the node accepts; where it isn't said, as many as a node may be made to accept.
    pub cap: Option<u32>,
    /// How many connections are served.
    pub requests: u32,
    /// The points that are set before the first request.
    pub failpoints: Option<&'a str>,
    /// Whom the node tells what it knows, and hears.
    pub telling: GossipOptions,
}

/// Where the part of a served node is kept, and how.
#[derive(Clone, Copy, Debug, Drop)]
pub struct PartOptions<'a> {
    /// Its file.
    pub path: &'a str,
    /// The run of which it is a part.
    pub run: &'a str,
    /// Whether what is written is with the disk before anybody is told.
    pub is_synced: bool,
}

// The words of a command line live as long as the texts of its command.
fn whole_command<'a>(alloc: Global, extent: Extent) -> Result<Command<'a>, AllocError> {
    let mut command = Command::new(alloc, "failreg")
        .version(VERSION)
        .about("Failpoints with cluster-wide counts")
        .after_help(help::EXAMPLE)
        .subcommand_required(true);
    for subcommand in SUBCOMMANDS {
        command = command.subcommand(subcommand.command(alloc, extent)?)?;
    }
    Ok(command)
}

// Where a node is to listen: at the address of `--listen`, or else at a port of 127.0.0.1.
fn listen_address(alloc: Global, matches: &ArgMatches<'_>) -> Result<SocketAddr, Error>
    ensures { IfOk result (IsWhereItListens (listen_word (found_of matches.now))) }
{
    let Some(word) = matches.get_str("listen") else {
        return Ok(port_here(matches.get_one::<u16>("port").unwrap_or(0)));
    };
    match read_address(word) {
        Ok(address) => Ok(address),
        Err(fault) => {
            let message = format!(in alloc;
                "invalid value '{word}' for '--listen <address:port>': {fault}"
            )?;
            Err(bad_value_of_serve(alloc, &message)?)
        }
    }
}

// The options with their addresses, for which a key is there where one is needed.
fn guarded<'a>(alloc: Global, options: ServeOptions<'a>) -> Result<ServeOptions<'a>, Error>
    ensures guarded { IfOk result IsGuarded }
    ensures same { IfOk result (λ given. given ≡ options.entry) }
{
    if options.key_file.is_some() {
        return Ok(options);
    }
    match first_unguarded(options.listen, &options.telling.peers) {
        Some(unguarded) => {
            let message = format!(in alloc; "{unguarded}")?;
            Err(bad_value_of_serve(alloc, &message)?)
        }
        None => Ok(options),
    }
}

// Which rights a node gives to others: those that do so in rounds of gossip are given with such rounds alone.
fn rights_of(
    alloc: Global,
    matches: &ArgMatches<'_>,
    rounds: u32,
    peers: &[NamedPeer],
) -> Result<Rights, Error> {
    if !matches.get_flag("share") {
        return Ok(Rights::Stay);
    }
    if rounds == 0 || peers.is_empty() {
        return Err(bad_value_of_serve(alloc, "--share requires --rounds <k> and a peer")?);
    }
    Ok(Rights::FollowDemand)
}

// From when on a node takes calls. Who hears others first has a peer.
fn start_of(alloc: Global, matches: &ArgMatches<'_>, peers: &[NamedPeer]) -> Result<Start, Error> {
    if !matches.get_flag("hear-first") {
        return Ok(Start::AtOnce);
    }
    if peers.is_empty() {
        return Err(bad_value_of_serve(alloc, "--hear-first requires a peer")?);
    }
    Ok(Start::OthersHeard)
}

// Whom a node tells and hears.
fn gossip_options(
    alloc: Global,
    matches: &ArgMatches<'_>,
    nodes: u8,
) -> Result<GossipOptions, Error> {
    let words = matches.get_strs("peer").unwrap_or(&[]);
    let peers = match read_peers(alloc, words, nodes) {
        Ok(peers) => peers,
        Err(fault) => return Err(bad_peers(alloc, fault)?),
    };
    let rounds = matches.get_one::<u32>("rounds").unwrap_or(0);
    let every = matches.get_one::<u32>("every").unwrap_or(0);
    Ok(GossipOptions {
        rights: rights_of(alloc, matches, rounds, &peers)?,
        start: start_of(alloc, matches, &peers)?,
        peers,
        rounds,
        every: Duration::from_millis(u64::from(every)),
    })
}

// What is given where the values of a serve command have passed their parsers. The addresses haven't yet.
fn serve_options<'a>(alloc: Global, matches: &ArgMatches<'a>) -> Result<ServeOptions<'a>, Error>
    ensures guarded { IfOk result IsGuarded }
    ensures listens { IfOk result (λ options.
        IsWhereItListens (listen_word (found_of matches.now)) options.listen) }
{
    let nodes = matches.get_one::<u8>("nodes").unwrap_or(0);
    let telling = gossip_options(alloc, matches, nodes)?;
    let options = ServeOptions {
        node: matches.get_one::<u8>("node").unwrap_or(0),
        nodes,
        listen: listen_address(alloc, matches)?,
        key_file: matches.get_str("key-file"),
        cap: if matches.get_flag("no-cap") {
            None
        } else {
            matches.get_one::<u32>("cap")
        },
        requests: matches.get_one::<u32>("requests").unwrap_or(0),
        failpoints: matches.get_str("failpoints"),
        telling,
    };
    guarded(alloc, options)
}

// Where a part is kept, if it is: the options that say how are given with its file alone.
fn part_options<'a>(
    alloc: Global,
    matches: &ArgMatches<'a>,
) -> Result<Option<PartOptions<'a>>, Error> {
    let run = matches.get_str("run");
    let is_synced = matches.get_flag("sync");
    match matches.get_str("record") {
        Some(path) => Ok(Some(PartOptions {
            path,
            run: run.unwrap_or(""),
            is_synced,
        })),
        None if run.is_some() || is_synced => {
            Err(bad_value_of_serve(alloc, "--run and --sync require --record <file>")?)
        }
        None => Ok(None),
    }
}

// Words that name no peers, in the form of other mistakes in a command line.
fn bad_peers(alloc: Global, fault: PeersFault<'_>) -> Result<Error, AllocError> {
    let PeersFault::BadPeer { word, fault } = fault else {
        return Err(AllocError);
    };
    let message = format!(in alloc; "invalid value '{word}' for '[node:port]...': {fault}")?;
    bad_value_of_serve(alloc, &message)
}

fn bad_value_of_serve(alloc: Global, message: &str) -> Result<Error, AllocError> {
    Subcommand::Serve
        .command(alloc, Extent::Whole)?
        .bin_name("failreg serve")?
        .error(ErrorKind::ValueValidation, message)
}

// The subcommand that is asked for, and what it is given.
fn asked<'a, 'm>(matches: &'m ArgMatches<'a>) -> Option<(Subcommand, &'m ArgMatches<'a>)> {
    let (name, matches) = matches.subcommand()?;
    Some((Subcommand::named(name)?, matches))
}

fn sim_options(matches: &ArgMatches<'_>) -> SimOptions {
    SimOptions {
        echo: matches.get_flag("echo"),
        check: matches.get_flag("check"),
        quiet: matches.get_flag("quiet"),
        json: matches.get_flag("json"),
    }
}

fn thread_options<'a>(matches: &ArgMatches<'a>) -> ThreadOptions<'a> {
    ThreadOptions {
        record: matches.get_str("record"),
        record_parts: matches.get_str("record-parts"),
        force: matches.get_flag("force"),
        check: matches.get_flag("check"),
        quiet: matches.get_flag("quiet"),
        json: matches.get_flag("json"),
    }
}

// The files of a drill.
fn files<'a>(alloc: Global, matches: &ArgMatches<'a>) -> Result<Vec<&'a str>, AllocError> {
    Vec::from_slice(alloc, matches.get_strs("file").unwrap_or(&[]))
}

// A node to serve, and where its part is kept.
fn served<'a>(alloc: Global, matches: &ArgMatches<'a>) -> Result<Invocation<'a>, Error>
    ensures { IfOk result IsGuardedInvocation }
{
    let part = part_options(alloc, matches)?;
    Ok(Invocation::Serve(serve_options(alloc, matches)?, part))
}

fn read_matches<'a>(alloc: Global, matches: &ArgMatches<'a>) -> Result<Invocation<'a>, Error>
    ensures { IfOk result IsGuardedInvocation }
{
    // No words match without a subcommand, and each that is offered is found by its name.
    let Some((subcommand, matches)) = asked(matches) else {
        return Ok(Invocation::Parse(""));
    };
    match subcommand {
        Subcommand::Parse => Ok(Invocation::Parse(matches.get_str("text").unwrap_or(""))),
        Subcommand::Sim => Ok(Invocation::Sim(sim_options(matches))),
        Subcommand::Threads => Ok(Invocation::Threads(thread_options(matches))),
        Subcommand::Audit => Ok(Invocation::Audit(AuditOptions {
            files: files(alloc, matches)?,
            json: matches.get_flag("json"),
        })),
        Subcommand::Picture => Ok(Invocation::Picture(PictureOptions {
            files: files(alloc, matches)?,
            text: matches.get_flag("text"),
        })),
        Subcommand::Serve => served(alloc, matches),
        Subcommand::Explain => {
            let text = text_of(alloc, matches.get_strs("text").unwrap_or(&[]))?;
            Ok(Invocation::Explain(text))
        }
    }
}

/// What a command line asks for, whose first word is the program's name. A node that is to be served
/// where other machines reach it, or that tells one on another machine, has the file of a key.
pub fn read_command_line<'a>(alloc: Global, words: &'a [String]) -> Result<Invocation<'a>, Error>
    ensures { IfOk result IsGuardedInvocation }
{
    let command = whole_command(alloc, extent_of(words))?;
    let matches = command.try_get_matches_from(words)?;
    read_matches(alloc, &matches)
}
