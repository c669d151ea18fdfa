//! The subcommands of the program, and the arguments of each.

use crate::help;
use crate::help::Extent;
use clap::builder::ValueParser;
use clap::{Arg, ArgGroup, Command};
use std::alloc::{AllocError, Global};

/// An argument of a subcommand.
#[derive(Clone, Copy, Drop)]
struct Argument {
    name: &'static str,
    // Whether `--` and the name stand before its values, or its place says which it is.
    by_name: bool,
    // What the help calls its value.
    value: &'static str,
    help: &'static str,
    required: bool,
    // Its value where it isn't given, if it has one then.
    default: &'static [&'static str],
    // How many values it takes, at least and at most: a flag takes none.
    values: (usize, usize),
    // The greatest number that it takes; or it takes any text.
    most: Option<i64>,
    takes_hyphens: bool,
    // The arguments that it isn't given with.
    excludes: &'static [&'static str],
}

impl Argument {
    fn arg<'a>(&self, alloc: Global) -> Result<Arg<'a>, AllocError> {
        let (least, most) = self.values;
        let arg = Arg::new(alloc, self.name)
            .value_name(self.value)
            .help(self.help)
            .required(self.required)
            .default_values(self.default)
            .num_args(least..=most)
            .allow_hyphen_values(self.takes_hyphens)
            .conflicts_with_all(self.excludes)?;
        let arg = if self.by_name {
            arg.long(self.name)
        } else {
            arg
        };
        Ok(match self.most {
            Some(most) => arg.value_parser(ValueParser::signed(0, most)),
            None => arg,
        })
    }
}

/// Arguments of which just one is given.
#[derive(Clone, Copy, Drop)]
struct Alternatives {
    name: &'static str,
    members: &'static [&'static str],
}

impl Alternatives {
    fn group<'a>(self, alloc: Global) -> Result<ArgGroup<'a>, AllocError> {
        let group = ArgGroup::new(alloc, self.name).args(self.members)?;
        Ok(group.required(true))
    }
}

const LISTENING: Alternatives = Alternatives {
    name: "listening",
    members: &["port", "listen"],
};

const PARSE: &[Argument] = &[Argument {
    name: "text",
    by_name: false,
    value: "text",
    help: "An action string, which may start with `-`",
    required: true,
    default: &[],
    values: (1, 1),
    most: None,
    takes_hyphens: true,
    excludes: &[],
}];

const SIM: &[Argument] = &[
    Argument {
        name: "echo",
        by_name: true,
        value: "echo",
        help: "Repeat each line of the script before its output",
        required: false,
        default: &[],
        values: (0, 0),
        most: None,
        takes_hyphens: false,
        excludes: &[],
    },
    Argument {
        name: "check",
        by_name: true,
        value: "check",
        help: "Allow `expect` lines, and exit with 3 if a line fails",
        required: false,
        default: &[],
        values: (0, 0),
        most: None,
        takes_hyphens: false,
        excludes: &[],
    },
    Argument {
        name: "quiet",
        by_name: true,
        value: "quiet",
        help: "Print no warnings about lines that go wrong",
        required: false,
        default: &[],
        values: (0, 0),
        most: None,
        takes_hyphens: false,
        excludes: &[],
    },
    Argument {
        name: "json",
        by_name: true,
        value: "json",
        help: "Print each line of output as a JSON object",
        required: false,
        default: &[],
        values: (0, 0),
        most: None,
        takes_hyphens: false,
        excludes: &["echo"],
    },
];

const THREADS: &[Argument] = &[
    Argument {
        name: "record",
        by_name: true,
        value: "file",
        help: "Record the run in this file, for `failreg audit`",
        required: false,
        default: &[],
        values: (1, 1),
        most: None,
        takes_hyphens: false,
        excludes: &[],
    },
    Argument {
        name: "record-parts",
        by_name: true,
        value: "folder",
        help: "Write a journal of each node to this folder, for `failreg audit`",
        required: false,
        default: &[],
        values: (1, 1),
        most: None,
        takes_hyphens: false,
        excludes: &["record"],
    },
    Argument {
        name: "force",
        by_name: true,
        value: "force",
        help: "Let --record and --record-parts overwrite existing files",
        required: false,
        default: &[],
        values: (0, 0),
        most: None,
        takes_hyphens: false,
        excludes: &[],
    },
    Argument {
        name: "check",
        by_name: true,
        value: "check",
        help: "Allow `expect` and `await` lines, and exit with 3 if a line fails",
        required: false,
        default: &[],
        values: (0, 0),
        most: None,
        takes_hyphens: false,
        excludes: &[],
    },
    Argument {
        name: "quiet",
        by_name: true,
        value: "quiet",
        help: "Print no warnings",
        required: false,
        default: &[],
        values: (0, 0),
        most: None,
        takes_hyphens: false,
        excludes: &[],
    },
    Argument {
        name: "json",
        by_name: true,
        value: "json",
        help: "Print each line of output as a JSON object",
        required: false,
        default: &[],
        values: (0, 0),
        most: None,
        takes_hyphens: false,
        excludes: &[],
    },
];

const AUDIT: &[Argument] = &[
    Argument {
        name: "file",
        by_name: false,
        value: "file",
        help: "A recording, or the journals of all nodes; `-` for standard input",
        required: true,
        default: &[],
        values: (1, usize::MAX),
        most: None,
        takes_hyphens: false,
        excludes: &[],
    },
    Argument {
        name: "json",
        by_name: true,
        value: "json",
        help: "Print each line of output as a JSON object",
        required: false,
        default: &[],
        values: (0, 0),
        most: None,
        takes_hyphens: false,
        excludes: &[],
    },
];

const PICTURE: &[Argument] = &[
    Argument {
        name: "file",
        by_name: false,
        value: "file",
        help: "A recording, or the journals of all nodes; `-` for standard input",
        required: true,
        default: &[],
        values: (1, usize::MAX),
        most: None,
        takes_hyphens: false,
        excludes: &[],
    },
    Argument {
        name: "text",
        by_name: true,
        value: "text",
        help: "Draw text, for a terminal of 100 columns",
        required: false,
        default: &[],
        values: (0, 0),
        most: None,
        takes_hyphens: false,
        excludes: &[],
    },
];

const SERVE: &[Argument] = &[
    Argument {
        name: "node",
        by_name: true,
        value: "n",
        help: "Node number, from 0",
        required: true,
        default: &[],
        values: (1, 1),
        most: Some(255),
        takes_hyphens: false,
        excludes: &[],
    },
    Argument {
        name: "nodes",
        by_name: true,
        value: "m",
        help: "Number of nodes in the cluster, at most 32",
        required: true,
        default: &[],
        values: (1, 1),
        most: Some(255),
        takes_hyphens: false,
        excludes: &[],
    },
    Argument {
        name: "port",
        by_name: true,
        value: "p",
        help: "Port on 127.0.0.1; 0 lets the system pick",
        required: false,
        default: &[],
        values: (1, 1),
        most: Some(65535),
        takes_hyphens: false,
        excludes: &[],
    },
    Argument {
        name: "listen",
        by_name: true,
        value: "address:port",
        help: "Address and port to listen on, such as 10.0.0.2:7070 or [fd00::2]:7070",
        required: false,
        default: &[],
        values: (1, 1),
        most: None,
        takes_hyphens: false,
        excludes: &[],
    },
    Argument {
        name: "key-file",
        by_name: true,
        value: "file",
        help: "Shared key; required for non-loopback addresses (32-1024 bytes, mode 0600)",
        required: false,
        default: &[],
        values: (1, 1),
        most: None,
        takes_hyphens: false,
        excludes: &[],
    },
    Argument {
        name: "cap",
        by_name: true,
        value: "c",
        help: "Accept at most c calls over the node's lifetime",
        required: false,
        default: &["1000000"],
        values: (1, 1),
        most: Some(4_294_967_295),
        takes_hyphens: false,
        excludes: &[],
    },
    Argument {
        name: "no-cap",
        by_name: true,
        value: "no-cap",
        help: "Raise the call limit to 2^56 - 1 (overrides --cap)",
        required: false,
        default: &[],
        values: (0, 0),
        most: None,
        takes_hyphens: false,
        excludes: &[],
    },
    Argument {
        name: "requests",
        by_name: true,
        value: "r",
        help: "Exit after serving r requests",
        required: false,
        default: &["1000000"],
        values: (1, 1),
        most: Some(4_294_967_295),
        takes_hyphens: false,
        excludes: &[],
    },
    Argument {
        name: "failpoints",
        by_name: true,
        value: "text",
        help: "Points to set at the start, such as `a=off;b=panic`",
        required: false,
        default: &[],
        values: (1, 1),
        most: None,
        takes_hyphens: false,
        excludes: &[],
    },
    Argument {
        name: "rounds",
        by_name: true,
        value: "k",
        help: "Stop gossiping after k rounds; 0 disables gossip",
        required: false,
        default: &["0"],
        values: (1, 1),
        most: Some(4_294_967_295),
        takes_hyphens: false,
        excludes: &[],
    },
    Argument {
        name: "every",
        by_name: true,
        value: "ms",
        help: "Pause between two rounds, in milliseconds",
        required: false,
        default: &["100"],
        values: (1, 1),
        most: Some(4_294_967_295),
        takes_hyphens: false,
        excludes: &[],
    },
    Argument {
        name: "share",
        by_name: true,
        value: "share",
        help: "Move spare rights to nodes that ran out, before each gossip round",
        required: false,
        default: &[],
        values: (0, 0),
        most: None,
        takes_hyphens: false,
        excludes: &[],
    },
    Argument {
        name: "hear-first",
        by_name: true,
        value: "hear-first",
        help: "Reject changes (503) until a message from every other node has arrived",
        required: false,
        default: &[],
        values: (0, 0),
        most: None,
        takes_hyphens: false,
        excludes: &["failpoints"],
    },
    Argument {
        name: "record",
        by_name: true,
        value: "file",
        help: "Journal accepted calls to this file, and resume from it on restart",
        required: false,
        default: &[],
        values: (1, 1),
        most: None,
        takes_hyphens: false,
        excludes: &[],
    },
    Argument {
        name: "run",
        by_name: true,
        value: "text",
        help: "Run ID stored in the journal; a journal of another run is rejected",
        required: false,
        default: &[],
        values: (1, 1),
        most: None,
        takes_hyphens: false,
        excludes: &[],
    },
    Argument {
        name: "sync",
        by_name: true,
        value: "sync",
        help: "Flush each journal line to disk before responding (survives power loss)",
        required: false,
        default: &[],
        values: (0, 0),
        most: None,
        takes_hyphens: false,
        excludes: &[],
    },
    Argument {
        name: "peer",
        by_name: false,
        value: "node:port",
        help: "Peer: `1:7071` on 127.0.0.1, or `1:10.0.0.2:7071`",
        required: false,
        default: &[],
        values: (0, usize::MAX),
        most: None,
        takes_hyphens: false,
        excludes: &[],
    },
];

const EXPLAIN: &[Argument] = &[Argument {
    name: "text",
    by_name: false,
    value: "text",
    help: "A code such as `N7`, or a text with codes such as `refused N6 NotSet`",
    required: false,
    default: &[],
    values: (0, usize::MAX),
    most: None,
    takes_hyphens: false,
    excludes: &[],
}];

/// A subcommand of the program.
#[derive(Clone, Copy, Drop)]
pub enum Subcommand {
    Parse,
    Sim,
    Threads,
    Audit,
    Picture,
    Serve,
    Explain,
}

/// In the order in which the help has them.
pub const SUBCOMMANDS: [Subcommand; 7] = [
    Subcommand::Parse,
    Subcommand::Sim,
    Subcommand::Threads,
    Subcommand::Audit,
    Subcommand::Picture,
    Subcommand::Serve,
    Subcommand::Explain,
];

impl Subcommand {
    /// The subcommand of this name.
    pub fn named(name: &str) -> Option<Subcommand> {
        SUBCOMMANDS
            .into_iter()
            .find(|subcommand| subcommand.name() == name)
    }

    fn name<'a>(self) -> &'a str {
        match self {
            Subcommand::Parse => "parse",
            Subcommand::Sim => "sim",
            Subcommand::Threads => "threads",
            Subcommand::Audit => "audit",
            Subcommand::Picture => "picture",
            Subcommand::Serve => "serve",
            Subcommand::Explain => "explain",
        }
    }

    fn about<'a>(self) -> &'a str {
        match self {
            Subcommand::Parse => "Print the canonical form of an action string",
            Subcommand::Sim => "Simulate a cluster from a script on standard input",
            Subcommand::Threads => "Simulate concurrent workers from a script, and audit the run",
            Subcommand::Audit => "Audit a recording, or the journals of all nodes",
            Subcommand::Picture => "Draw a recording, or the journals of all nodes, as SVG",
            Subcommand::Serve => "Run a control node that is served over HTTP",
            Subcommand::Explain => "Explain error codes, and how to fix them",
        }
    }

    // What stands behind the options in its help.
    fn after_help<'a>(self, extent: Extent) -> &'a str {
        match self {
            Subcommand::Parse => extent.pick(help::PARSE_SHORT, help::PARSE),
            Subcommand::Sim => extent.pick(help::SIM_SHORT, help::SIM),
            Subcommand::Threads => extent.pick(help::THREADS_SHORT, help::THREADS),
            Subcommand::Audit => extent.pick(help::AUDIT_SHORT, help::AUDIT),
            Subcommand::Picture => extent.pick(help::PICTURE_SHORT, help::PICTURE),
            Subcommand::Serve => extent.pick(help::SERVE_SHORT, help::SERVE),
            Subcommand::Explain => extent.pick(help::EXPLAIN_SHORT, help::EXPLAIN),
        }
    }

    // In the order in which the help has them.
    fn arguments(self) -> &'static [Argument] {
        match self {
            Subcommand::Parse => PARSE,
            Subcommand::Sim => SIM,
            Subcommand::Threads => THREADS,
            Subcommand::Audit => AUDIT,
            Subcommand::Picture => PICTURE,
            Subcommand::Serve => SERVE,
            Subcommand::Explain => EXPLAIN,
        }
    }

    // Of which arguments just one is given.
    fn alternatives(self) -> Option<Alternatives> {
        match self {
            Subcommand::Serve => Some(LISTENING),
            _ => None,
        }
    }

    /// As clap has it, with its arguments.
    pub fn command<'a>(self, alloc: Global, extent: Extent) -> Result<Command<'a>, AllocError> {
        let command = Command::new(alloc, self.name())
            .about(self.about())
            .after_help(self.after_help(extent));
        let command = with_arguments(alloc, command, self.arguments())?;
        match self.alternatives() {
            Some(alternatives) => command.group(alternatives.group(alloc)?),
            None => Ok(command),
        }
    }
}

fn with_arguments<'a>(
    alloc: Global,
    mut command: Command<'a>,
    arguments: &[Argument],
) -> Result<Command<'a>, AllocError> {
    for argument in arguments {
        command = command.arg(argument.arg(alloc)?)?;
    }
    Ok(command)
}
