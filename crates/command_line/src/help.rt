//! The longer texts of `--help`.

ghost use Rattle.std.specs.Prelude.{◌≡◌};
ghost use Rattle.command_line.specs.Help.{picked};

/// How much of the help of a subcommand stands behind its options.
#[derive(Clone, Copy, Drop)]
pub enum Extent {
    /// Where the whole of it is found.
    Short,
    /// All of it.
    Whole,
}

impl Extent {
    /// Of two texts the one of this extent.
    pub fn pick<'a>(self, short: &'a str, whole: &'a str) -> &'a str
        ensures { result.now ≡ picked self short.now whole.now }
    {
        match self {
            Extent::Short => short,
            Extent::Whole => whole,
        }
    }
}

/// How much help the words of a command line ask for, of which the first is the program's name: `-h`
/// asks for the short one. Of `-h` and `--help` the first counts, and none of those behind `--`.
pub fn extent_of(words: &[String]) -> Extent {
    for word in words.iter().skip(1) {
        match word.as_str() {
            "-h" => return Extent::Short,
            "--help" | "--" => return Extent::Whole,
            _ => {}
        }
    }
    Extent::Whole
}

/// Behind the help of the program.
pub const EXAMPLE: &str = "\
Example:
  $ printf 'nodes 1 9\\nset 0 a 2*off\\npass 0 a\\n' | failreg sim
  set 1.0
  act 1.0 0 off";

/// Behind the short help of `parse`.
pub const PARSE_SHORT: &str = "`failreg parse --help` has the syntax of action strings.";

/// Behind the help of `parse`.
pub const PARSE: &str = "\
An action string is one or more terms joined by `->`, each of the form
[<chance>%][<count>*]<action>[(<argument>)]. The actions are off, return, sleep,
panic, print, pause, yield and delay (docs/reference/action-syntax.md). Exit
status: 0 the string is valid; 1 it isn't, and standard error says why. After
`--` any text is taken, also -h.

Example:
  $ failreg parse '020.50%3*print(hi) -> panic'
  20.5%3*print(hi)->panic";

/// Behind the short help of `sim`.
pub const SIM_SHORT: &str = "`failreg sim --help` has each line of a script, and what it prints.";

/// Behind the help of `sim`.
pub const SIM: &str = "\
Each line of the script, and what it prints if it is accepted:
  nodes <n> <cap>                     nothing: makes nodes 0 to n-1, each with a
                                      limit of cap calls
  set <node> <name> <actions>         set <stamp>
  remove <node> <name>                removed <stamp>
  load <node> <entries>               loaded <n>: sets all points of n entries
                                      `<name>=<actions>`, joined by `;`, or
                                      none
  pass <node> <name>[ <draw>]...      unset, none <stamp>, or
                                      act <stamp> <term> <action>
  shift <node> <name> <term> <to> <amount>
                                      shifted <total>: transfers rights to node
                                      <to>; total is what <node> has transferred
                                      there under the point's stamp
  grant <node> <name> <term> <amount>
                                      granted <total>: adds rights beyond the
                                      count to <node>; total is what <node> has
                                      granted itself under the point's stamp
  emit <node> <to>                    message <number>: makes a message with
                                      what node <to> isn't known to have;
                                      numbers count from 0 over the script
  deliver <node> <message>            changed, or same if <node> learned
                                      nothing
  list <node>                         the points that are set
  report <node>                       what <node> knows: for each point a line
                                      with its stamp and actions, one with its
                                      hits, and one for each counted term with
                                      its count, grants, executions and the
                                      rights of each node
  rights <node> <name> <term> <of>    the rights of node <of>, as <node> knows
                                      them
  spent <node> <name> <term>          executions of the term, as <node> knows
                                      them
  hits <node> <name>                  evaluations of the point, as <node> knows
                                      them
A `pass` takes one random draw, a number below 2^32, for each term whose chance
is below 100%. Amounts are below 2^64. A stamp is <clock>.<node>. Nodes know of
each other only what messages carried; a message may be delivered late, again or
never. Fields are separated by exactly one space. Empty lines and lines that
start with `#` are skipped.

A line that can't be read prints `bad line`; so do a call before `nodes` and a
second `nodes`. A byte order mark or a `\\r` belongs to its field and makes the
line bad. A rejected call prints `refused` and a code, for example `refused N8
NotCounted` (docs/reference/errors.md). If the node or the message doesn't
exist, the line prints `refused NoNode` or `refused NoMessage`. The script
continues.

Exit status: 0 the script was run, also if lines were rejected; 1 it can't be
read, has more than 16777216 bytes, or can't be answered.

--echo repeats each line after `> ` before its output. --json prints each output
line, and each warning, as a JSON object (docs/reference/json-output.md) such as
`{\"answer\":\"set\",\"stamp\":\"1.0\"}`, and excludes --echo.

Standard error explains each bad line (at most 20) and counts evaluations of
points that aren't set. --quiet turns that off.

With --check a line
  expect <text>                       prints nothing: the output before it must
                                      be exactly this; a report needs one line
                                      each; `expect refused N6` accepts any text
                                      after it
may follow any other. The exit status is 3 if a line fails, and standard error
says which: another output than expected; a bad line; a rejection, an `unset` or
a part of an output that no line expects; a question about a point, a counted
term or a node that doesn't exist. All lines run.

Example:
  $ printf 'nodes 1 9\\nset 0 a 1*panic->off\\npass 0 a\\npass 0 a\\nhits 0 a\\n' | failreg sim
  set 1.0
  act 1.0 0 panic
  act 1.0 1 off
  2";

/// Behind the short help of `threads`.
pub const THREADS_SHORT: &str =
    "`failreg threads --help` has each line of a script, and its output.";

/// Behind the help of `threads`.
pub const THREADS: &str = "\
The script is read completely before anything runs. Its lines, in this order:
  nodes <n> <cap>                     makes nodes 0 to n-1, at most 32, each
                                      with a limit of cap calls
  seed <digits>                       64 hex digits: the seed of the random
                                      draws
  start <line>                        a call before the workers start, in the
                                      order of these lines; <line> is
                                      set <node> <name> <actions>,
                                      remove <node> <name>,
                                      load <node> <entries>,
                                      shift <node> <name> <term> <to> <amount>
                                      or grant <node> <name> <term> <amount>,
                                      as in `failreg sim`; or
                                      spread <node> <name>: the node gives each
                                      other node an equal part of its rights to
                                      each counted term
  gossip <rounds>                     at most once: while the workers run, each
                                      node does this many rounds, in which it
                                      sends every other node what it knows and
                                      processes what arrived
  worker <node>                       the lines up to the next `worker` are the
                                      calls of one worker of the node, made in
                                      their order in a thread of its own:
    set <name> <actions>              sets a point
    remove <name>                     removes it
    load <entries>                    sets the points of its entries
    shift <name> <term> <to> <amount> transfers rights to node <to>
    grant <name> <term> <amount>      adds rights beyond the count
    pass <name> <times>               evaluates the point <times> times, at most
                                      65535
There may be any number of `start` lines, and up to 250 workers a node. All
workers run at the same time; those of one node take turns. Without `gossip`
nodes learn nothing from each other. Fields are separated by exactly one space.
Empty lines and lines that start with `#` are skipped.

Output: `workers` and their number; `calls` and the number of accepted calls,
including those of `start` lines and gossip; `audit yes` if some order of all
calls explains every response, else `audit no` and why. After `audit yes`, one
`budget` line for each counted term has its executions on all nodes, which are
never more than its count plus grants. A rejected call changes nothing and isn't
counted. A thread that can't start makes no calls.

Standard error says what went wrong, at most 20 lines of a kind: for each line
whose call a node rejects in every state, why; for each node and each worker how
many calls weren't accepted; how many calls of workers were rejected with each
code; how many evaluations met a point that isn't set; and that the audit says
no. Transfers of a spread aren't checked. --quiet turns that off.

Exit status: 0 the script was run, also if calls were rejected or the audit says
no; 1 it can't be read, has more than 16777216 bytes, can't be answered, memory
ran out, or a line is bad (`P5 BadLine line=6`, with the first bad line, counted
from 1): then nothing runs, and standard error says what was expected.

With --check a script may also have: `expect <text>` after a `start` line, whose
output must be exactly this, or after the first worker, for any output line;
`await <name>[ <stamp>]` in a worker, which waits until its node knows the
configuration, and fails if its gossip ends first; `gossip <rounds> first`, for
rounds before the workers; and instead of `gossip <rounds>` the line `gossip
<rounds> share`: rounds start by moving spare rights to nodes that ran out. All
rounds run in step. The exit status is 3 if a line fails, a `start` line or a
worker's call is rejected unexpectedly, a point isn't set, a line is bad, or the
audit says no; standard error says which. All of the script runs, unless a line
is bad.

With --json each output line, and each warning, is a JSON object such as
`{\"answer\":\"workers\",\"number\":\"1\"}` (docs/reference/json-output.md).

Example:
  $ printf 'nodes 1 9\\nseed %064d\\nstart set 0 a 2*off\\nworker 0\\npass a 4\\n' 0 | failreg threads
  workers 1
  calls 5
  audit yes
  budget a 1.0 0 count=2 executed=2";

/// Behind the short help of `audit`.
pub const AUDIT_SHORT: &str = "`failreg audit --help` says what is printed, and has an example.";

/// Behind the help of `audit`.
pub const AUDIT: &str = "\
Pass a recording (of `failreg threads --record` or of a Rust program), or the
journals of all nodes of a run, in any order, also those of nodes that did
nothing. Output: `audit yes` if some order of all calls explains every response,
and one `budget` line for each counted term; else `audit no` and why. The
verdict is recomputed from the entries. The format is described in
docs/reference/recording-format.md, and what `audit yes` doesn't show in
docs/explanation/what-an-audit-shows.md.

For journals, a line `cut node=1` says that the last line of that node's journal
wasn't written completely; it isn't audited.

Exit status: 0 yes; 1 no, a file can't be read (`P2 ReadFailed`), a line is
wrong or out of place (`P5 BadLine line=6`), journals are of several runs
(`P6`), a node has two or none (`P7`, `P8`), or memory ran out; standard error
says which.

With --json each output line is a JSON object such as
`{\"answer\":\"audit\",\"verdict\":\"yes\"}` (docs/reference/json-output.md).

Example:
  $ printf 'nodes 1 9\\nseed %064d\\nstart set 0 a 2*off\\n' 0 | failreg threads --record /tmp/drill
  workers 0
  calls 1
  audit yes
  budget a 1.0 0 count=2 executed=0
  $ failreg audit /tmp/drill
  audit yes
  budget a 1.0 0 count=2 executed=0";

/// Behind the short help of `picture`.
pub const PICTURE_SHORT: &str = "`failreg picture --help` says what is drawn, and has an example.";

/// Behind the help of `picture`.
pub const PICTURE: &str = "\
Pass a recording or the journals of all nodes, as to `failreg audit`. The output
is an SVG without scripts: a lane for each node, its calls from left to right in
columns, and each message as an arrow from the call that sent it to the call
that received it. A call is drawn as far left as the calls that it depends on
allow, so no arrow points left. Hover over a call to see its request. With more
than 270 columns several are drawn as one, with bars for their calls. The
heading has the verdict of `failreg audit`; a call that waits for a message that
was never sent is marked, and so is the first response that doesn't replay.
Below, charts show the first six counted terms: rights spent, held by each node,
and in transit (docs/explanation/what-an-audit-shows.md).

With --text the output is text, one line for each column, without charts.

Exit status: 0 the picture was written, whatever it shows; 1 a file can't be
read or is no recording, as for `failreg audit`.

Example:
  $ printf 'nodes 1 9\\nseed %064d\\nstart set 0 a 2*off\\n' 0 | failreg threads --record /tmp/drill
  workers 0
  calls 1
  audit yes
  budget a 1.0 0 count=2 executed=0
  $ failreg picture /tmp/drill > /tmp/drill.svg";

/// Behind the short help of `serve`.
pub const SERVE_SHORT: &str =
    "`failreg serve --help` has requests to try, and explains gossip and journals.";

/// Behind the help of `serve`.
pub const SERVE: &str = "\
The node listens on 127.0.0.1, or at the address of --listen. It prints
`listening <port>` when clients can connect, and `served <r>` after r clients,
each with one request. It evaluates no failpoints: set points here, and move
their rights to the nodes of your programs.

THREE DEFAULTS END A LONG RUN: --requests, --cap and --rounds. For a run without
end give --no-cap --requests 4294967295 --rounds 4294967295.

With --key-file clients and peers need the key: other requests are answered 401.
Without it, only loopback addresses are accepted. The key file has 32 to 1024
bytes and mode 0600 or 0400:
  (umask 077; head -c 32 /dev/urandom >drill.key)
Clients send it in lower-case hex. Read the header from a file, because command
lines are visible to others:
  (umask 077; echo \"Authorization: Bearer $(od -An -v -tx1 drill.key |
    tr -d ' \\n')\" >drill.header)
  curl -H @drill.header http://10.0.0.1:7070/report
Nothing is encrypted. Addresses are IP addresses, such as 10.0.0.2:7070,
[fd00::2]:7070 or [fe80::2%3]:7070 with a scope number; host names aren't
resolved.

Requests to try first, where <port> is the one that it prints:
  curl -X PUT --data '2*panic->off' localhost:<port>/fail/a
                                      sets a point, and prints its stamp
  curl -X PUT --data '6*panic->off' localhost:<port>/spread/a
                                      sets it, and gives each node an equal part
                                      of its rights
  curl localhost:<port>/fail          the points that are set
  curl localhost:<port>/report        what the node knows, as JSON
  curl localhost:<port>/status        the node, its calls, each node's rights,
                                      and its peers
  curl -X POST localhost:<port>/grant/a/0/3
                                      adds 3 rights to the point's first term
  curl -X POST localhost:<port>/shift/a/0/1/2
                                      transfers 2 rights to node 1
  curl -X DELETE localhost:<port>/fail/a
                                      removes the point
  curl --data 'a=off;b=2*print(hi)->off' localhost:<port>/load
                                      sets the points of all entries, or none
  curl --data-binary @message localhost:<port>/gossip
                                      delivers a message of another node, and
                                      prints `changed` or `same`
  curl -X POST localhost:<port>/stop  ends the service
Responses: 200 accepted; 404 no such path; 405 another method; 413 a body of
more than 67108864 bytes; 400 a wrong request; 409 it doesn't fit what the node
holds; 503 not now; the body says why, for example `N6 NotSet`. Bodies have no
final newline: use curl -w '\\n'.

A client has 2 seconds for the head of its request and 10 seconds in total; 64
are served at once, 4 of them with a body of more than 65536 bytes.

With --rounds and peers, a background thread gossips: each round sends every
peer the changes it lacks, and skips unreachable peers with back-off (2 to 64
rounds). Each message counts against --cap. Gossip stops after --rounds rounds,
and peers without --rounds are sent nothing. If the thread can't start, the node
is served without gossip.

With --share each round starts by moving spare rights to nodes that reached a
point since the round before and have no right to its term; a node that reached
it in its last ten rounds keeps one. Give it to every node.

With --hear-first changes are answered 503 until every other node has sent a
message, so a node that restarted without its journal learns that others know
more about it before it does anything. Every other node must run, with --rounds
and this node as a peer.

With --record each accepted call is a line of the journal before its result is
visible to anybody, and a restarted node resumes from it; --failpoints is then
ignored. If a line can't be written, that call and all later ones are answered
503.

Exit status: 0 served all requests, or POST /stop; 1 can't start (code and
reason on standard error: N21 configuration, V1 to V3 network or memory, V4 to
V6 journal, V7 key, wrong --failpoints); 2 usage; 4 the node lost its state:
peers know more about it than it does (N18, N19).

Example:
  $ failreg serve --node 0 --nodes 2 --port 17070 --requests 0
  listening 17070
  served 0";

/// Behind the short help of `explain`.
pub const EXPLAIN_SHORT: &str =
    "`failreg explain --help` has an example; `failreg explain` lists all codes.";

/// Behind the help of `explain`.
pub const EXPLAIN: &str = "\
Explains each word of the text that is a code: its cause and the fix. A whole
error may be passed, quoted or not. Without a text all codes are listed, one per
line. docs/reference/errors.md has the same in tables, and the order of checks.

Exit status: 0 explained; 1 the output can't be written; 2 no word of the text
is a code.

Example:
  $ failreg explain refused N6 NotSet
  N6 NotSet
    Node error
    Affects: `shift`, `grant`
    Cause: the point isn't set at this node
    Fix: set it here, or wait for a message from a node that knows it";
