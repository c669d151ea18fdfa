//! Nodes: what each of their calls answers, and what they show after it.

use super::fleet::{Row, Show, Step, expect_stories};
use super::*;

const FIRST: Stamp = Stamp { clock: 1, node: 0 };

const PRINTED: &str =
    "Act { term: 0, stamp: Stamp { clock: 1, node: 0 }, task: Print(Some(\"still alive!\")) }";

/// A count of three, and all that a node shows of it.
const COUNT_OF_THREE: &[Row] = &[
    (0, Step::Show(Show::WordsNeeded("p")), "0"),
    (0, Step::Show(Show::PauseOver("p", FIRST)), "true"),
    (0, Step::Set("p", "20%3*print(still alive!)->panic"), "1.0"),
    (0, Step::Show(Show::WordsNeeded("p")), "1"),
    (0, Step::Show(Show::Rights("p", 0, 0)), "3"),
    (0, Step::Pass("p", &[0]), PRINTED),
    (0, Step::Pass("p", &[0]), PRINTED),
    (0, Step::Pass("p", &[0]), PRINTED),
    (
        0,
        Step::Pass("p", &[0]),
        "Act { term: 1, stamp: Stamp { clock: 1, node: 0 }, task: Panic(None) }",
    ),
    (0, Step::Pass("p", &[]), "BadWords { need: 1 }"),
    (0, Step::Pass("q", &[]), "Unset"),
    (0, Step::Show(Show::Rights("p", 0, 0)), "0"),
    (0, Step::Show(Show::Spent("p", 0)), "3"),
    (0, Step::Show(Show::Hits("p")), "4"),
    (0, Step::Show(Show::PauseOver("p", FIRST)), "false"),
    (0, Step::Show(Show::Calls), "6"),
    (0, Step::Show(Show::Names), "1"),
    (
        0,
        Step::Show(Show::List),
        "p=20%3*print(still alive!)->panic",
    ),
    (
        0,
        Step::Show(Show::Config),
        "Config { node: 0, nodes: 1, trace_cap: 100 }",
    ),
    (0, Step::Set("p", "pause"), "2.0"),
    (0, Step::Show(Show::PauseOver("p", FIRST)), "true"),
];

/// Each other call.
const OTHER_CALLS: &[Row] = &[
    (0, Step::Load(";a=off; ;b=2*return()"), "2"),
    (0, Step::Load(""), "0"),
    (0, Step::Shift("b", 0, 1, 1), "1"),
    (0, Step::Shift("b", 0, 1, 1), "2"),
    (0, Step::Shift("b", 0, 1, 1), "N11 TooFewRights have=0"),
    (0, Step::Grant("b", 0, 3), "3"),
    (0, Step::Grant("b", 0, 4), "7"),
    (0, Step::Show(Show::Rights("b", 0, 0)), "7"),
    (0, Step::Show(Show::Rights("b", 0, 1)), "2"),
    (0, Step::Remove("a"), "3.0"),
    (0, Step::Show(Show::List), "b=2*return()"),
    (0, Step::Show(Show::Names), "2"),
    (0, Step::Show(Show::Calls), "7"),
];

/// The second message to a node tells what the first didn't.
const DIFFERENCE: &[Row] = &[
    (0, Step::Set("a", "off"), "1.0"),
    (0, Step::Show(Show::Version), "1"),
    (0, Step::Emit(1), "54 bytes base=0 upto=1 ack=0"),
    (1, Step::Deliver(0), "true"),
    (1, Step::Show(Show::Known(0)), "1"),
    (1, Step::Show(Show::Version), "1"),
    (1, Step::Emit(0), "54 bytes base=0 upto=1 ack=1"),
    (0, Step::Deliver(1), "false"),
    (0, Step::Show(Show::Known(1)), "1"),
    (0, Step::Show(Show::Acked(1)), "1"),
    (0, Step::Set("b", "off"), "2.0"),
    (0, Step::Emit(1), "54 bytes base=1 upto=2 ack=1"),
    (
        0,
        Step::HasBytes(
            2,
            b"FPG1\x00\x01\
              \x00\x00\x00\x00\x00\x00\x00\x01\
              \x00\x00\x00\x00\x00\x00\x00\x02\
              \x00\x00\x00\x00\x00\x00\x00\x01\
              \x00\x01\x01b\
              \x00\x00\x00\x00\x00\x00\x00\x02\x00\
              \x01\x00\x03off\x00\x00\x00\x00\x00",
        ),
        "true",
    ),
    (1, Step::Deliver(2), "true"),
    (1, Step::Show(Show::List), "a=off;b=off"),
];

/// The empty message of node 0 to node 1, which tells from one version up to another.
const FROM_2_TO_3: &[u8] = b"FPG1\x00\x01\
    \x00\x00\x00\x00\x00\x00\x00\x02\
    \x00\x00\x00\x00\x00\x00\x00\x03\
    \x00\x00\x00\x00\x00\x00\x00\x00\x00\x00";

const FROM_0_TO_3: &[u8] = b"FPG1\x00\x01\
    \x00\x00\x00\x00\x00\x00\x00\x00\
    \x00\x00\x00\x00\x00\x00\x00\x03\
    \x00\x00\x00\x00\x00\x00\x00\x00\x00\x00";

/// A version is known once all up to it came.
const GAPS: &[Row] = &[
    (1, Step::Bytes(FROM_2_TO_3), "false"),
    (1, Step::Show(Show::Known(0)), "0"),
    (1, Step::Bytes(FROM_0_TO_3), "false"),
    (1, Step::Show(Show::Known(0)), "3"),
    (1, Step::Bytes(FROM_2_TO_3), "false"),
    (1, Step::Show(Show::Known(0)), "3"),
];

/// A grant stands in a message of the second format.
const ONE_GRANT: &[Row] = &[
    (0, Step::Set("a", "2*off"), "1.0"),
    (0, Step::Grant("a", 0, 3), "3"),
    (0, Step::Emit(1), "68 bytes base=0 upto=2 ack=0"),
    (
        0,
        Step::HasBytes(
            0,
            b"FPG2\x00\x01\
              \x00\x00\x00\x00\x00\x00\x00\x00\
              \x00\x00\x00\x00\x00\x00\x00\x02\
              \x00\x00\x00\x00\x00\x00\x00\x00\
              \x00\x01\x01a\
              \x00\x00\x00\x00\x00\x00\x00\x01\x00\
              \x01\x00\x052*off\
              \x00\x00\x00\x00\x00\x00\x01\x00\x00\
              \x00\x00\x00\x00\x00\x00\x00\x03",
        ),
        "true",
    ),
    (1, Step::Deliver(0), "true"),
    (1, Step::Show(Show::Rights("a", 0, 0)), "5"),
];

/// A node that starts again without its calls is told that others know more of it.
const FORGOTTEN_CALLS: &[Row] = &[
    (0, Step::Set("a", "2*off"), "1.0"),
    (
        0,
        Step::Pass("a", &[]),
        "Act { term: 0, stamp: Stamp { clock: 1, node: 0 }, task: Off }",
    ),
    (
        0,
        Step::Pass("a", &[]),
        "Act { term: 0, stamp: Stamp { clock: 1, node: 0 }, task: Off }",
    ),
    (0, Step::Emit(1), "75 bytes base=0 upto=3 ack=0"),
    (1, Step::Deliver(0), "true"),
    (0, Step::Forget, ""),
    (1, Step::Emit(0), "75 bytes base=0 upto=1 ack=3"),
    (0, Step::Deliver(1), "N18 OwnAhead"),
    (0, Step::Show(Show::List), ""),
];

/// The same where only a version is known of it.
const FORGOTTEN_VERSION: &[Row] = &[
    (1, Step::Set("a", "off"), "1.1"),
    (1, Step::Emit(0), "54 bytes base=0 upto=1 ack=0"),
    (0, Step::Deliver(0), "true"),
    (0, Step::Emit(1), "54 bytes base=0 upto=1 ack=1"),
    (1, Step::Deliver(1), "false"),
    (0, Step::Forget, ""),
    (1, Step::Emit(0), "32 bytes base=1 upto=1 ack=1"),
    (0, Step::Deliver(2), "N19 AckAhead"),
    (0, Step::Show(Show::List), ""),
];

/// The message of node 0, which set `z` to `off`, with a pass of node 1 put in.
const Z_PASSED: &[u8] = b"FPG1\x00\x01\
    \x00\x00\x00\x00\x00\x00\x00\x00\
    \x00\x00\x00\x00\x00\x00\x00\x01\
    \x00\x00\x00\x00\x00\x00\x00\x00\
    \x00\x01\x01z\
    \x00\x00\x00\x00\x00\x00\x00\x01\x00\
    \x01\x00\x03off\
    \x01\x01\x00\x00\x00\x00\x00\x00\x00\x01\
    \x00\x00\x00\x00";

/// A node that holds as many names as it may takes in no other. What else refuses a message comes
/// first.
const FULL: &[Row] = &[
    (1, Step::Fill, "256"),
    (0, Step::Set("z", "off"), "1.0"),
    (0, Step::Emit(1), "54 bytes base=0 upto=1 ack=0"),
    (1, Step::Deliver(0), "N4 TooManyPoints"),
    (1, Step::Bytes(Z_PASSED), "N18 OwnAhead"),
    (1, Step::Show(Show::Names), "256"),
];

/// So many nodes, and what is done at them.
const STORIES: &[(u8, &[Row])] = &[
    (1, COUNT_OF_THREE),
    (2, OTHER_CALLS),
    (2, DIFFERENCE),
    (2, GAPS),
    (2, ONE_GRANT),
    (2, FORGOTTEN_CALLS),
    (2, FORGOTTEN_VERSION),
    (2, FULL),
];

#[test]
fn nodes_answer_their_calls(rt: HostRuntime) -> Result<(), Fail> {
    expect_stories(&rt, rt.alloc(), STORIES)
}
