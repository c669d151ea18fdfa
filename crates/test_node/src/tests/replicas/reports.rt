//! Reports of worked states. Both replicas learn the operations of each state forwards and
//! backwards, and all four give the same report.

use super::*;
use report_text::{report_json, report_lines};

/// Operations of points, the number of nodes, and the lines and the JSON of the report.
type Report = (
    &'static [(&'static str, Step)],
    u8,
    &'static str,
    &'static str,
);

fn expect_report<R: Replica>(
    rt: &impl Abort,
    alloc: Global,
    replica: &R,
    report: &Report,
) -> Result<(), AllocError> {
    let (_, nodes, lines, json) = report;
    let found = report_lines(alloc, replica, *nodes)?;
    expect(rt, &found.as_str(), lines);
    let found = report_json(alloc, replica, *nodes)?;
    expect(rt, &found.as_str(), json);
    Ok(())
}

/// A replica that learned the operations of a report, in their order or from the last to the first.
fn learned<R: Replica>(
    rt: &impl Abort,
    alloc: Global,
    report: &Report,
    is_backwards: bool,
) -> Result<R, AllocError> {
    let steps = report.0;
    let mut replica = R::empty(alloc);
    for index in 0..steps.len() {
        let place = if is_backwards {
            steps.len() - 1 - index
        } else {
            index
        };
        let (text, step) = steps[place];
        learn_on(rt, alloc, &mut replica, text, step)?;
    }
    Ok(replica)
}

fn reports<R: Replica>(rt: &impl Abort, alloc: Global, report: &Report) -> Result<(), AllocError> {
    for is_backwards in [false, true] {
        let replica: R = learned(rt, alloc, report, is_backwards)?;
        expect_report(rt, alloc, &replica, report)?;
    }
    Ok(())
}

fn four_reports(rt: &impl Abort, alloc: Global, report: &Report) -> Result<(), AllocError> {
    reports::<OpSet>(rt, alloc, report)?;
    reports::<Matrix>(rt, alloc, report)
}

const FIVE: Keyed = (1, 0, "5*off");

/// Node 0 moves two rights to node 1, which moves one on to node 2; both pass the point, and node 2
/// once more without a right.
const RIGHTS_BY_WAY_OF_ANOTHER_NODE: Report = (
    &[
        ("p", Step::Set(FIVE)),
        ("p", Step::Shift(FIVE, 0, 0, 1, 2)),
        ("p", Step::Shift(FIVE, 0, 1, 2, 1)),
        ("p", Step::Hit(1, 1)),
        ("p", Step::Exec(FIVE, 0, 1, 1)),
        ("p", Step::Hit(2, 1)),
        ("p", Step::Exec(FIVE, 0, 2, 1)),
        ("p", Step::Hit(2, 2)),
    ],
    3,
    "point p 1.0 5*off\nhits 0=0 1=1 2=2 total=3\n\
     term 0 count=5 spent=2 rights 0=3 1=0 2=0\n",
    "[{\"actions\":\"5*off\",\"hits\":[\"0\",\"1\",\"2\"],\"name\":\"p\",\
     \"stamp\":\"1.0\",\"terms\":[{\"count\":\"5\",\"rights\":[\"3\",\"0\",\"0\"],\
     \"spent\":\"2\",\"term\":\"0\"}]}]",
);

const TWO: Keyed = (1, 0, "2*off");

/// A right was moved to node 1, which spent it.
const MOVED_RIGHT: Report = (
    &[
        ("a", Step::Set(TWO)),
        ("a", Step::Shift(TWO, 0, 0, 1, 1)),
        ("a", Step::Hit(1, 3)),
        ("a", Step::Exec(TWO, 0, 1, 1)),
    ],
    2,
    "point a 1.0 2*off\nhits 0=0 1=3 total=3\n\
     term 0 count=2 spent=1 rights 0=1 1=0\n",
    "[{\"actions\":\"2*off\",\"hits\":[\"0\",\"3\"],\"name\":\"a\",\"stamp\":\"1.0\",\
     \"terms\":[{\"count\":\"2\",\"rights\":[\"1\",\"0\"],\"spent\":\"1\",\"term\":\"0\"}]}]",
);

/// Node 1 granted itself three rights and spent one.
const GRANTED: Report = (
    &[
        ("a", Step::Set(TWO)),
        ("a", Step::Hit(1, 2)),
        ("a", Step::Grant(TWO, 0, 1, 3)),
        ("a", Step::Exec(TWO, 0, 1, 1)),
    ],
    2,
    "point a 1.0 2*off\nhits 0=0 1=2 total=2\n\
     term 0 count=2 granted=3 spent=1 rights 0=2 1=2\n",
    "[{\"actions\":\"2*off\",\"hits\":[\"0\",\"2\"],\"name\":\"a\",\"stamp\":\"1.0\",\
     \"terms\":[{\"count\":\"2\",\"granted\":\"3\",\"rights\":[\"2\",\"2\"],\"spent\":\"1\",\
     \"term\":\"0\"}]}]",
);

const FOUR_TERMS: Keyed = (1, 0, "50%print(\"x\")->2*off->panic->3*off");

/// Points stand in byte order, a removed one among them. A name with hits and no key isn't listed.
const POINTS_IN_ORDER: Report = (
    &[
        ("c", Step::Hit(0, 7)),
        ("b", Step::Set(FOUR_TERMS)),
        ("b", Step::Exec(FOUR_TERMS, 3, 1, 1)),
        ("a", Step::Set(TWO)),
        ("a", Step::Hit(0, 1)),
        ("a", Step::Remove(2, 1)),
    ],
    2,
    "point a 2.1 removed\nhits 0=1 1=0 total=1\n\
     point b 1.0 50%print(\"x\")->2*off->panic->3*off\nhits 0=0 1=0 total=0\n\
     term 1 count=2 spent=0 rights 0=2 1=0\nterm 3 count=3 spent=1 rights 0=3 1=-1\n",
    "[{\"actions\":null,\"hits\":[\"1\",\"0\"],\"name\":\"a\",\"stamp\":\"2.1\",\
     \"terms\":[]},{\"actions\":\"50%print(\\\"x\\\")->2*off->panic->3*off\",\
     \"hits\":[\"0\",\"0\"],\"name\":\"b\",\"stamp\":\"1.0\",\"terms\":[\
     {\"count\":\"2\",\"rights\":[\"2\",\"0\"],\"spent\":\"0\",\"term\":\"1\"},\
     {\"count\":\"3\",\"rights\":[\"3\",\"-1\"],\"spent\":\"1\",\"term\":\"3\"}]}]",
);

const GREATEST: Keyed = (1, 0, "18446744073709551615*off");

/// Hits and rights above 64 bits.
const GREAT_NUMBERS: Report = (
    &[
        ("a", Step::Set(GREATEST)),
        ("a", Step::Grant(GREATEST, 0, 0, u64::MAX)),
        ("a", Step::Hit(0, u64::MAX)),
        ("a", Step::Hit(1, 1)),
    ],
    1,
    "point a 1.0 18446744073709551615*off\n\
     hits 0=18446744073709551615 total=18446744073709551616\n\
     term 0 count=18446744073709551615 granted=18446744073709551615 spent=0 \
     rights 0=36893488147419103230\n",
    "[{\"actions\":\"18446744073709551615*off\",\
     \"hits\":[\"18446744073709551615\"],\"name\":\"a\",\"stamp\":\"1.0\",\
     \"terms\":[{\"count\":\"18446744073709551615\",\"granted\":\"18446744073709551615\",\
     \"rights\":[\"36893488147419103230\"],\"spent\":\"0\",\"term\":\"0\"}]}]",
);

const NO_POINTS: Report = (&[], 2, "", "[]");

const REPORTS: &[Report] = &[
    RIGHTS_BY_WAY_OF_ANOTHER_NODE,
    MOVED_RIGHT,
    GRANTED,
    POINTS_IN_ORDER,
    GREAT_NUMBERS,
    NO_POINTS,
];

#[test]
fn four_equal_reports(rt: HostRuntime) -> Result<(), Fail> {
    for report in REPORTS {
        four_reports(&rt, rt.alloc(), report)?;
    }
    Ok(())
}
