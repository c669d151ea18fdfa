//! What a path can name.

/// Which route a path has.
#[derive(Clone, Copy, Debug, PartialEq, Eq)]
pub enum RouteId {
    /// The operator's page.
    Page,
    /// All points.
    Points,
    /// One point.
    Point,
    /// Points that a setting text names.
    Load,
    /// The rights of a point, to be spread.
    Spread,
    /// Rights that go to another node.
    Shift,
    /// Rights that a node grants itself.
    Grant,
    /// Messages of other nodes.
    Gossip,
    /// Another node that asks to be told.
    Hello,
    /// The report.
    Report,
    /// What a program tells of its node.
    Status,
    /// The end of the service.
    Stop,
}

/// Where a path leads, with the parts that its route leaves open, as they stand.
#[derive(Clone, Copy, Debug, PartialEq, Eq)]
pub enum Target<'p> {
    /// The operator's page.
    Page,
    /// All points.
    Points,
    /// One point.
    Point {
        name: &'p str,
    },
    /// Points that a setting text names.
    Load,
    /// The rights of a point, to be spread.
    Spread {
        name: &'p str,
    },
    /// Rights that go to another node.
    Shift {
        name: &'p str,
        term: &'p str,
        to: &'p str,
        amount: &'p str,
    },
    /// Rights that a node grants itself.
    Grant {
        name: &'p str,
        term: &'p str,
        amount: &'p str,
    },
    /// Messages of other nodes.
    Gossip,
    /// Another node that asks to be told.
    Hello,
    /// The report.
    Report,
    /// What a program tells of its node.
    Status,
    /// The end of the service.
    Stop,
}
