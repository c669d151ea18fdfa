//! The table of requests: what is to be known of each route.

ghost use Rattle.std.specs.Prelude.{◌≡◌};
ghost use Rattle.http_routes.specs.Table.{has_method, includes, methods_text, rank_of, row_of, text_row};
ghost use Rattle.http_routes.specs.Table.{waits};
ghost use Rattle.http_routes.specs.Targets.{target_value};

use crate::targets::Target;

/// The longest action string, in bytes.
const LONGEST_ACTIONS: u32 = 1024;

/// The longest `FAILPOINTS` string, in bytes.
const LONGEST_SETTINGS: u32 = 65_536;

/// The path to which a node posts its messages to another.
pub const GOSSIP_PATH: &str = "/gossip";

/// The path to which a node posts its number, if it asks another to send to it.
pub const HELLO_PATH: &str = "/hello";

/// Which routes a program offers. Each set has the routes of the sets before it.
#[derive(Clone, Copy, Debug, PartialEq, Eq)]
pub enum RouteSet {
    /// What a node answers.
    Node,
    /// What the library answers for a program that serves a node.
    Library,
    /// What a served node answers that knows the other nodes of its cluster.
    Cluster,
    /// What a program answers that serves its node, and that an operator sees in a browser.
    Served,
    /// What a program answers that an operator ends too.
    Program,
}

/// The methods of a route.
#[derive(Clone, Copy, Debug, PartialEq, Eq)]
pub enum Methods {
    Get,
    Post,
    PutOrDelete,
    PutOrPost,
}

/// What a request is, as far as that changes what is done with it.
#[derive(Clone, Copy, Debug, PartialEq, Eq)]
pub enum Kind {
    /// It reads the node.
    Read,
    /// It reads the status, which tells what was heard of the other nodes too.
    Status,
    /// It calls the node.
    Call,
    /// It delivers a message of another node.
    Delivery,
    /// Another node asks to be told.
    Hello,
    /// It reads the operator's page, of which nothing is the node's.
    Page,
    /// It ends the service.
    Stop,
}

/// What the body of a reply is.
#[derive(Clone, Copy, Debug, PartialEq, Eq)]
pub enum Content {
    Text,
    Json,
    /// The operator's page.
    Page,
}

/// Whether a body has a tag (`ETag`), by which a client asks later only for a changed body.
#[derive(Clone, Copy, Debug, PartialEq, Eq)]
pub enum Tagging {
    Untagged,
    Tagged,
}

/// What is kept of a request's body, of which the rest is counted and dropped.
#[derive(Clone, Copy, Debug, PartialEq, Eq)]
pub enum Keeps {
    /// Nothing: the body isn't looked at.
    Nothing,
    /// Of a text one byte more than this, which the longest one has: a longer one is rejected, whatever
    /// it says.
    Text(u32),
    /// All of it.
    Whole,
}

/// A row of the table.
#[derive(Clone, Copy, Debug, PartialEq, Eq)]
pub struct Row {
    /// The first set that has the route.
    pub set: RouteSet,
    pub methods: Methods,
    pub kind: Kind,
    /// What the body of a reply of 200 is.
    pub content: Content,
    /// Whether that body has a tag.
    pub tagging: Tagging,
    /// What is kept of the body of a request.
    pub keeps: Keeps,
}

// A route whose replies are texts without a tag, and whose requests need no body.
fn text_row(set: RouteSet, methods: Methods, kind: Kind) -> Row
    ensures { result ≡ text_row set methods kind }
{
    Row {
        set,
        methods,
        kind,
        content: Content::Text,
        tagging: Tagging::Untagged,
        keeps: Keeps::Nothing,
    }
}

impl Target<'_> {
    /// The table.
    pub fn row(&self) -> Row
        ensures { result ≡ row_of (target_value self.now) }
    {
        match self {
            Target::Page => Row {
                content: Content::Page,
                ..text_row(RouteSet::Served, Methods::Get, Kind::Page)
            },
            Target::Points => text_row(RouteSet::Node, Methods::Get, Kind::Read),
            Target::Point { .. } => Row {
                keeps: Keeps::Text(LONGEST_ACTIONS),
                ..text_row(RouteSet::Node, Methods::PutOrDelete, Kind::Call)
            },
            Target::Load => Row {
                keeps: Keeps::Text(LONGEST_SETTINGS),
                ..text_row(RouteSet::Node, Methods::Post, Kind::Call)
            },
            Target::Spread { .. } => Row {
                keeps: Keeps::Text(LONGEST_ACTIONS),
                ..text_row(RouteSet::Library, Methods::PutOrPost, Kind::Call)
            },
            Target::Shift { .. } => text_row(RouteSet::Node, Methods::Post, Kind::Call),
            Target::Grant { .. } => text_row(RouteSet::Node, Methods::Post, Kind::Call),
            Target::Gossip => Row {
                keeps: Keeps::Whole,
                ..text_row(RouteSet::Node, Methods::Post, Kind::Delivery)
            },
            // A number may begin with any number of zeros.
            Target::Hello => Row {
                keeps: Keeps::Whole,
                ..text_row(RouteSet::Cluster, Methods::Post, Kind::Hello)
            },
            Target::Report => Row {
                content: Content::Json,
                ..text_row(RouteSet::Node, Methods::Get, Kind::Read)
            },
            // It is asked for again and again, and is mostly what it was.
            Target::Status => Row {
                content: Content::Json,
                tagging: Tagging::Tagged,
                ..text_row(RouteSet::Node, Methods::Get, Kind::Status)
            },
            Target::Stop => text_row(RouteSet::Program, Methods::Post, Kind::Stop),
        }
    }
}

impl RouteSet {
    fn rank(self) -> u8
        ensures { result ≡ rank_of self }
    {
        match self {
            RouteSet::Node => 0,
            RouteSet::Library => 1,
            RouteSet::Cluster => 2,
            RouteSet::Served => 3,
            RouteSet::Program => 4,
        }
    }

    /// Whether this set has the routes of another.
    pub fn includes(self, other: RouteSet) -> bool
        ensures { result ≡ includes self other }
    {
        other.rank() <= self.rank()
    }
}

impl Methods {
    /// Whether a method is one of them.
    pub fn has(self, method: &str) -> bool
        ensures { result ≡ has_method self method.now }
    {
        match self {
            Methods::Get => method == "GET",
            Methods::Post => method == "POST",
            Methods::PutOrDelete => method == "PUT" || method == "DELETE",
            Methods::PutOrPost => method == "PUT" || method == "POST",
        }
    }

    /// As the field `Allow` of a response names them.
    pub fn text(self) -> &'static str
        ensures { result.now ≡ methods_text self }
    {
        match self {
            Methods::Get => "GET",
            Methods::Post => "POST",
            Methods::PutOrDelete => "PUT, DELETE",
            Methods::PutOrPost => "PUT, POST",
        }
    }
}

impl Kind {
    /// Whether the request waits until each other node was heard, at a node that hears them first.
    pub fn waits(self) -> bool
        ensures { result ≡ waits self }
    {
        match self {
            Kind::Call => true,
            Kind::Read | Kind::Status | Kind::Delivery | Kind::Hello | Kind::Page | Kind::Stop => {
                false
            }
        }
    }
}
