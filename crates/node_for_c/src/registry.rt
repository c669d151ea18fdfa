//! A node with its generator, and what C is told of its last call.

ghost use Rattle.std.specs.Prelude.{◌≡◌, ◌≢◌, [], Some, None, false, length, IfOk, IfErr, OnErr};
ghost use Rattle.std.specs.Prelude.{IsUtf8, MatchOption, OnOk, true};
ghost use Rattle.actions.specs.Names.{is_name};
ghost use Rattle.node_calls.specs.Asks as asks;
ghost use Rattle.node_calls.specs.Asks.{bare_emit};
ghost use Rattle.node_core.specs.Lasts.{passed_at};
ghost use Rattle.node_core.specs.Memory.{DeliveryNeedsMemory, EmitNeedsMemory, LoadNeedsMemory};
ghost use Rattle.node_core.specs.Memory.{NameNeedsMemory, SetNeedsMemory};
ghost use Rattle.node_steps.specs.Texts.{list_text};
ghost use Rattle.node_core.specs.Traces.{call_kept, delivery_of, state_known};
ghost use Rattle.node_for_c.specs.Numbers.{no_memory, not_text};
ghost use Rattle.node_calls.specs.FaultCodes.{IsCoded, code_of};
ghost use Rattle.node_for_c.specs.Told.{IsTold, no_act};
ghost use Rattle.node_for_c.specs.Calls.{FillsFront, IsEmitted, IsLeft, IsMade, IsNoName};
ghost use Rattle.node_for_c.specs.Calls.{IsPassedDrawing, IsPassedGiven, IsRefused, IsRefusedOf};
ghost use Rattle.node_for_c.specs.Calls.{AtPoint, HasNumber, IsLeftAt, IsRefusedAt, IsSaid};
ghost use Rattle.node_for_c.specs.Calls.{fault_said, said_of, words_drawn};
ghost use Rattle.node_for_c.specs.Calls.{IsNotSpreadBy, IsNotSpreadSet, IsShared, IsShareStopped};
ghost use Rattle.node_for_c.specs.Calls.{IsNotOpened, IsOpened, IsSpread, IsSpreadSet};
ghost use Rattle.node_for_c.specs.Answered.{IsAnswered, IsAnsweredTo, IsNoRequest, MayLackMemory};
ghost use Rattle.node_for_c.specs.Answered.{MayLackMemoryTo, reply_left};
ghost use Rattle.node_for_c.specs.Calls.{cluster_in, holds_body};
ghost use Rattle.http_routes.specs.Asked.{asked_value};
ghost use Rattle.http_routes.specs.Replies.{http_value};
ghost use Rattle.http_routes.specs.Requests.{wanted_asked};
ghost use Rattle.peers.specs.Book.{fresh_book};

use crate::act::{Act, UNSET, act_of, into_text, text_of};
use crate::numbers::NO_STAMP;
use crate::points::Points;
use actions::{Name, NameFault};
use http_routes::{Asked, HttpReply, KeptRoom, RoomReply, RouteSet, Routes, answer_in};
use node_core::{Config, Generator, NodeCore, NodeFault};
use node_sharing::{set_spread, share, spread};
use peers::{Cluster, PeerBook};
use sharing::Memory;
use stamp_register::Stamp;
use std::alloc::{AllocError, Global};

/// A node with the generator of its random draws, the routes of requests and the room for replies to
/// them, what of the last answer is to be fetched, the random draws that the last pass drew, the
/// points that have numbers, the last refusal, what the node remembers of its rounds of sharing, and what
/// it knows of the others besides the counts.
#[derive(Drop)]
pub struct Registry {
    pub core: NodeCore,
    pub generator: Generator,
    pub routes: Routes,
    pub room: KeptRoom,
    pub said: Said,
    pub words: Vec<u32>,
    pub points: Points,
    pub fault: Option<NodeFault>,
    pub memory: Memory,
    pub book: PeerBook,
}

/// What a request was answered, but for the body.
#[derive(Clone, Copy, Debug, PartialEq, Eq)]
pub struct Answer {
    pub status: u16,
    /// The fault by which the node rejects the request, if it does.
    pub fault: Option<NodeFault>,
}

/// What is to be fetched: these bytes, the text of the task that the pass at this place of the trace
/// came to, or the body that stands in the room for replies.
#[derive(Drop)]
pub enum Said {
    Bytes(Vec<u8>),
    TextAt(u64),
    InRoom,
}

/// What a call of a node that is closed is answered.
pub const CLOSED: u32 = 31;

/// What an open is answered that finds the node open.
pub const OPEN: u32 = 32;

/// What a text that is not UTF-8 is answered.
pub const NOT_TEXT: u32 = 30;

/// What a number is answered that no point has.
const NO_POINT: u32 = 33;

/// The status of a refused call: the number of the fault's code.
pub fn number_of(fault: NodeFault) -> u32
    ensures value { result ≡ code_of fault }
    ensures text { IsCoded fault }
    ensures some { result ≢ 0 }
{
    u32::from(fault.code())
}

/// The name that bytes spell, or the status.
pub fn read_name(alloc: Global, bytes: &[u8]) -> Result<Name, u32>
    ensures ok { IfOk result (λ n. n ≡ bytes.now) }
    ensures named { OnOk result (IsUtf8 bytes.now × (is_name bytes.now ≡ true)) }
    ensures err { IfErr result (λ status. (status ≢ 0) × IsNoName bytes.now status) }
{
    let Ok(text) = str::from_utf8(bytes) else {
        return Err(NOT_TEXT);
    };
    match Name::parse(alloc, text) {
        Ok(name) => Ok(name),
        Err(NameFault::BadName) => Err(number_of(NodeFault::BadName)),
        Err(NameFault::OutOfMemory) => Err(number_of(NodeFault::OutOfMemory)),
    }
}

// A node among the others, of which nothing is known yet.
fn cluster_of(config: Config) -> Cluster
    ensures { result ≡ cluster_in config }
{
    Cluster {
        own: config.node,
        nodes: config.nodes,
    }
}

// What C is told of the pass at a place.
fn told_at(core: &NodeCore, index: u64) -> Act
    ensures { MatchOption (passed_at (call_kept core.now index)) (result ≡ no_act)
        (λ passed. IsTold passed result) }
{
    match core.passed_at(index) {
        Some(reply) => act_of(reply),
        None => UNSET,
    }
}

/// Copies as much as there is room for, and answers the length of all.
pub fn fill_front(said: &[u8], into: &mut [u8]) -> usize
    ensures length { result ≡ length said.now }
    ensures bytes { FillsFront said.now into.old into.new }
{
    let length = said.len();
    let shown = length.min(into.len());
    let (front, _) = into.split_at_mut(shown);
    front.copy_from_slice(&said[..shown]);
    length
}

impl Registry {
    /// A node that has accepted no call. The only error is out of memory.
    pub fn new(alloc: Global, core: NodeCore, generator: Generator) -> Result<Registry, AllocError>
        ensures core { IfOk result (λ k. k.core ≡ core) }
        ensures generator { IfOk result (λ k. k.generator ≡ generator) }
        ensures room { IfOk result (λ k. k.room ≡ []) }
        ensures said { IfOk result (λ k. said_of k ≡ []) }
        ensures words { IfOk result (λ k. k.words.items ≡ []) }
        ensures points { IfOk result (λ k. k.points ≡ []) }
        ensures fault { IfOk result (λ k. k.fault ≡ None) }
        ensures memory { IfOk result (λ k. k.memory ≡ []) }
        ensures book { IfOk result (λ k. k.book ≡ fresh_book (cluster_in core.config)) }
    {
        let book = PeerBook::new(cluster_of(core.config()));
        Ok(Registry {
            core,
            generator,
            routes: Routes::new(alloc)?,
            room: KeptRoom::new(alloc)?,
            said: Said::Bytes(Vec::new(alloc)),
            words: Vec::new(alloc),
            points: Points::new(alloc),
            fault: None,
            memory: Memory::new(alloc),
            book,
        })
    }

    /// The registry of a node of a cluster that has accepted no call and takes its random draws from the
    /// seed; or the number of the refusal.
    pub fn open(alloc: Global, config: Config, seed: &[u8; 32]) -> Result<Box<Registry>, u32>
        ensures ok { IfOk result (λ b. IsOpened config seed.now b.value) }
        ensures err { IfErr result (λ status. (status ≢ 0) × IsNotOpened config status) }
    {
        let core = match NodeCore::new(alloc, config) {
            Ok(core) => core,
            Err(fault) => return Err(number_of(fault)),
        };
        let generator = Generator::new(*seed, u64::from(config.node));
        match Registry::boxed(alloc, core, generator) {
            Ok(registry) => Ok(registry),
            Err(_) => Err(number_of(NodeFault::OutOfMemory)),
        }
    }

    // The registry of a node that has accepted no call, on the heap. The only error is out of memory.
    fn boxed(
        alloc: Global,
        core: NodeCore,
        generator: Generator,
    ) -> Result<Box<Registry>, AllocError>
        ensures core { IfOk result (λ b. b.value.core ≡ core) }
        ensures generator { IfOk result (λ b. b.value.generator ≡ generator) }
        ensures room { IfOk result (λ b. b.value.room ≡ []) }
        ensures said { IfOk result (λ b. said_of b.value ≡ []) }
        ensures words { IfOk result (λ b. b.value.words.items ≡ []) }
        ensures points { IfOk result (λ b. b.value.points ≡ []) }
        ensures fault { IfOk result (λ b. b.value.fault ≡ None) }
        ensures memory { IfOk result (λ b. b.value.memory ≡ []) }
        ensures book { IfOk result (λ b. b.value.book ≡ fresh_book (cluster_in core.config)) }
    {
        Ok(Box::new(alloc, Registry::new(alloc, core, generator)?)?)
    }

    /// Keeps a refusal, and answers its number.
    pub(crate) fn refuse(&mut self, fault: NodeFault) -> u32
        ensures status { result ≡ code_of fault }
        ensures some { result ≢ 0 }
        ensures left { self.new ≡ record self.old { fault = Some fault } }
    {
        self.fault = Some(fault);
        number_of(fault)
    }

    // Keeps no refusal: a text wasn't UTF-8.
    fn refuse_text(&mut self) -> u32
        ensures status { result ≡ not_text }
        ensures left { self.new ≡ record self.old { fault = None } }
    {
        self.fault = None;
        NOT_TEXT
    }

    /// Sets a point to an action text.
    pub fn set(&mut self, alloc: Global, name: &[u8], text: &[u8]) -> (u32, Stamp)
        ensures ok { result.0 ≡ 0
            → IsMade (asks.Set name.now text.now) (asks.IsSet result.1) self.old self.new }
        ensures refused { result.0 ≢ 0 → IsRefusedOf (IsUtf8 name.now × IsUtf8 text.now)
            self.old.core (asks.Set name.now text.now) []
            (SetNeedsMemory self.old.core name.now text.now) result.0 }
        ensures left { result.0 ≢ 0
            → IsLeft (asks.Set name.now text.now) [] result.0 self.old self.new }
        ensures none { result.0 ≢ 0 → result.1 ≡ record { clock = 0; node = 0 } }
    {
        let Ok(name) = str::from_utf8(name) else {
            return (self.refuse_text(), NO_STAMP);
        };
        let Ok(text) = str::from_utf8(text) else {
            return (self.refuse_text(), NO_STAMP);
        };
        match self.core.set(alloc, name, text) {
            Ok(stamp) => (0, stamp),
            Err(fault) => (self.refuse(fault), NO_STAMP),
        }
    }

    /// Removes a point.
    pub fn remove(&mut self, alloc: Global, name: &[u8]) -> (u32, Stamp)
        ensures ok { result.0 ≡ 0
            → IsMade (asks.Remove name.now) (asks.IsRemoved result.1) self.old self.new }
        ensures refused { result.0 ≢ 0 → IsRefusedOf (IsUtf8 name.now) self.old.core
            (asks.Remove name.now) [] (NameNeedsMemory self.old.core name.now) result.0 }
        ensures left { result.0 ≢ 0
            → IsLeft (asks.Remove name.now) [] result.0 self.old self.new }
        ensures none { result.0 ≢ 0 → result.1 ≡ record { clock = 0; node = 0 } }
    {
        let Ok(name) = str::from_utf8(name) else {
            return (self.refuse_text(), NO_STAMP);
        };
        match self.core.remove(alloc, name) {
            Ok(stamp) => (0, stamp),
            Err(fault) => (self.refuse(fault), NO_STAMP),
        }
    }

    /// Sets the points of a setting text, all or none.
    pub fn load(&mut self, alloc: Global, text: &[u8]) -> (u32, u16)
        ensures ok { result.0 ≡ 0
            → IsMade (asks.Load text.now) (asks.IsLoaded result.1) self.old self.new }
        ensures refused { result.0 ≢ 0 → IsRefusedOf (IsUtf8 text.now) self.old.core
            (asks.Load text.now) [] (LoadNeedsMemory self.old.core text.now) result.0 }
        ensures left { result.0 ≢ 0
            → IsLeft (asks.Load text.now) [] result.0 self.old self.new }
        ensures none { result.0 ≢ 0 → result.1 ≡ 0 }
    {
        let Ok(text) = str::from_utf8(text) else {
            return (self.refuse_text(), 0);
        };
        match self.core.load(alloc, text) {
            Ok(entries) => (0, entries),
            Err(fault) => (self.refuse(fault), 0),
        }
    }

    /// Passes a point, with the next random draws of the generator.
    pub fn pass(&mut self, alloc: Global, name: &[u8]) -> (u32, Act)
        ensures ok { result.0 ≡ 0 → IsPassedDrawing name.now result.1 self.old self.new }
        ensures refused { result.0 ≢ 0 → IsRefusedOf (IsUtf8 name.now) self.old.core
            (asks.Pass name.now) (words_drawn self.old name.now)
            (NameNeedsMemory self.old.core name.now) result.0 }
        ensures left { result.0 ≢ 0
            → IsLeft (asks.Pass name.now)
            (words_drawn self.old name.now) result.0 self.old self.new }
        ensures none { result.0 ≢ 0 → result.1 ≡ no_act }
    {
        let Ok(name) = str::from_utf8(name) else {
            return (self.refuse_text(), UNSET);
        };
        match self.core.pass_generating(alloc, name, &mut self.generator) {
            Ok((words, reply)) => {
                let act = act_of(reply.as_ref());
                self.said = Said::Bytes(into_text(alloc, reply));
                self.words = words;
                (0, act)
            }
            Err(fault) => (self.refuse(fault), UNSET),
        }
    }

    /// Passes a point with random draws that are given.
    pub fn pass_with(&mut self, alloc: Global, name: &[u8], words: &[u32]) -> (u32, Act)
        ensures ok { result.0 ≡ 0 → IsPassedGiven name.now words.now result.1 self.old self.new }
        ensures refused { result.0 ≢ 0 → IsRefusedOf (IsUtf8 name.now) self.old.core
            (asks.Pass name.now) words.now (NameNeedsMemory self.old.core name.now) result.0 }
        ensures left { result.0 ≢ 0
            → IsLeft (asks.Pass name.now) words.now result.0 self.old self.new }
        ensures none { result.0 ≢ 0 → result.1 ≡ no_act }
    {
        let Ok(name) = str::from_utf8(name) else {
            return (self.refuse_text(), UNSET);
        };
        match self.core.pass_with(alloc, name, words) {
            Ok(reply) => {
                let act = act_of(reply.as_ref());
                self.said = Said::Bytes(into_text(alloc, reply));
                (0, act)
            }
            Err(fault) => (self.refuse(fault), UNSET),
        }
    }

    /// The number of a point.
    pub fn point(&mut self, alloc: Global, name: &[u8]) -> (u32, u32)
        ensures ok { result.0 ≡ 0 → HasNumber name.now result.1 self.old self.new }
        ensures refused { result.0 ≢ 0 → IsNoName name.now result.0 }
        ensures left { result.0 ≢ 0 → self.new ≡ self.old }
        ensures none { result.0 ≢ 0 → result.1 ≡ 0 }
    {
        let name = match read_name(alloc, name) {
            Ok(name) => name,
            Err(status) => return (status, 0),
        };
        match self.points.number(alloc, name) {
            Ok(number) => (0, number),
            Err(AllocError) => (number_of(NodeFault::OutOfMemory), 0),
        }
    }

    /// Passes the point of a number. The text of its task stays where it is.
    pub fn pass_at(&mut self, alloc: Global, point: u32) -> (u32, Act)
        ensures ok { result.0 ≡ 0 → AtPoint self.old point
            (λ name. IsPassedDrawing name result.1 self.old self.new) }
        ensures refused { result.0 ≢ 0 → IsRefusedAt self.old point result.0 }
        ensures left { result.0 ≢ 0 → IsLeftAt point result.0 self.old self.new }
        ensures none { result.0 ≢ 0 → result.1 ≡ no_act }
    {
        let Some(name) = self.points.name(point) else {
            self.fault = None;
            return (NO_POINT, UNSET);
        };
        let index = self.core.calls();
        match self
            .core
            .pass_point_generating(alloc, name, &mut self.generator)
        {
            Ok(words) => {
                self.said = Said::TextAt(index);
                self.words = words;
                (0, told_at(&self.core, index))
            }
            Err(fault) => (self.refuse(fault), UNSET),
        }
    }

    /// Moves rights of a counted term to another node, and answers how many went there in all.
    pub fn shift(&mut self, alloc: Global, name: &[u8], term: u8, to: u8, amount: u64) -> (u32, u64)
        ensures ok { result.0 ≡ 0 → IsMade (asks.Shift name.now term to amount)
            (asks.IsShifted result.1) self.old self.new }
        ensures refused { result.0 ≢ 0 → IsRefusedOf (IsUtf8 name.now) self.old.core
            (asks.Shift name.now term to amount) []
            (NameNeedsMemory self.old.core name.now) result.0 }
        ensures left { result.0 ≢ 0
            → IsLeft (asks.Shift name.now term to amount) [] result.0 self.old self.new }
        ensures none { result.0 ≢ 0 → result.1 ≡ 0 }
    {
        let Ok(name) = str::from_utf8(name) else {
            return (self.refuse_text(), 0);
        };
        match self.core.shift(alloc, name, term, to, amount) {
            Ok(total) => (0, total),
            Err(fault) => (self.refuse(fault), 0),
        }
    }

    /// Grants the node rights of a counted term beyond its count, and answers how many in all.
    pub fn grant(&mut self, alloc: Global, name: &[u8], term: u8, amount: u64) -> (u32, u64)
        ensures ok { result.0 ≡ 0 → IsMade (asks.Grant name.now term amount)
            (asks.IsGranted result.1) self.old self.new }
        ensures refused { result.0 ≢ 0 → IsRefusedOf (IsUtf8 name.now) self.old.core
            (asks.Grant name.now term amount) []
            (NameNeedsMemory self.old.core name.now) result.0 }
        ensures left { result.0 ≢ 0
            → IsLeft (asks.Grant name.now term amount) [] result.0 self.old self.new }
        ensures none { result.0 ≢ 0 → result.1 ≡ 0 }
    {
        let Ok(name) = str::from_utf8(name) else {
            return (self.refuse_text(), 0);
        };
        match self.core.grant(alloc, name, term, amount) {
            Ok(total) => (0, total),
            Err(fault) => (self.refuse(fault), 0),
        }
    }

    /// A round of sharing: makes the shifts that are due, and answers how many they are.
    pub fn share(&mut self, alloc: Global) -> (u32, u64)
        ensures ok { result.0 ≡ 0 → IsShared result.1 self.old self.new }
        ensures left { result.0 ≢ 0 → IsShareStopped result.0 self.old self.new }
        ensures none { result.0 ≢ 0 → result.1 ≡ 0 }
    {
        match share(&mut self.core, alloc, &mut self.memory) {
            Ok(count) => (0, count as u64),
            Err(fault) => (self.refuse(fault), 0),
        }
    }

    /// Spreads the rights to a point, and answers how many the node keeps.
    pub fn spread(&mut self, alloc: Global, name: &[u8]) -> (u32, u64)
        ensures ok { result.0 ≡ 0 → IsSpread name.now result.1 self.old self.new }
        ensures left { result.0 ≢ 0 → IsNotSpreadBy name.now result.0 self.old self.new }
        ensures none { result.0 ≢ 0 → result.1 ≡ 0 }
    {
        let Ok(name) = str::from_utf8(name) else {
            return (self.refuse_text(), 0);
        };
        match spread(&mut self.core, alloc, name) {
            Ok(kept) => (0, kept),
            Err(fault) => (self.refuse(fault), 0),
        }
    }

    /// Sets a point and spreads the rights to it.
    pub fn set_spread(&mut self, alloc: Global, name: &[u8], text: &[u8]) -> (u32, Stamp)
        ensures ok { result.0 ≡ 0 → IsSpreadSet name.now text.now result.1 self.old self.new }
        ensures left { result.0 ≢ 0
            → IsNotSpreadSet name.now text.now result.0 self.old self.new }
        ensures none { result.0 ≢ 0 → result.1 ≡ record { clock = 0; node = 0 } }
    {
        let Ok(name) = str::from_utf8(name) else {
            return (self.refuse_text(), NO_STAMP);
        };
        let Ok(text) = str::from_utf8(text) else {
            return (self.refuse_text(), NO_STAMP);
        };
        match set_spread(&mut self.core, alloc, name, text) {
            Ok(stamp) => (0, stamp),
            Err(fault) => (self.refuse(fault), NO_STAMP),
        }
    }

    /// Makes a message to another node, to be fetched.
    pub fn emit(&mut self, alloc: Global, to: u8) -> u32
        ensures ok { result ≡ 0 → IsEmitted to self.old self.new }
        ensures refused { result ≢ 0 → IsRefused self.old.core (bare_emit to) []
            (EmitNeedsMemory self.old.core to) result }
        ensures left { result ≢ 0 → IsLeft (bare_emit to) [] result self.old self.new }
    {
        match self.core.emit(alloc, to) {
            Ok(message) => {
                self.said = Said::Bytes(message);
                0
            }
            Err(fault) => self.refuse(fault),
        }
    }

    /// Takes in a message of another node, and answers whether that changed anything.
    pub fn deliver(&mut self, alloc: Global, message: &[u8]) -> (u32, bool)
        ensures ok { result.0 ≡ 0 → IsMade (delivery_of self.old.core message.now)
            (asks.IsDelivered result.1) self.old self.new }
        ensures refused { result.0 ≢ 0 → IsRefused self.old.core
            (delivery_of self.old.core message.now) []
            (DeliveryNeedsMemory self.old.core message.now) result.0 }
        ensures left { result.0 ≢ 0
            → IsLeft (delivery_of self.old.core message.now) [] result.0 self.old self.new }
        ensures none { result.0 ≢ 0 → result.1 ≡ false }
    {
        match self.core.deliver(alloc, message) {
            Ok(changed) => (0, changed),
            Err(fault) => (self.refuse(fault), false),
        }
    }

    /// Answers a request of HTTP. The body of the reply is to be fetched. The only error is that the
    /// method or the path isn't UTF-8.
    pub fn answer(
        &mut self,
        alloc: Global,
        method: &[u8],
        path: &[u8],
        body: &[u8],
    ) -> Result<Answer, u32>
        ensures ok { IfOk result
            (λ answer. IsAnswered method.now path.now body.now answer self.old self.new) }
        ensures memory { IfOk result
            (λ answer. MayLackMemory method.now path.now body.now answer self.old self.new) }
        ensures refused { IfErr result (IsNoRequest method.now path.now) }
        ensures same { OnErr result (self.new ≡ self.old) }
    {
        let Ok(method) = str::from_utf8(method) else {
            return Err(NOT_TEXT);
        };
        let Ok(path) = str::from_utf8(path) else {
            return Err(NOT_TEXT);
        };
        let asked = self.routes.asked(RouteSet::Library, method, path);
        Ok(self.answer_asked(alloc, &asked, body))
    }

    /// Answers what is asked of the node alone. The body of the reply is to be fetched.
    pub(crate) fn answer_asked(&mut self, alloc: Global, asked: &Asked<'_>, body: &[u8]) -> Answer
        ensures answered { IsAnsweredTo (wanted_asked (asked_value asked.now) body.now) result self.old
            self.new }
        ensures memory { MayLackMemoryTo (wanted_asked (asked_value asked.now) body.now) result
            self.old self.new }
        ensures said { holds_body self.new.said ≡ true }
    {
        let (core, room) = (&mut self.core, &mut self.room);
        match answer_in(core, alloc, room, asked, body) {
            RoomReply::Kept { status, fault } => {
                self.said = Said::InRoom;
                Answer { status, fault }
            }
            RoomReply::Apart(reply) => self.say_reply(reply),
        }
    }

    /// The body of a reply is to be fetched.
    pub(crate) fn say_reply(&mut self, reply: HttpReply) -> Answer
        ensures answer { reply_left result self.new ≡ http_value reply }
        ensures same { self.new ≡ record self.old { said = self.new.said } }
        ensures said { holds_body self.new.said ≡ true }
    {
        let HttpReply {
            status,
            body,
            fault,
        } = reply;
        self.said = Said::Bytes(body);
        Answer { status, fault }
    }

    /// Lists the points that are set, to be fetched.
    pub fn list(&mut self, alloc: Global) -> u32
        ensures text { result ≡ 0
            → IsSaid (list_text (state_known self.old.core)) self.old self.new }
        ensures only { result ≢ 0 → result ≡ no_memory }
        ensures same { result ≢ 0 → self.new ≡ self.old }
    {
        match self.core.list(alloc) {
            Ok(text) => {
                self.said = Said::Bytes(text.into_bytes());
                0
            }
            Err(_) => number_of(NodeFault::OutOfMemory),
        }
    }

    /// Copies the text of the last refusal, as much of it as there is room for, and answers its
    /// length: nothing where that was a text that isn't UTF-8, or where there was none. The only
    /// error is out of memory.
    pub fn fault_text(&self, alloc: Global, into: &mut [u8]) -> Result<usize, AllocError>
        ensures length { IfOk result (λ n. n ≡ length (fault_said self.now)) }
        ensures bytes { OnOk result (FillsFront (fault_said self.now) into.old into.new) }
        ensures err { OnErr result (into.new ≡ into.old) }
    {
        let Some(fault) = self.fault else {
            return Ok(0);
        };
        let text = format!(in alloc; "{fault}")?;
        Ok(fill_front(text.as_bytes(), into))
    }

    // What is to be fetched.
    fn said(&self) -> &[u8]
        ensures { result.now ≡ said_of self.now }
    {
        match &self.said {
            Said::Bytes(bytes) => bytes,
            Said::TextAt(index) => match self.core.passed_at(*index) {
                Some(reply) => text_of(reply).as_bytes(),
                None => &[],
            },
            Said::InRoom => self.room.body(),
        }
    }

    /// Copies as much as there is room for of what is to be fetched, and answers its length.
    pub fn fetch(&self, into: &mut [u8]) -> usize
        ensures length { result ≡ length (said_of self.now) }
        ensures bytes { FillsFront (said_of self.now) into.old into.new }
    {
        fill_front(self.said(), into)
    }

    /// Copies the random draws that the last pass drew, as many as there is room for, and answers
    /// how many there are.
    pub fn fetch_words(&self, into: &mut [u32]) -> usize
        ensures length { result ≡ length self.now.words.items }
        ensures words { FillsFront self.now.words.items into.old into.new }
    {
        let length = self.words.len();
        let shown = length.min(into.len());
        let (front, _) = into.split_at_mut(shown);
        front.copy_from_slice(&self.words[..shown]);
        length
    }
}
