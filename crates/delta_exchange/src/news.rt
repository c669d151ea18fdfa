//! What a replica doesn't know yet of what it is told.
#![tactic(auto)]

ghost use Rattle.std.specs.Prelude.{◌≡◌, ◌≢◌, ◌++◌, ◌∷◌, [], Some, None, true, false, nat_le, map, IfOk, OnOk};
ghost use Rattle.std.specs.Ordering.{match_ordering};
ghost use Rattle.stamp_register.specs.Keys.{key_value};
ghost use Rattle.operations.specs.Operations.{operation, IsWellFormed};
ghost use Rattle.replica_state.specs.Points.{order_to_held};
ghost use Rattle.operations.specs.Counts.{operation_told};
ghost use Rattle.replica_state.specs.Stored.{reader_held};
ghost use Rattle.std.specs.List.{AllByRecursion};
ghost use Rattle.replica_state.specs.Folds.{fold};
ghost use Rattle.delta_exchange.specs.Marks.{marks_value};
ghost use Rattle.delta_exchange.specs.Told.{HasLearned};
ghost use Rattle.delta_exchange.specs.News.{counted_of, is_new, knows_held, news_held, news_in};
ghost use Rattle.delta_exchange.specs.News.{news_of, operation_of, with_news, HaveRoom, HasOrderTo};
ghost use Rattle.message_format.specs.Messages.{entry_value, message_value, hits_in, execs_in};
ghost use Rattle.message_format.specs.Messages.{shifts_in, grants_in, operations_of, operations_in};

use crate::marks::Marks;
use actions::Name;
use message_format::{Message, NameEntry};
use replica_state::{Count, Counted, Op, PointReader, Replica, Stored};
use stamp_register::Key;
use std::alloc::{AllocError, Global};
use std::cmp::Ordering;

/// A setting that is told or, with a count, what is counted of a name, which of a hit is under no
/// key.
#[derive(Clone, Copy)]
pub(crate) struct Told<'a> {
    pub(crate) name: &'a Name,
    pub(crate) key: &'a Key,
    // How the key stands to the one that is held.
    pub(crate) order: Ordering,
    pub(crate) count: Option<Count>,
}

/// How a key stands to the one that is held of a name. Where none is, each is greater.
fn order_to_held<S: Stored>(held: PointReader<S>, key: &Key) -> Ordering
    ensures { result ≡ order_to_held (key_value key.now) (reader_held S.held held.entry).key }
{
    match held.key() {
        Some(held) => key.cmp(held),
        None => Ordering::Greater,
    }
}

impl<'a> Told<'a> {
    /// A setting.
    fn new<S: Stored>(held: PointReader<S>, name: &'a Name, key: &'a Key) -> Told<'a>
        ensures name { result.name.now ≡ name.now }
        ensures key { key_value result.key.now ≡ key_value key.now }
        ensures count { result.count ≡ None }
        ensures order { HasOrderTo (reader_held S.held held.entry) result }
    {
        Told {
            name,
            key,
            order: order_to_held(held, key),
            count: None,
        }
    }

    /// What is counted under the same key.
    fn with(self, count: Count) -> Told<'a>
        ensures name { result.name.now ≡ self.entry.name.now }
        ensures key { key_value result.key.now ≡ key_value self.entry.key.now }
        ensures count { result.count ≡ Some count }
        ensures order { result.order ≡ self.entry.order }
    {
        Told {
            name: self.name,
            key: self.key,
            order: self.order,
            count: Some(count),
        }
    }

    /// What is counted, if anything is.
    pub(crate) fn counted(self) -> Option<Counted>
        ensures { result ≡ counted_of self.entry.count }
    {
        match self.count {
            Some(count) => Some(count.counted),
            None => None,
        }
    }

    /// Whether it brings a key above the one that was held.
    pub(crate) fn is_new_key(self) -> bool
        ensures { result ≡ is_new self.entry.order self.entry.count }
    {
        match self.count {
            Some(count) => !count.counted.is_hits() && self.order.is_gt(),
            None => self.order.is_gt(),
        }
    }

    // Whether a count under the key is known, where the replica has this number.
    fn is_known_to_be(self, number: u64, held: u64) -> bool
        ensures { result ≡ match_ordering self.entry.order true (nat_le number held) false }
    {
        match self.order {
            Ordering::Less => true,
            Ordering::Equal => number <= held,
            Ordering::Greater => false,
        }
    }

    // Whether a count under the key is known by what is held of the name.
    #[tactic(auto, using(crate::proofs::NewsLemmas::known_by_order))]
    fn is_count_known<S: Stored>(self, held: PointReader<S>, count: Count) -> bool
        requires { HasOrderTo (reader_held S.held held) self }
        ensures { result ≡ knows_held (reader_held S.held held.entry)
            (operation_told self.entry.name.now (key_value self.entry.key.now) (Some count)) }
    {
        match count.counted {
            Counted::Hits { node } => count.number <= held.hits(node),
            Counted::Execs { term, node } => {
                self.is_known_to_be(count.number, held.exec(term, node))
            }
            Counted::Shifts { term, from, to } => {
                self.is_known_to_be(count.number, held.moved(term, from, to))
            }
        }
    }

    /// Whether it is known by what is held of the name.
    fn is_known<S: Stored>(self, held: PointReader<S>) -> bool
        requires { HasOrderTo (reader_held S.held held) self }
        ensures { result ≡ knows_held (reader_held S.held held.entry) (operation_of self.entry) }
    {
        match self.count {
            Some(count) => self.is_count_known(held, count),
            None => !self.order.is_gt(),
        }
    }

    /// Adds it to the news, unless it is known.
    fn push_news<S: Stored>(
        self,
        news: &mut Vec<Told<'a>>,
        held: PointReader<S>,
    ) -> Result<(), AllocError>
        requires { HasOrderTo (reader_held S.held held) self }
        ensures { OnOk result (map news_of news.new.items ≡ map news_of news.old.items
            ++ news_held (reader_held S.held held.entry) (operation_of self.entry ∷ [])) }
    {
        if !self.is_known(held) {
            news.push(self)?;
        }
        Ok(())
    }

    // Adds a count under the key to the news, unless it is known.
    fn push_count<S: Stored>(
        self,
        news: &mut Vec<Told<'a>>,
        held: PointReader<S>,
        count: Count,
    ) -> Result<(), AllocError>
        requires { HasOrderTo (reader_held S.held held) self }
        ensures { OnOk result (map news_of news.new.items ≡ map news_of news.old.items
            ++ news_held (reader_held S.held held.entry)
            (operation_told self.entry.name.now (key_value self.entry.key.now) (Some count) ∷ [])) }
    {
        self.with(count).push_news(news, held)
    }

    fn push_hits<S: Stored>(
        self,
        news: &mut Vec<Told<'a>>,
        held: PointReader<S>,
        hits: &[(u8, u64)],
    ) -> Result<(), AllocError>
        requires { HasOrderTo (reader_held S.held held) self }
        ensures { OnOk result (map news_of news.new.items ≡ map news_of news.old.items
            ++ news_held (reader_held S.held held.entry) (hits_in self.entry.name.now hits.now)) }
    {
        for (node, number) in hits {
            let hits = Counted::Hits { node: *node };
            self.push_count(news, held, hits.times(*number))?;
        }
        Ok(())
    }

    fn push_execs<S: Stored>(
        self,
        news: &mut Vec<Told<'a>>,
        held: PointReader<S>,
        execs: &[(u8, u8, u64)],
    ) -> Result<(), AllocError>
        requires { HasOrderTo (reader_held S.held held) self }
        ensures { OnOk result (map news_of news.new.items ≡ map news_of news.old.items
            ++ news_held (reader_held S.held held.entry)
            (execs_in self.entry.name.now (key_value self.entry.key.now) execs.now)) }
    {
        for (term, node, number) in execs {
            let execs = Counted::Execs {
                term: *term,
                node: *node,
            };
            self.push_count(news, held, execs.times(*number))?;
        }
        Ok(())
    }

    fn push_shifts<S: Stored>(
        self,
        news: &mut Vec<Told<'a>>,
        held: PointReader<S>,
        shifts: &[(u8, u8, u8, u64)],
    ) -> Result<(), AllocError>
        requires { HasOrderTo (reader_held S.held held) self }
        ensures { OnOk result (map news_of news.new.items ≡ map news_of news.old.items
            ++ news_held (reader_held S.held held.entry)
            (shifts_in self.entry.name.now (key_value self.entry.key.now) shifts.now)) }
    {
        for (term, from, to, total) in shifts {
            let shifts = Counted::Shifts {
                term: *term,
                from: *from,
                to: *to,
            };
            self.push_count(news, held, shifts.times(*total))?;
        }
        Ok(())
    }

    fn push_grants<S: Stored>(
        self,
        news: &mut Vec<Told<'a>>,
        held: PointReader<S>,
        grants: &[(u8, u8, u64)],
    ) -> Result<(), AllocError>
        requires { HasOrderTo (reader_held S.held held) self }
        ensures { OnOk result (map news_of news.new.items ≡ map news_of news.old.items
            ++ news_held (reader_held S.held held.entry)
            (grants_in self.entry.name.now (key_value self.entry.key.now) grants.now)) }
    {
        for (term, node, total) in grants {
            let grants = Counted::Shifts {
                term: *term,
                from: *node,
                to: *node,
            };
            self.push_count(news, held, grants.times(*total))?;
        }
        Ok(())
    }
}

fn push_entry<'a, R: Replica>(
    news: &mut Vec<Told<'a>>,
    replica: &R,
    entry: &'a NameEntry,
) -> Result<(), AllocError>
    ensures { OnOk result (map news_of news.new.items ≡ map news_of news.old.items
        ++ news_in (R.state replica.now) (operations_of (entry_value entry.now))) }
{
    let held = replica.point(&entry.name);
    let told = Told::new(held, &entry.name, &entry.key);
    told.push_news(news, held)?;
    told.push_hits(news, held, &entry.hits)?;
    told.push_execs(news, held, &entry.execs)?;
    told.push_shifts(news, held, &entry.shifts)?;
    told.push_grants(news, held, &entry.grants)
}

/// What a replica doesn't know of what a message tells.
pub(crate) fn news_of_message<'a, R: Replica>(
    alloc: Global,
    replica: &R,
    message: &'a Message,
) -> Result<Vec<Told<'a>>, AllocError>
    ensures { IfOk result (λ news. map news_of news.items
        ≡ news_in (R.state replica.now) (operations_in (message_value message.now))) }
{
    let mut news = Vec::new(alloc);
    for entry in &message.entries {
        push_entry(&mut news, replica, entry)?;
    }
    Ok(news)
}

fn push_op<'a, R: Replica>(
    news: &mut Vec<Told<'a>>,
    replica: &R,
    op: &'a Op,
    no_key: &'a Key,
) -> Result<(), AllocError>
    ensures { OnOk result (map news_of news.new.items ≡ map news_of news.old.items
        ++ news_in (R.state replica.now) (operation op.now ∷ [])) }
{
    let name = op.name();
    let held = replica.point(name);
    let told = Told::new(held, name, op.key().unwrap_or(no_key));
    match op.count() {
        Some(count) => told.push_count(news, held, count),
        None => told.push_news(news, held),
    }
}

/// What a replica doesn't know of operations. A hit is under no key, so that any key does for it.
pub(crate) fn news_of_ops<'a, R: Replica>(
    alloc: Global,
    replica: &R,
    ops: &'a [Op],
    no_key: &'a Key,
) -> Result<Vec<Told<'a>>, AllocError>
    ensures { IfOk result (λ news. map news_of news.items
        ≡ news_in (R.state replica.now) (map operation ops.now)) }
{
    let mut news = Vec::new(alloc);
    for op in ops {
        push_op(&mut news, replica, op, no_key)?;
    }
    Ok(news)
}

/// A replica that knows just the news.
pub(crate) fn learned<R: Replica>(alloc: Global, news: &[Told]) -> Result<R, AllocError>
    requires { AllByRecursion (λ told. IsWellFormed (operation_of told)) news.now }
    ensures { IfOk result
        (λ replica. HasLearned (fold []) (R.state replica) (map operation_of news.now)) }
{
    let mut replica = R::empty(alloc);
    for told in news {
        replica.learn(alloc, told.name, told.key, told.count)?;
    }
    Ok(replica)
}

/// Makes room for the marks of all news. No mark changes.
pub(crate) fn make_room(alloc: Global, marks: &mut Marks, news: &[Told]) -> Result<(), AllocError>
    ensures same { marks_value marks.new ≡ marks_value marks.old }
    ensures room { OnOk result (HaveRoom marks.new news.now) }
{
    for told in news {
        marks.make_room(alloc, told.name, told.counted())?;
    }
    Ok(())
}

/// Marks all news with a version.
pub(crate) fn mark_all(marks: &mut Marks, news: &[Told], version: u64)
    requires room { HaveRoom marks.old news.now }
    requires version { version ≢ 0 }
    ensures { marks_value marks.new
        ≡ with_news version (map news_of news.now) (marks_value marks.old) }
{
    for told in news {
        marks.mark(told.name, told.is_new_key(), told.counted(), version);
    }
}
