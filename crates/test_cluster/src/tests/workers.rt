//! Workers run at the same time, and each returns its seat, its receipts and its errors.

ghost use Rattle.std.specs.Prelude.{◌≡◌, ◌<◌, ◌^◌, All, IfOk, replicate, vec_len};

use super::*;
use node_registry::{Done, Gate, Job, run_workers};
use std::sync::atomic::{AtomicU64, Ordering};
use std::thread;
use std::thread::Threads;
use std::time::{Clock, Duration};

/// A gate that is always open.
#[derive(Drop)]
struct Open;

impl Gate for Open {
    fn turn(&self, _worker: u16, _index: u32) -> bool {
        true
    }

    fn answered(&self, _worker: u16, _index: u32) {}
}

/// Each of two workers waits for the other before its first call. Worker 0 waits before its second call
/// until the second call of worker 1 is answered.
#[derive(Drop)]
struct Meeting<'a, R> {
    rt: &'a R,
    arrived: AtomicU64,
    ended: AtomicU64,
}

// Waits for a number, for at most 1000 turns of one millisecond.
fn comes<R: Clock>(rt: &R, number: &AtomicU64, wanted: u64) -> bool {
    for _ in 0..1000 {
        if number.load(Ordering::SeqCst) == wanted {
            return true;
        }
        thread::sleep(rt, Duration::from_millis(1));
    }
    false
}

impl<R: Clock> Gate for Meeting<'_, R> {
    fn turn(&self, worker: u16, index: u32) -> bool {
        if index == 0 {
            self.arrived.fetch_add(1, Ordering::SeqCst);
            return comes(self.rt, &self.arrived, 2);
        }
        worker == 1 || comes(self.rt, &self.ended, 1)
    }

    fn answered(&self, worker: u16, index: u32) {
        if worker == 1 && index == 1 {
            self.ended.store(1, Ordering::SeqCst);
        }
    }
}

/// A gate that lets each worker make one call.
#[derive(Drop)]
struct OneCall;

impl Gate for OneCall {
    fn turn(&self, _worker: u16, index: u32) -> bool {
        index == 0
    }

    fn answered(&self, _worker: u16, _index: u32) {}
}

/// Two points, each of which a worker sets to `off`.
type Names = [&'static str; 2];

fn asks_of(alloc: Global, names: Names) -> Result<Vec<Ask>, AllocError> {
    let mut asks = Vec::new(alloc);
    for name in names {
        let ask = AskRef::Set { name, text: "off" };
        asks.push(ask.copied(alloc)?)?;
    }
    Ok(asks)
}

// A job of these requests.
fn job_of<'a, L: Label>(
    registry: &'a Registry<L>,
    seat: Seat<L>,
    asks: Vec<Ask>,
) -> Result<Job<'a, L>, Fail>
    ensures { IfOk result (λ job. vec_len job.asks < 2 ^ 32) }
{
    if asks.len() > 2 {
        return Err(Fail::new("too many asks"));
    }
    Ok(Job {
        registry,
        seat,
        asks,
    })
}

// A job for each seat.
fn jobs_of<'a, L: Label>(
    alloc: Global,
    registry: &'a Registry<L>,
    mut seats: Vec<Seat<L>>,
    names: Names,
) -> Result<Vec<Job<'a, L>>, Fail>
    ensures len { IfOk result (λ jobs. vec_len jobs ≡ vec_len seats) }
    ensures few { IfOk result (λ jobs. All (λ job. vec_len job.asks < 2 ^ 32) jobs.items) }
{
    let mut jobs = Vec::new(alloc);
    while let Some(seat) = seats.pop() {
        jobs.push(job_of(registry, seat, asks_of(alloc, names)?)?)?;
    }
    Ok(jobs)
}

// Runs workers, without the contract of `run_workers`.
fn worked<L: Label + Send + Sync, G: Gate + Sync, R: Threads + Wait + Sync>(
    rt: &R,
    alloc: Global,
    registry: &Registry<L>,
    seats: Vec<Seat<L>>,
    names: Names,
    gate: &G,
) -> Result<Vec<Done<L>>, Fail> {
    if seats.len() > 2 {
        return Err(Fail::new("too many seats"));
    }
    let jobs = jobs_of(alloc, registry, seats, names)?;
    match run_workers(rt, alloc, jobs, gate) {
        Ok(dones) => Ok(dones),
        Err(_) => Err(Fail::new("out of memory")),
    }
}

// What a worker returned: whether it started, the calls of its seat, the number of its receipts, and
// its errors.
fn done_text<L: Label>(alloc: Global, done: &Done<L>) -> Result<String, AllocError> {
    let (started, calls) = (done.started, done.seat.calls());
    let (receipts, faults) = (done.receipts.len(), &done.faults);
    format!(in alloc; "started={started} calls={calls} receipts={receipts} faults={faults:?};")
}

fn dones_text<L: Label>(alloc: Global, dones: &[Done<L>]) -> Result<String, AllocError> {
    let mut text = String::new(alloc);
    for done in dones {
        text.push_str(done_text(alloc, done)?.as_str())?;
    }
    Ok(text)
}

// What the workers of a new registry returned, and the number of calls that its node accepted.
fn work<L: Label + Send + Sync, G: Gate + Sync, R: Threads + Wait + Sync>(
    rt: &R,
    alloc: Global,
    blank: Blank,
    seats: u8,
    names: Names,
    gate: &G,
) -> Result<(String, u64), Fail>
    requires name { blank.name ≡ L.name }
    requires parts { (blank.parts ≡ L.parts) × (L.parts ≡ seats) × (0 < seats) }
    requires config { FIRST_OF_TWO ≡ L.config }
    requires seed { replicate 32 0 ≡ L.seed }
{
    let (registry, seats) = Registry::<L>::start(rt, alloc, blank, FIRST_OF_TWO, [0; 32], seats)?;
    let dones = worked(rt, alloc, &registry, seats, names, gate)?;
    let calls = registry.with(rt, |node| node.calls());
    Ok((dones_text(alloc, &dones)?, calls))
}

// Runs one worker, or two.
fn work_alone<G: Gate + Sync, R: Threads + Wait + Sync>(
    rt: &R,
    alloc: Global,
    names: Names,
    gate: &G,
) -> Result<(String, u64), Fail> {
    work::<Brand, G, R>(rt, alloc, Blank::new(1), 1, names, gate)
}

fn work_of_two<G: Gate + Sync, R: Threads + Wait + Sync>(
    rt: &R,
    alloc: Global,
    names: Names,
    gate: &G,
) -> Result<(String, u64), Fail> {
    work::<Brand, G, R>(rt, alloc, Blank::new(2), 2, names, gate)
}

#[test]
fn worker_of_two_requests(rt: HostRuntime) -> Result<(), Fail> {
    let (text, calls) = work_alone(&rt, rt.alloc(), ["a", "a!"], &Open)?;
    let wanted = "started=true calls=1 receipts=1 faults=[(1, BadName)];";
    expect(&rt, &(text.as_str(), calls), &(wanted, 1));
    Ok(())
}

#[test]
fn worker_at_a_closed_gate(rt: HostRuntime) -> Result<(), Fail> {
    let (text, calls) = work_alone(&rt, rt.alloc(), ["a", "b"], &OneCall)?;
    let wanted = "started=true calls=1 receipts=1 faults=[];";
    expect(&rt, &(text.as_str(), calls), &(wanted, 1));
    Ok(())
}

#[test]
fn workers_meet(rt: HostRuntime) -> Result<(), Fail> {
    let meeting = Meeting {
        rt: &rt,
        arrived: AtomicU64::new(0),
        ended: AtomicU64::new(0),
    };
    let (text, calls) = work_of_two(&rt, rt.alloc(), ["a", "b"], &meeting)?;
    let wanted = "started=true calls=2 receipts=2 faults=[];\
                  started=true calls=2 receipts=2 faults=[];";
    expect(&rt, &(text.as_str(), calls), &(wanted, 4));
    Ok(())
}
