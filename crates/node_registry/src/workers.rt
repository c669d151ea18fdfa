//! Workers: threads that call a registry, each from a seat of its own.

ghost use Rattle.std.specs.Prelude.{◌≡◌, ℕ, [], ◌+◌, ◌≤◌, ◌<◌, ◌^◌, ◌⊎◌, ◌++◌, length, IfOk, IfErr};
ghost use Rattle.std.specs.Prelude.{OnErr, OnOk, MatchResult, map, reverse, vec_len, vec_capacity};
ghost use Rattle.std.specs.Prelude.{false, sum, All};
ghost use Rattle.std.specs.List.{AllZip};
ghost use Rattle.node_registry.specs.Workers.{AllNumbered, IsDone};

use crate::guarded::Seat;
use crate::label::Label;
use crate::noted::Refusals;
use crate::registry::Registry;
use node_core::{Ask, NodeFault, Receipt};
use std::alloc::{AllocError, Global};
use std::snapshot::Snapshot;
use std::sync::Wait;
use std::sync::atomic::{AtomicU64, Ordering};
use std::thread;
use std::thread::{Promise, PromisedHandle, Scope, Threads};

/// Says when a worker may make a call, and is told when the call was answered. Workers are numbered
/// from 0 in the order of their jobs, and calls from 0 in the order of the worker's asks.
pub trait Gate {
    ghost use Rattle.std.specs.Prelude.{ℕ, Bool, true};

    /// What an answer to a worker's turn says. So a clause can tell for which turns the gate was asked.
    ghost says: { Self → ℕ → ℕ → Bool → Type 0 } = { λ _ _ _ _. Unit {0} };

    /// What was said by telling that a worker's call was answered.
    ghost hears: { Self → ℕ → ℕ → Type 0 } = { λ _ _ _. Unit {0} };

    /// Asked before each call. At false the worker ends.
    fn turn(&self, worker: u16, index: u32) -> bool
        ensures { says self.now worker index result };

    /// Told after each call, and of no other.
    fn answered(&self, worker: u16, index: u32)
        requires { says self.now worker index true }
        ensures { hears self.now worker index };
}

/// The calls of one worker, which are made in their order.
#[derive(Drop)]
pub struct Job<'a, L: Label> {
    pub registry: &'a Registry<L>,
    pub seat: Seat<L>,
    pub asks: Vec<Ask>,
}

/// What a worker hands back: its seat; whether its thread could start; the receipts of the calls that
/// were accepted, in their order; and why others were refused, each with its place among the asks,
/// counted from 0. For contracts alone: what those asked that were refused.
#[derive(Drop)]
pub struct Done<L: Label> {
    pub seat: Seat<L>,
    pub started: bool,
    pub receipts: Vec<Receipt>,
    pub faults: Vec<(u32, NodeFault)>,
    pub refusals: Refusals,
}

// A job with room for its answers.
#[derive(Drop)]
struct Task<'a, L: Label> {
    job: Job<'a, L>,
    receipts: Vec<Receipt>,
    faults: Vec<(u32, NodeFault)>,
    ghost few: { vec_len job.asks < 2 ^ 32 },
    ghost none: { vec_len receipts ≡ 0 },
    ghost room: { vec_len job.asks ≤ vec_capacity receipts },
    ghost no_fault: { vec_len faults ≡ 0 },
    ghost room_for_faults: { vec_len job.asks ≤ vec_capacity faults },
}

// Makes the job's calls.
fn work<L: Label, G: Gate, R: Wait>(
    rt: &R,
    alloc: Global,
    gate: &G,
    worker: u16,
    task: Task<'_, L>,
) -> Done<L>
    ensures { IsDone L.config L.seed (G.says gate.now worker) (G.hears gate.now worker)
        task.entry.job.seat task.entry.job.asks.items result }
{
    let Task {
        job,
        mut receipts,
        mut faults,
    } = task;
    let Job {
        registry,
        mut seat,
        asks,
    } = job;
    let mut refusals = Refusals::new();
    let mut index = 0u32;
    for ask in asks {
        if !gate.turn(worker, index) {
            break;
        }
        match registry.enter_noting(rt, alloc, &mut seat, ask, &mut refusals) {
            Ok(receipt) => receipts.push_reserved(receipt),
            Err(fault) => faults.push_reserved((index, fault)),
        }
        gate.answered(worker, index);
        index += 1;
    }
    Done {
        seat,
        started: true,
        receipts,
        faults,
        refusals,
    }
}

// A job that made no call.
fn idle<L: Label>(task: Task<'_, L>) -> Done<L>
    ensures started { result.started ≡ false }
    ensures seat { result.seat ≡ task.entry.job.seat }
    ensures none { (result.receipts.items ≡ []) × (result.faults.items ≡ [])
        × (result.refusals ≡ []) }
{
    let Task {
        job,
        receipts,
        faults,
    } = task;
    let Job {
        registry: _,
        seat,
        asks: _,
    } = job;
    Done {
        seat,
        started: false,
        receipts,
        faults,
        refusals: Refusals::new(),
    }
}

// What a worker's thread runs. Where `refused` names the worker, its thread couldn't start, and
// nothing is called.
fn run<L: Label, G: Gate, R: Wait>(
    rt: &R,
    alloc: Global,
    gate: &G,
    refused: &AtomicU64,
    worker: u16,
    task: Task<'_, L>,
) -> Done<L>
    ensures { IsDone L.config L.seed (G.says gate.now worker) (G.hears gate.now worker)
        task.entry.job.seat task.entry.job.asks.items result }
{
    if refused.load(Ordering::SeqCst) == u64::from(worker) + 1 {
        idle(task)
    } else {
        work(rt, alloc, gate, worker, task)
    }
}

// The worker of this number makes these asks from a seat that was so, and asks this gate for each.
#[derive(Drop)]
struct Does<L: Label, G: Gate> {
    worker: u16,
    gate: Snapshot<G>,
    was: Snapshot<Seat<L>>,
    asks: Snapshot<Vec<Ask>>,
}

impl<L: Label, G: Gate> Promise<Done<L>> for Does<L, G> {
    ghost kept_by = { λ p d. IsDone L.config L.seed (G.says p.gate.value p.worker)
        (G.hears p.gate.value p.worker) p.was.value p.asks.value.items d };
}

// A worker: its thread, or what it hands back where it has none.
type Worker<L, G> = Result<PromisedHandle<Done<L>, Does<L, G>>, Done<L>>;

// Starts a worker's thread.
fn start_one<'s, E, L: Label + Send + Sync + 's, G: Gate + Sync, R: Wait + Sync>(
    scope: &Scope<'s, E>,
    rt: &'s R,
    alloc: Global,
    gate: &'s G,
    refused: &'s AtomicU64,
    worker: u16,
    task: Task<'s, L>,
) -> Worker<L, G>
    ensures { MatchResult result
        (λ h. (h.promise.worker ≡ worker) × (h.promise.gate.value ≡ gate.now)
        × (h.promise.was.value ≡ task.entry.job.seat)
        × (h.promise.asks.value.items ≡ task.entry.job.asks.items))
        (λ d. IsDone L.config L.seed (G.says gate.now worker) (G.hears gate.now worker)
        task.entry.job.seat task.entry.job.asks.items d) }
{
    let promise = Does {
        worker,
        gate: Snapshot::of(gate),
        was: Snapshot::of(&task.job.seat),
        asks: Snapshot::of(&task.job.asks),
    };
    let started = scope.spawn_with(
        promise,
        move || -> Done<L>
            ensures { IsDone L.config L.seed (G.says gate.entry.now worker)
                (G.hears gate.entry.now worker) task.entry.job.seat task.entry.job.asks.items
                result }
        { run(rt, alloc, gate, refused, worker, task) },
    );
    match started {
        Ok(handle) => Ok(handle),
        Err(back) => {
            refused.store(u64::from(worker) + 1, Ordering::SeqCst);
            Err((back.value)())
        }
    }
}

// Room for the job's answers.
fn with_room<'a, L: Label>(alloc: Global, job: Job<'a, L>) -> Result<Task<'a, L>, Job<'a, L>>
    requires { vec_len job.asks < 2 ^ 32 }
    ensures ok { IfOk result (λ t. t.job ≡ job.entry) }
    ensures err { IfErr result (λ j. j ≡ job.entry) }
{
    let Ok(receipts) = Vec::with_capacity(alloc, job.asks.len()) else {
        return Err(job);
    };
    let Ok(faults) = Vec::with_capacity(alloc, job.asks.len()) else {
        return Err(job);
    };
    Ok(Task {
        job,
        receipts,
        faults,
    })
}

// Puts the tasks' jobs back, the last task first.
fn handed_back<'a, L: Label>(
    mut jobs: Vec<Job<'a, L>>,
    mut tasks: Vec<Task<'a, L>>,
) -> Vec<Job<'a, L>>
    requires { vec_len jobs + vec_len tasks ≤ vec_capacity jobs }
    ensures { result.items ≡ jobs.entry.items ++ map (λ t. t.job) (reverse tasks.entry.items) }
{
    while let Some(task) = tasks.pop() {
        let Task {
            job,
            receipts: _,
            faults: _,
        } = task;
        jobs.push_reserved(job);
    }
    jobs
}

// Room for all jobs, the last job first.
fn prepared<'a, L: Label>(
    alloc: Global,
    mut jobs: Vec<Job<'a, L>>,
) -> Result<Vec<Task<'a, L>>, Vec<Job<'a, L>>>
    requires { All (λ j. vec_len j.asks < 2 ^ 32) jobs.items }
    ensures len { IfOk result (λ ts. vec_len ts ≡ vec_len jobs.entry) }
    ensures ok { IfOk result (λ ts. map (λ t. t.job) (reverse ts.items) ≡ jobs.entry.items) }
    ensures err { IfErr result (λ js. js.items ≡ jobs.entry.items) }
{
    let Ok(mut tasks) = Vec::with_capacity(alloc, jobs.len()) else {
        return Err(jobs);
    };
    while let Some(job) = jobs.pop() {
        match with_room(alloc, job) {
            Ok(task) => tasks.push_reserved(task),
            Err(job) => {
                jobs.push_reserved(job);
                return Err(handed_back(jobs, tasks));
            }
        }
    }
    Ok(tasks)
}

// The tasks, the last job first, with room for their workers and for what they hand back.
#[derive(Drop)]
struct Crew<'a, L: Label, G: Gate> {
    tasks: Vec<Task<'a, L>>,
    workers: Vec<Worker<L, G>>,
    dones: Vec<Done<L>>,
    ghost few: { vec_len tasks ≤ 65536 },
    ghost none: { (vec_len workers ≡ 0) × (vec_len dones ≡ 0) },
    ghost room: { vec_len tasks ≤ vec_capacity workers },
    ghost room_for_dones: { vec_len tasks ≤ vec_capacity dones },
}

// Starts a thread for each task, the last task first.
fn start_all<'s, E, L: Label + Send + Sync + 's, G: Gate + Sync, R: Wait + Sync>(
    scope: &Scope<'s, E>,
    rt: &'s R,
    alloc: Global,
    gate: &'s G,
    refused: &'s AtomicU64,
    mut tasks: Vec<Task<'s, L>>,
    mut workers: Vec<Worker<L, G>>,
) -> Vec<Worker<L, G>>
    requires few { vec_len tasks ≤ 65536 }
    requires none { workers.items ≡ [] }
    requires room { vec_len tasks ≤ vec_capacity workers }
    ensures len { vec_len result ≡ vec_len tasks.entry }
    ensures each { AllNumbered (λ n t w. MatchResult w
        (λ h. (h.promise.worker ≡ n) × (h.promise.gate.value ≡ gate.now)
        × (h.promise.was.value ≡ t.job.seat) × (h.promise.asks.value.items ≡ t.job.asks.items))
        (λ d. IsDone L.config L.seed (G.says gate.now n) (G.hears gate.now n) t.job.seat
        t.job.asks.items d)) 0
        (reverse tasks.entry.items) result.items }
{
    let mut number = 0u32;
    while let Some(task) = tasks.pop() {
        let worker = number as u16;
        number += 1;
        workers.push_reserved(start_one(scope, rt, alloc, gate, refused, worker, task));
    }
    workers
}

// Joins all threads.
fn join_all<L: Label, G: Gate, R: Threads>(
    rt: &R,
    workers: Vec<Worker<L, G>>,
    mut dones: Vec<Done<L>>,
) -> Vec<Done<L>>
    requires none { dones.items ≡ [] }
    requires room { vec_len workers ≤ vec_capacity dones }
    ensures { AllZip (λ w d. MatchResult w
        (λ h. IsDone L.config L.seed (G.says h.promise.gate.value h.promise.worker)
        (G.hears h.promise.gate.value h.promise.worker) h.promise.was.value
        h.promise.asks.value.items d) (λ e. d ≡ e))
        workers.items result.items }
{
    for worker in workers {
        let done = match worker {
            Ok(handle) => handle.join(rt),
            Err(done) => done,
        };
        dones.push_reserved(done);
    }
    dones
}

// Does all tasks, each in a thread of its own.
fn run_all<'s, E, L: Label + Send + Sync + 's, G: Gate + Sync, R: Threads + Wait + Sync>(
    scope: &Scope<'s, E>,
    rt: &'s R,
    alloc: Global,
    gate: &'s G,
    refused: &'s AtomicU64,
    crew: Crew<'s, L, G>,
) -> Vec<Done<L>>
    ensures len { vec_len result ≡ vec_len crew.entry.tasks }
    ensures each { AllNumbered (λ n j d. IsDone L.config L.seed (G.says gate.now n)
        (G.hears gate.now n) j.seat j.asks.items d) 0
        (map (λ t. t.job) (reverse crew.entry.tasks.items)) result.items }
{
    let Crew {
        tasks,
        workers,
        dones,
    } = crew;
    let workers = start_all(scope, rt, alloc, gate, refused, tasks, workers);
    join_all(rt, workers, dones)
}

/// Makes the calls of each job in a thread of its own, and joins all threads: what each of them hands
/// back stands in the order of the jobs. The jobs themselves are handed back where memory was refused
/// before any thread started.
pub fn run_workers<'a, L: Label + Send + Sync, G: Gate + Sync, R: Threads + Wait + Sync>(
    rt: &R,
    alloc: Global,
    jobs: Vec<Job<'a, L>>,
    gate: &G,
) -> Result<Vec<Done<L>>, Vec<Job<'a, L>>>
    requires number { vec_len jobs ≤ 65536 }
    requires few { All (λ j. vec_len j.asks < 2 ^ 32) jobs.items }
    ensures len { IfOk result (λ ds. vec_len ds ≡ vec_len jobs.entry) }
    ensures done { IfOk result (λ ds. AllNumbered (λ n j d. IsDone L.config
        L.seed (G.says gate.now n) (G.hears gate.now n) j.seat j.asks.items d) 0
        jobs.entry.items ds.items) }
    ensures back { IfErr result (λ js. js.items ≡ jobs.entry.items) }
{
    let Ok(workers) = Vec::with_capacity(alloc, jobs.len()) else {
        return Err(jobs);
    };
    let Ok(dones) = Vec::with_capacity(alloc, jobs.len()) else {
        return Err(jobs);
    };
    let tasks = prepared(alloc, jobs)?;
    let crew = Crew {
        tasks,
        workers,
        dones,
    };
    let refused = AtomicU64::new(0);
    let refused = &refused;
    Ok(thread::scope(
        thread::scope_env(),
        rt,
        |scope| -> Vec<Done<L>>
            ensures len { vec_len result ≡ vec_len crew.entry.tasks }
            ensures each { AllNumbered (λ n j d. IsDone L.config L.seed (G.says gate.entry.now n)
                (G.hears gate.entry.now n) j.seat j.asks.items d) 0
                (map (λ t. t.job) (reverse crew.entry.tasks.items)) result.items }
        { run_all(scope, rt, alloc, gate, refused, crew) },
    ))
}
