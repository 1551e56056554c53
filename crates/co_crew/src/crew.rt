//! The workers of a board.

ghost use Rattle.std.specs.Prelude.{ℕ, ◌≡◌, ◌<◌, ◌≤◌, ◌^◌, ◌++◌, ◌&&◌, List, [], All, IfOk, OnOk, length, map, true, false, vec_capacity};
ghost use Rattle.co_board.specs.Once.{sum_below};
ghost use Rattle.co_switch.specs.Steps.{raised, HasRisen};
ghost use Rattle.co_board.specs.declared.board.TheConstants.{MOST_WORKERS};
ghost use Rattle.co_crew.specs.Crew.{IsBegun, IsRun, IsWhole};

use crate::work::Work;
use co_board::{Board, Gate, Pass};
use co_switch::Steps;
use std::alloc::{AllocError, Global};
use std::thread;
use std::thread::Threads;

/// A worker with its pass, the sum of its units, its steps, and whether no unit is left for it.
#[derive(Drop)]
struct Worker<S, L> {
    pass: Pass,
    sum: S,
    steps: Steps<L>,
    done: bool,
}

/// Claims units until none is left, or memory is wanting.
fn run_worker<S, L, W: Work<S, L>, G: Gate>(
    board: &Board,
    gate: &G,
    work: &W,
    worker: &mut Worker<S, L>,
)
    requires units { board.now.units ≡ W.units work.now }
    requires pass { (worker.old.pass.board ≡ board.now) × (worker.old.pass.drawn ≡ []) }
    requires begins { W.is_sum work.now [] worker.old.sum × (worker.old.steps ≡ 0)
        × (worker.old.done ≡ false) }
    ensures pass { (worker.new.pass.board ≡ worker.old.pass.board)
        × (worker.new.pass.number ≡ worker.old.pass.number) }
    ensures run { IsRun (W.is_sum work.now) board.now.units (W.cost work.now) worker.new.pass.drawn
        worker.new.sum worker.new.steps worker.new.done }
{
    let Worker {
        pass,
        sum,
        steps,
        done,
    } = worker;
    while let Some(unit) = board.claim(pass) {
        gate.begin(unit);
        match work.add(unit, sum, steps) {
            Ok(()) => {}
            Err(_) => return,
        }
    }
    *done = true;
}

/// A worker for each pass.
fn crew_of<S: Drop, L, W: Work<S, L>>(
    alloc: Global,
    passes: Vec<Pass>,
    steps: &Steps<L>,
    work: &W,
) -> Result<Vec<Worker<S, L>>, AllocError>
    ensures passes { IfOk result (λ crew. map (λ w. w.pass) crew.items ≡ passes.items) }
    ensures fresh { IfOk result (λ crew. All (λ w. W.is_sum work.now [] w.sum × (w.steps ≡ 0)
        × (w.done ≡ false)) crew.items) }
{
    let mut crew = Vec::with_capacity(alloc, passes.len())?;
    for pass in passes {
        let worker = Worker {
            pass,
            sum: work.none()?,
            steps: steps.part(),
            done: false,
        };
        crew.push(worker)?;
    }
    Ok(crew)
}

/// Adds a worker's sum, where all so far are done and so is it.
fn merge_done<S: Drop, L, W: Work<S, L>>(
    work: &W,
    sum: &mut S,
    done: bool,
    own: S,
    all: bool,
) -> bool
    requires begun { done ≡ true → IsBegun (W.is_sum work.now) sum.old }
    requires own_begun { all ≡ true → IsBegun (W.is_sum work.now) own }
    ensures done { result ≡ (done && all) }
    ensures sum { done ≡ true → all ≡ true → (us vs : List ℕ) → W.is_sum work.now us sum.old
        → W.is_sum work.now vs own → W.is_sum work.now (us ++ vs) sum.new }
{
    if done {
        if all {
            work.merge(sum, own);
            return true;
        }
    }
    false
}

/// Adds up what the workers did, takes in their steps, and closes the board.
fn gather<S: Drop, L, W: Work<S, L>>(
    board: Board,
    crew: Vec<Worker<S, L>>,
    mut passes: Vec<Pass>,
    mut sum: S,
    work: &W,
    steps: &mut Steps<L>,
) -> Result<S, AllocError>
    requires seats { (1 ≤ board.seats) × (length crew.items ≡ board.seats) }
    requires none { W.is_sum work.now [] sum }
    requires room { (passes.items ≡ []) × (board.seats ≤ vec_capacity passes) }
    requires board { All (λ w. w.pass.board ≡ board) crew.items }
    requires run { All (λ w. IsRun (W.is_sum work.now) board.units (W.cost work.now) w.pass.drawn
        w.sum w.steps w.done) crew.items }
    ensures sum { IfOk result (IsWhole (W.is_sum work.now) board.units) }
    ensures steps { OnOk result (steps.new ≡ raised steps.old
        (sum_below board.units (W.cost work.now))) }
    ensures rise { HasRisen steps.old (sum_below board.units (W.cost work.now)) steps.new }
{
    let mut done = true;
    for worker in crew {
        let Worker {
            pass,
            sum: own,
            steps: part,
            done: all,
        } = worker;
        done = merge_done(work, &mut sum, done, own, all);
        steps.take_in(part);
        let Ok(()) = passes.push(pass) else {
            unreachable!()
        };
    }
    board.close(passes);
    if done { Ok(sum) } else { Err(AllocError) }
}

/// Each worker in a thread of its own.
fn run_all<R: Threads + Sync, S: Send, L, W: Work<S, L>, G: Gate>(
    rt: &R,
    board: &Board,
    gate: &G,
    work: &W,
    crew: &mut [Worker<S, L>],
)
    requires some { 0 < length crew.old }
    requires units { board.now.units ≡ W.units work.now }
    requires ready { All (λ w. (w.pass.board ≡ board.now) × (w.pass.drawn ≡ [])
        × W.is_sum work.now [] w.sum × (w.steps ≡ 0) × (w.done ≡ false)) crew.old }
    ensures board { All (λ w. w.pass.board ≡ board.now) crew.new }
    ensures run { All (λ w. IsRun (W.is_sum work.now) board.now.units (W.cost work.now) w.pass.drawn
        w.sum w.steps w.done) crew.new }
{
    let threads = crew.len();
    thread::for_each_mut(
        rt,
        crew,
        threads,
        &|_, worker: &mut Worker<S, L>|
            requires { (board.now.units ≡ W.units work.now) × (worker.now.pass.board ≡ board.now)
                × (worker.now.pass.drawn ≡ []) × W.is_sum work.now [] worker.now.sum
                × (worker.now.steps ≡ 0) × (worker.now.done ≡ false) }
        { run_worker(board, gate, work, worker) },
    );
}

/// The sum of what all units add, each added once, by this many workers. The gate is told of each
/// unit as a worker begins it. After want of memory at most as many steps are counted.
pub fn fan_out<R: Threads + Sync, S: Send + Drop, L, W: Work<S, L>, G: Gate>(
    rt: &R,
    alloc: Global,
    units: u64,
    workers: u32,
    gate: &G,
    work: &W,
    steps: &mut Steps<L>,
) -> Result<S, AllocError>
    requires units { (units ≡ W.units work.now) × (units ≤ 2 ^ 32) }
    requires workers { (1 ≤ workers) × (workers ≤ MOST_WORKERS) }
    ensures sum { IfOk result (IsWhole (W.is_sum work.now) units) }
    ensures steps { OnOk result (steps.new ≡ raised steps.old (sum_below units (W.cost work.now))) }
    ensures rise { HasRisen steps.old (sum_below units (W.cost work.now)) steps.new }
{
    let (board, fresh) = Board::new(alloc, units, workers)?;
    let passes = Vec::with_capacity(alloc, fresh.len())?;
    let sum = work.none()?;
    let mut crew = crew_of(alloc, fresh, steps, work)?;
    run_all(rt, &board, gate, work, crew.as_mut_slice());
    gather(board, crew, passes, sum, work, steps)
}
