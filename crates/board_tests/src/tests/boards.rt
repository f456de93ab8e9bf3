//! Tests of the board, by workers on threads.

ghost use Rattle.std.specs.Prelude.{◌≡◌, ◌≢◌, ℕ, ◌+◌, ◌<◌, ◌≤◌, ◌==◌, [], All, length, slice_index_or, vec_len, IfOk};
ghost use Rattle.effect_board.specs.Handles.{view_of, tasks_of, tags_of, is_alone, IsSeatOf};
ghost use Rattle.effect_board.specs.Views.{first_with};
ghost use Rattle.board_tests.specs.Workers.{IsWorker, IsLater, IsSame, IsGathering, IsSmall};
ghost use Rattle.effect_board.specs.declared.handles.Seat.{Seat as SeatOf};

use crate::tests::equal::assert_equal;
use effect_board::{
    EffectBoard, Seat, cells_give_what_is_held, claims_are_counted, misses_come_last,
    steps_are_events,
};
use effect_combine::{Batch, Combined};
use sgl_outside::{Gate, MeetGate, OpenGate};
use sgl_values::{Amount, List, Memory, Num, Tag, WORKERS_MAX};
use std::alloc::Global;
use std::test::Fail;
use std::thread;
use std::thread::Threads;
use test_cases::one;

const TASKS: u32 = 100;

#[test]
fn one_task_and_one_amount(rt: HostRuntime) -> Result<(), Fail> {
    let tags = one(rt.alloc(), Tag::Sum)?;
    let (board, mut seat) = EffectBoard::new(rt.alloc(), 1, &tags, 1, false)?;
    assert_equal(&rt, &board.claim(&mut seat), &Some(0));
    let mut batch = Batch::new(rt.alloc(), &tags)?;
    let _ = batch.add(0, 0, Amount::plain(Num::whole(5)));
    board.deposit(&mut seat, &mut batch);
    assert!(rt; batch.is_empty() && !seat.done());
    assert_equal(&rt, &board.claim(&mut seat), &None);
    assert!(rt; seat.done() && seat.may_split());
    assert_equal(&rt, &board.close(seat).word(0, 0), &5);
    Ok(())
}

#[test]
fn laws_are_called() {
    steps_are_events();
    claims_are_counted();
    misses_come_last();
    cells_give_what_is_held();
}

// Gives the number of a task, with its last digit as priority, to each of four attributes of one of two rows.
fn run_task(board: &EffectBoard, seat: &mut Seat, batch: &mut Batch, task: u32)
    requires worker { IsWorker board.now seat.old }
    requires board { IsSmall board.now }
    requires tags { length batch.old.tags ≡ 4 }
    requires empty { batch.old.cells ≡ [] }
    ensures worker { IsWorker board.now seat.new }
    ensures same { IsSame seat.old seat.new }
    ensures tags { length batch.new.tags ≡ 4 }
    ensures empty { batch.new.cells ≡ [] }
    ensures misses { (view_of seat.new).misses ≡ (view_of seat.old).misses }
{
    let Some(amount) = Amount::new(Num::whole(task), task % 10) else {
        return;
    };
    for attr in 0..4 {
        let _ = batch.add(task % 2, attr, amount);
        board.deposit(seat, batch);
    }
}

// Claims tasks and runs them until none is left.
fn work<G: Gate>(
    alloc: Global,
    tags: &List<Tag>,
    gate: &G,
    board: &EffectBoard,
    seat: &mut Seat,
    worker: usize,
)
    requires worker { IsWorker board.now seat.old }
    requires board { IsSmall board.now }
    requires tags { length tags.now ≡ 4 }
    ensures worker { IsWorker board.now seat.new }
    ensures same { IsSame seat.old seat.new }
{
    let Ok(mut batch) = Batch::new(alloc, tags) else {
        return;
    };
    for _ in 0..TASKS + 1 {
        if seat.done() {
            break;
        }
        if let Some(task) = board.claim(seat) {
            gate.pass(u32::try_from(worker).unwrap_or(WORKERS_MAX), task);
            run_task(board, seat, &mut batch, task);
        }
    }
}

// The seats of so many workers besides the first.
fn seats_for(
    alloc: Global,
    board: &EffectBoard,
    first: &mut Seat,
    workers: u32,
) -> Result<Vec<Seat>, Memory>
    requires workers { workers ≤ 63 }
    requires alone { is_alone board.now ≡ (workers == 0) }
    requires of { IsSeatOf board.now first.old }
    requires new { view_of first.old ≡ first_with (tasks_of board.now) (tags_of board.now) 1 }
    ensures of { IsSeatOf board.now first.new }
    ensures first { view_of first.new ≡ first_with (tasks_of board.now) (tags_of board.now) (view_of first.new).made }
    ensures made { IfOk result (λ seats. (view_of first.new).made ≡ vec_len seats + 1) }
    ensures workers { IfOk result (λ seats. All (IsWorker board.now) seats.items) }
    ensures later { IfOk result (λ seats. All IsLater seats.items) }
{
    let mut seats = Vec::new(alloc);
    for _ in 0..workers {
        seats.push(board.split(first))?;
    }
    Ok(seats)
}

// Each worker works on a thread of its own.
fn work_all<G: Gate, R: Threads + Sync>(
    rt: &R,
    alloc: Global,
    tags: &List<Tag>,
    gate: &G,
    board: &EffectBoard,
    mut seats: Vec<Seat>,
) -> Vec<Seat>
    requires some { 0 < length seats.items }
    requires workers { All (IsWorker board.now) seats.items }
    requires board { IsSmall board.now }
    requires tags { length tags.now ≡ 4 }
    ensures long { length result.items ≡ length seats.items }
    ensures workers { All (IsWorker board.now) result.items }
    ensures same { (i : ℕ) (d : SeatOf) → i < length seats.items → IsSame (slice_index_or seats.items i d) (slice_index_or result.items i d) }
{
    let threads = seats.len();
    thread::for_each_mut(
        rt,
        seats.as_mut_slice(),
        threads,
        &|worker, seat: &mut Seat|
            requires worker { IsWorker board.now seat.old }
            requires board { IsSmall board.now }
            requires tags { length tags.now ≡ 4 }
        { work(alloc, tags, gate, board, seat, worker) },
    );
    seats
}

// All others are joined into the first seat.
fn gather(board: &EffectBoard, first: &mut Seat, mut seats: Vec<Seat>)
    requires others { All (IsWorker board.now) seats.items }
    requires later { All IsLater seats.items }
    requires first { IsGathering board.now (vec_len seats) first.old }
    ensures { IsGathering board.now 0 first.new }
{
    while let Some(seat) = seats.pop() {
        board.join(first, seat);
    }
}

// The words of so many workers. The first seat stands last among them.
fn run<G: Gate, R: Threads + Sync>(
    rt: &R,
    alloc: Global,
    gate: &G,
    workers: u32,
) -> Result<Combined, Memory>
    requires { (0 < workers) × (workers ≤ 64) }
    ensures { IfOk result (λ words. (words.rows ≡ 2) × (words.width ≡ 4)) }
{
    let tags = List::from_vec(vec![in alloc; Tag::Sum, Tag::Min, Tag::Max, Tag::Top]?);
    let (board, mut first) = EffectBoard::new(alloc, 2, &tags, TASKS, workers == 1)?;
    let mut seats = seats_for(alloc, &board, &mut first, workers - 1)?;
    seats.push(first)?;
    let mut seats = work_all(rt, alloc, &tags, gate, &board, seats);
    let mut first = seats.pop().unwrap();
    gather(&board, &mut first, seats);
    Ok(board.close(first))
}

// The words of a row.
fn words_in(words: &Combined, row: u32) -> [u64; 4]
    requires row { row < words.now.rows }
    requires width { words.now.width ≡ 4 }
{
    [
        words.word(row, 0),
        words.word(row, 1),
        words.word(row, 2),
        words.word(row, 3),
    ]
}

#[test]
fn many_workers_give_what_one_gives(rt: HostRuntime) -> Result<(), Fail> {
    let zero = 1_000_000_000_000;
    let step = 2_199_023_255_552;
    let even = [2450, zero, zero + 99, 8 * step + zero + 99];
    let odd = [2500, zero + 1, zero + 100, 9 * step + zero + 100];
    for workers in [1, 2, 64] {
        let open = run(&rt, rt.alloc(), &OpenGate, workers)?;
        assert_equal(&rt, &[words_in(&open, 0), words_in(&open, 1)], &[even, odd]);
        let gate = MeetGate::new(if workers > 1 { 1_000_000_000 } else { 10 });
        let met = run(&rt, rt.alloc(), &gate, workers)?;
        assert_equal(&rt, &gate.met(), &(workers > 1));
        assert_equal(&rt, &[words_in(&met, 0), words_in(&met, 1)], &[even, odd]);
    }
    Ok(())
}
