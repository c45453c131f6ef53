//! The board: turns of two seats, and threads that share it.

ghost use Rattle.std.specs.Prelude.{◌≡◌, ◌≤◌, All, IfOk, IfSome, vec_len};
ghost use Rattle.pawk_board.specs.Claims.{IsUndone, HasClaimed};
ghost use Rattle.pawk_board.specs.Limits.{most_chunks};
ghost use Rattle.pawk_board.specs.Views.{fresh};

use pawk_board::{Board, BoardSeat, Claim};
use std::alloc::{AllocError, Global};
use std::test::Fail;
use std::thread;

/// A board with two seats.
pub(crate) fn two_seats(
    alloc: Global,
    chunks: u64,
) -> Result<(Board, BoardSeat, BoardSeat), AllocError>
    requires { chunks ≤ most_chunks }
    ensures { IfOk result (λ r. (r.0.chunks ≡ chunks) × (r.0.workers ≡ 2)
        × (r.1 ≡ fresh r.0.id) × (r.2 ≡ fresh r.0.id)) }
{
    let (board, mut seats) = Board::new(alloc, chunks, 2)?;
    let Some(b) = seats.pop() else {
        return Err(AllocError);
    };
    let Some(a) = seats.pop() else {
        return Err(AllocError);
    };
    Ok((board, a, b))
}

/// The counter and the stop of a board whose two seats came back.
fn close(alloc: Global, board: Board, a: BoardSeat, b: BoardSeat) -> Result<(u64, u64), AllocError>
    requires workers { board.workers ≡ 2 }
    requires first { a.board ≡ board.id }
    requires second { b.board ≡ board.id }
{
    let mut seats = Vec::new(alloc);
    seats.push(a)?;
    seats.push(b)?;
    let tally = board.finish(seats);
    Ok((tally.counter(), tally.stop()))
}

/// Claims, and gives the number of the chunk, where one is left.
fn claim_chunk(board: &Board, seat: &mut BoardSeat) -> Option<u64>
    requires board { seat.old.board ≡ board.now.id }
    requires undone { IsUndone board.now.chunks seat.old.hand }
    ensures board { seat.new.board ≡ seat.old.board }
    ensures undone { IfSome result (λ _. IsUndone board.now.chunks seat.new.hand) }
    ensures claimed { IfSome result (HasClaimed board.now.chunks seat.new.hand) }
{
    match board.claim(seat) {
        Claim::Chunk(n) => Some(n),
        Claim::Done => None,
    }
}

/// One seat claims, then the other, then the first again: the first number, and whether no chunk was left then.
fn take_turns(board: &Board, a: &mut BoardSeat, b: &mut BoardSeat) -> Option<(u64, bool, bool)>
    requires first { a.old ≡ fresh board.now.id }
    requires second { b.old ≡ fresh board.now.id }
    ensures { IfSome result (λ _.
        (a.new.board ≡ board.now.id) × (b.new.board ≡ board.now.id)) }
{
    let first = claim_chunk(board, a)?;
    let second = claim_chunk(board, b);
    let third = claim_chunk(board, a);
    Some((first, second.is_none(), third.is_none()))
}

// One chunk and two seats.
#[test]
fn one_chunk_for_two_seats(rt: HostRuntime) -> Result<(), Fail> {
    let (board, mut a, mut b) = two_seats(rt.alloc(), 1)?;
    let Some(turns) = take_turns(&board, &mut a, &mut b) else {
        return Err(Fail::from("no chunk"));
    };
    let words = close(rt.alloc(), board, a, b)?;
    assert!(rt; turns == (0, true, true));
    assert!(rt; words == (3, 1));
    Ok(())
}

/// One seat claims chunk 0, the other claims chunk 1 and reports it as a stop: whether the first then is past it with
/// chunk 0.
fn tell_one(board: &Board, a: &mut BoardSeat, b: &mut BoardSeat) -> Option<bool>
    requires first { a.old ≡ fresh board.now.id }
    requires second { b.old ≡ fresh board.now.id }
    ensures first { IfSome result (λ _.
        (a.new.board ≡ board.now.id) × IsUndone board.now.chunks a.new.hand) }
    ensures second { IfSome result (λ _.
        (b.new.board ≡ board.now.id) × IsUndone board.now.chunks b.new.hand) }
{
    let zero = claim_chunk(board, a)?;
    let one = claim_chunk(board, b)?;
    board.stop_at(b, one);
    Some(board.past_stop(a, zero))
}

/// Claims a chunk, and says whether it lies past a stop.
fn claim_and_look(board: &Board, seat: &mut BoardSeat) -> Option<(u64, bool)>
    requires board { seat.old.board ≡ board.now.id }
    requires undone { IsUndone board.now.chunks seat.old.hand }
    ensures board { seat.new.board ≡ seat.old.board }
    ensures undone { IfSome result (λ _. IsUndone board.now.chunks seat.new.hand) }
{
    let chunk = claim_chunk(board, seat)?;
    Some((chunk, board.past_stop(seat, chunk)))
}

/// What a seat claims after that, until it is told that no chunk is left.
fn claim_rest(board: &Board, seat: &mut BoardSeat) -> Option<((u64, bool), (u64, bool), bool)>
    requires board { seat.old.board ≡ board.now.id }
    requires undone { IsUndone board.now.chunks seat.old.hand }
    ensures { seat.new.board ≡ seat.old.board }
{
    let two = claim_and_look(board, seat)?;
    let three = claim_and_look(board, seat)?;
    Some((two, three, claim_chunk(board, seat).is_none()))
}

// A stop that one seat reported is seen by the other, which did not report it.
#[test]
fn a_stop_is_seen(rt: HostRuntime) -> Result<(), Fail> {
    let (board, mut a, mut b) = two_seats(rt.alloc(), 4)?;
    let Some(before) = tell_one(&board, &mut a, &mut b) else {
        return Err(Fail::from("no chunk for each"));
    };
    let rest = claim_rest(&board, &mut a);
    let last = claim_chunk(&board, &mut b);
    let (counter, stop) = close(rt.alloc(), board, a, b)?;
    assert!(rt; !before && last.is_none() && rest == Some(((2, true), (3, true), true)));
    assert!(rt; counter == 6 && stop == 1);
    Ok(())
}

// Without a chunk there is nothing to claim, and the chunk count is no stop that was reported.
#[test]
fn no_chunk(rt: HostRuntime) -> Result<(), Fail> {
    let (board, mut a, b) = two_seats(rt.alloc(), 0)?;
    let past = board.past_stop(&mut a, 7);
    let first = claim_chunk(&board, &mut a);
    let words = close(rt.alloc(), board, a, b)?;
    assert!(rt; !past && first.is_none());
    assert!(rt; words == (1, 0));
    Ok(())
}

/// A claim by each seat in turn, and how many got a chunk, each the next one.
fn each_claims(
    alloc: Global,
    board: &Board,
    seats: Vec<BoardSeat>,
) -> Result<(Vec<BoardSeat>, u64), AllocError>
    requires { All (λ s. s ≡ fresh board.now.id) seats.items }
    ensures board { IfOk result (λ r. All (λ s. s.board ≡ board.now.id) r.0.items) }
    ensures all { IfOk result (λ r. vec_len r.0 ≡ vec_len seats) }
{
    let mut back = Vec::new(alloc);
    let mut next = 0u64;
    for mut seat in seats {
        if board.claim(&mut seat) == Claim::Chunk(next) {
            next = next.wrapping_add(1);
        }
        back.push(seat)?;
    }
    Ok((back, next))
}

// As many seats as a board can have, and five chunks.
#[test]
fn sixty_four_seats(rt: HostRuntime) -> Result<(), Fail> {
    let (board, seats) = Board::new(rt.alloc(), 5, 64)?;
    let (seats, got) = each_claims(rt.alloc(), &board, seats)?;
    assert!(rt; seats.len() == 64 && got == 5);
    let tally = board.finish(seats);
    assert!(rt; tally.counter() == 64 && tally.stop() == 5);
    Ok(())
}

/// What a thread drew before it was told that no chunk is left.
#[derive(Drop)]
struct BoardShare {
    seat: BoardSeat,
    count: u64,
    sum: u64,
}

/// Draws until no chunk is left, and reports the chunk `last` as a stop if it draws it.
fn draws_all(board: &Board, mut seat: BoardSeat, last: u64) -> BoardShare
    requires board { seat.board ≡ board.now.id }
    requires undone { IsUndone board.now.chunks seat.hand }
    ensures { result.seat.board ≡ board.now.id }
{
    let mut count = 0u64;
    let mut sum = 0u64;
    while let Claim::Chunk(n) = board.claim(&mut seat) {
        if n == last {
            board.stop_at(&mut seat, n);
        }
        count = count.wrapping_add(1);
        sum = sum.wrapping_add(n);
    }
    BoardShare { seat, count, sum }
}

/// Whether a seat sees the stop: chunk 70,001 lies past it, and chunk 70,000 does not.
fn sees_stop(board: &Board, seat: &mut BoardSeat) -> bool
    requires { seat.old.board ≡ board.now.id }
    ensures { seat.new.board ≡ seat.old.board }
{
    let past = board.past_stop(seat, 70_001);
    past && !board.past_stop(seat, 70_000)
}

// Two threads share the numbers of one board: 0 + 1 + .. + 99999 is 4999950000. Both seats see the stop, of which
// one reported it.
#[test]
fn two_threads(rt: HostRuntime) -> Result<(), Fail> {
    let (board, a, b) = two_seats(rt.alloc(), 100_000)?;
    let shared = &board;
    let (first, second) = thread::join(
        &rt,
        move || draws_all(shared, a, 70_000),
        move || draws_all(shared, b, 70_000),
    );
    let count = first.count.wrapping_add(second.count);
    let sum = first.sum.wrapping_add(second.sum);
    let (mut a, mut b) = (first.seat, second.seat);
    let seen = sees_stop(&board, &mut a) && sees_stop(&board, &mut b);
    let words = close(rt.alloc(), board, a, b)?;
    assert!(rt; seen && (count, sum) == (100_000, 4_999_950_000));
    assert!(rt; words == (100_002, 70_000));
    Ok(())
}
