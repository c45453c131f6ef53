//! Workers in threads.

ghost use Rattle.std.specs.Prelude.{◌≡◌, ◌<◌, All, IfErr, IfOk, vec_len};
ghost use Rattle.pawk_board.specs.Views.{SeatView};
ghost use Rattle.pawk_workers.specs.declared.labour.CrewRefusal.TheVariants.{Thread};

use crate::gate::Gate;
use core::thread::Stack;
use pawk_board::BoardSeat;
use std::alloc::{AllocError, Global};
use std::sync::Wait;
use std::thread;
use std::thread::{Promise, PromisedHandle, Scope, Threads};
use thiserror::Error;

/// Why workers did not run.
#[derive(Clone, Copy, Debug, Drop, Error)]
pub enum CrewRefusal {
    /// Memory was refused.
    #[error("out of memory")]
    Memory,
    /// A worker could not be started.
    #[error("a worker could not be started")]
    Thread,
}

impl From<AllocError> for CrewRefusal {
    fn from(_error: AllocError) -> CrewRefusal {
        CrewRefusal::Memory
    }
}

/// What each worker does with its seat, and that what it hands back is of this labour (`kept_by`). A closure that captures
/// what names a lifetime promises its caller nothing, so the threads run a value of a type parameter.
pub trait Labour<S>: Promise<S> {
    ghost IsReady: { Self → Type 0 };

    ghost first: { Self → SeatView };

    /// How many bytes the stack of a thread has at least that does this, where the system's own is not enough.
    fn stack_bytes(&self) -> Option<usize> {
        None
    }

    /// Works at a seat that has done nothing, and hands back what came of it.
    fn labour<G: Gate>(&self, alloc: Global, seat: BoardSeat, gate: &G) -> S
        requires ready { Self.IsReady self.now }
        requires seat { seat ≡ Self.first self.now }
        ensures { Self.kept_by self.now result };
}

/// A stack of at least this number of bytes, and the system's own where none are asked for.
fn stack_of(bytes: Option<usize>) -> Stack {
    match bytes {
        Some(bytes) => Stack::new().stack_size(bytes),
        None => Stack::new(),
    }
}

/// Starts a thread of the scope for each seat but the last, which has its labour on this thread, and joins them all. A seat whose
/// thread cannot be started has its labour on this thread too, where the gate allows it.
fn in_scope<'s, E, S: Send + Drop + 's, L: Labour<S> + Copy + Sync, G: Gate + Sync, R: Threads>(
    scope: &Scope<'s, E>,
    rt: &R,
    alloc: Global,
    task: &'s L,
    seats: Vec<BoardSeat>,
    gate: &'s G,
) -> Result<Vec<S>, CrewRefusal>
    requires ready { L.IsReady task.now }
    requires seats { All (λ s. s ≡ L.first task.now) seats.items }
    ensures len { IfOk result (λ v. vec_len v ≡ vec_len seats) }
    ensures kept { IfOk result (λ v. All (L.kept_by task.now) v.items) }
    ensures alone { IfErr result (λ e. e ≡ Thread → 1 < vec_len seats) }
{
    let mut others = seats;
    let Some(own) = others.pop() else {
        return Ok(Vec::new(alloc));
    };
    let count = others.len() + 1;
    let Ok(mut shifts) = Vec::with_capacity(alloc, count) else {
        return Err(CrewRefusal::Memory);
    };
    let Ok(mut handles) = Vec::with_capacity(alloc, count) else {
        return Err(CrewRefusal::Memory);
    };
    for seat in others {
        let stack = stack_of(task.stack_bytes());
        let started = stack.spawn_scoped_with(scope, *task, move || task.labour(alloc, seat, gate));
        match started {
            Ok(handle) => handles.push_reserved(handle),
            Err(error) => {
                if !gate.may_lack_thread() {
                    break;
                }
                shifts.push_reserved((error.value)());
            }
        }
    }
    shifts.push_reserved(task.labour(alloc, own, gate));
    for handle in handles {
        shifts.push_reserved(handle.join(rt));
    }
    if shifts.len() < count {
        return Err(CrewRefusal::Thread);
    }
    Ok(shifts)
}

/// A worker for each seat, the last one on this thread, with the stack that it has, and each other in a thread of its own.
/// Where a thread cannot be started the gate is asked whether its worker works on this thread; if not, that is reported as
/// `Thread`, which one seat alone never is. Each has ended when this returns. `Memory` comes where memory was refused
/// before a thread was started.
pub fn all_labour<S: Send + Drop, L: Labour<S> + Copy + Sync, G: Gate + Sync, R: Threads + Wait>(
    rt: &R,
    alloc: Global,
    task: &L,
    seats: Vec<BoardSeat>,
    gate: &G,
) -> Result<Vec<S>, CrewRefusal>
    requires ready { L.IsReady task.now }
    requires seats { All (λ s. s ≡ L.first task.now) seats.items }
    ensures len { IfOk result (λ v. vec_len v ≡ vec_len seats) }
    ensures kept { IfOk result (λ v. All (L.kept_by task.now) v.items) }
    ensures alone { IfErr result (λ e. e ≡ Thread → 1 < vec_len seats) }
{
    thread::scope(
        thread::scope_env(),
        rt,
        |scope| -> Result<Vec<S>, CrewRefusal>
            requires { L.IsReady task.now × All (λ s. s ≡ L.first task.now) seats.items }
            ensures kept { IfOk result (λ v. (vec_len v ≡ vec_len seats)
                × All (L.kept_by task.entry.now) v.items) }
            ensures alone { IfErr result (λ e. e ≡ Thread → 1 < vec_len seats) }
        { in_scope(scope, rt, alloc, task, seats, gate) },
    )
}
