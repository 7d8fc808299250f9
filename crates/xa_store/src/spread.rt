//! Tasks on threads of their own.
ghost use Rattle.std.specs.{Prelude.{◌≡◌, ◌≤◌, ◌⊎◌, ◌++◌, [], ◌∷◌, Ok, Err, IfOk, IfErr}, List.AllZip};
ghost use Rattle.xa_store.specs.{Spread.StopsSome, Lowest.{Joins, IsTold}};

use crate::RaceFault;
use crate::first_fault::FirstFault;
use crate::task::Task;
use std::alloc::Global;
use std::snapshot::Snapshot;
use std::sync::Wait;
use std::thread;
use std::thread::{Promise, Scope, Threads};

/// A thread's promise about the value that it returns.
#[derive(Drop)]
struct DoesItsPart<T>(Snapshot<T>);

impl<T: Task> Promise<Result<T::Gain, RaceFault>> for DoesItsPart<T> {
    ghost kept_by = { λ promise ended. IfOk ended (T.gains promise.0.value) × IfErr ended (T.stops promise.0.value) };
}

/// The fault that is returned if one more task stops with the fault `own`. `others` is what the tasks before it came
/// to. If that is a fault, too, the one of the lower session is returned, else `own`.
fn fault_of<D: Drop>(others: Result<Vec<D>, FirstFault>, own: FirstFault) -> FirstFault
    ensures either { (others ≡ Err result) ⊎ (result ≡ own) }
    ensures lowest { (result.session ≤ own.session) × IfErr others
        (λ first_fault. result.session ≤ first_fault.session) }
{
    if let Err(first_fault) = &others {
        return (*first_fault).or(own);
    }
    own
}

/// Appends `ended`, what one more task returned, to what all others returned. `number` is that of its session.
/// Error: of all these faults that of the lowest session; `NoMemory` of no session if there is none and the list can't
/// grow.
fn join_task<D: Drop>(
    others: Result<Vec<D>, FirstFault>,
    number: u64,
    ended: Result<D, RaceFault>,
) -> Result<Vec<D>, FirstFault>
    ensures ok { IfOk result
        (λ all. (before : _) × (gain : _) × (others ≡ Ok before) × (ended ≡ Ok gain)
        × (all.items ≡ before.items ++ gain ∷ [])) }
    ensures err { IfErr result
        (λ first_fault. (others ≡ Err first_fault) ⊎ (ended ≡ Err first_fault.fault)
        ⊎ (first_fault.fault ≡ RaceFault.NoMemory)) }
    ensures lowest { IfErr result (Joins others number ended) }
{
    let gain = match ended {
        Ok(gain) => gain,
        // The others may have a fault, too: `fault_of` takes that of the lower session.
        Err(fault) => return Err(fault_of(others, FirstFault::of(number, fault))),
    };
    let mut all = match others {
        Ok(all) => all,
        Err(first_fault) => return Err(first_fault),
    };
    match all.push(gain) {
        Ok(()) => Ok(all),
        Err(_) => Err(FirstFault::outside()),
    }
}

/// Gives each task a thread of its own, and waits for all of them. All start before the first is waited for. Returns
/// what they returned, in their order.
///
/// Errors: of all faults that of the lowest session; a task whose thread isn't started has the fault `ThreadRefused`.
/// `NoMemory` of no session if a list can't grow and no task has a fault. What the others returned is dropped then.
fn spread<'s, E, T: Task + Send + Drop + 's, R: Threads + Wait + Sync>(
    scope: &Scope<'s, E>,
    rt: &'s R,
    alloc: Global,
    mut tasks: Vec<T>,
) -> Result<Vec<T::Gain>, FirstFault>
where
    T::Gain: Send + Drop + 's,
    ensures ok { IfOk result (λ all. AllZip T.gains tasks.items all.items) }
    ensures err { IfErr result (λ first_fault. StopsSome T.stops tasks.items first_fault.fault) }
    ensures lowest { IfErr result (IsTold T.number_of T.gains T.stops tasks.items) }
{
    let Some(task) = tasks.pop() else {
        return Ok(Vec::new(alloc));
    };
    // The task moves to its thread, so its number is kept for a fault.
    let number = task.number().get();
    let thread = scope.spawn_with(DoesItsPart(Snapshot::of(&task)), move || task.work(rt));
    // The other tasks are started before this one's thread is waited for. This one is the last of the list, so what it
    // returns is appended to what they return.
    let others = spread(scope, rt, alloc, tasks);
    match thread {
        Ok(thread) => join_task(others, number, thread.join(rt)),
        Err(_) => join_task(others, number, Err(RaceFault::ThreadRefused)),
    }
}

/// Gives each task a thread of its own, and waits for all of them. Returns what they returned, in their order.
///
/// Errors: of all faults that of the lowest session; a task whose thread couldn't be started has the fault
/// `ThreadRefused`. `NoMemory` of no session only if no task has a fault. What the others returned is dropped then. May
/// return `NoMemory`. Waits for its threads, which may wait.
/// Own rule: docs/RATTLE.md#races.
pub fn run_all<T: Task + Send + Drop, R: Threads + Wait + Sync>(
    rt: &R,
    alloc: Global,
    tasks: Vec<T>,
) -> Result<Vec<T::Gain>, FirstFault>
where
    T::Gain: Send + Drop,
    // Proved (stores, tasks-each-done): Running tasks returns what each has done, in their order.
    ensures ok { IfOk result (λ all. AllZip T.gains tasks.items all.items) }
    // Proved (stores, tasks-lowest-fault): The fault of tasks is that of the lowest session that has one. A task of
    //   it stops with that fault, or has no thread. Memory is missing outside of the tasks only if each has done its
    //   part.
    ensures err { IfErr result (λ first_fault. StopsSome T.stops tasks.items first_fault.fault) }
    // Proved (stores, tasks-lowest-fault)
    ensures lowest { IfErr result (IsTold T.number_of T.gains T.stops tasks.items) }
{
    thread::scope(
        thread::scope_env(),
        rt,
        |scope| -> Result<Vec<T::Gain>, FirstFault>
            ensures ok { IfOk result (λ all. AllZip T.gains tasks.items all.items) }
            ensures err { IfErr result (λ first_fault. StopsSome T.stops tasks.items first_fault.fault) }
            ensures lowest { IfErr result (IsTold T.number_of T.gains T.stops tasks.items) }
        { spread(scope, rt, alloc, tasks) },
    )
}
