ghost use Rattle.std.specs.Prelude.{◌≡◌, ◌≢◌, ◌↔◌, IsTrue, ℕ, ◌<◌, OnOk, length, map};
ghost use Rattle.flight_value.specs.Listed.{In};
ghost use Rattle.flight_task.specs.Tasks.{woken, IsReadyAt, IsFirst, IsQueued, IsQueuedBut, IsIn, IsWaiting, Holds};

use crate::task::Task;
use flight_state::Status;
use flight_value::Memory;
use std::collections::BTreeSet;

/// Whether the task of a number is ready.
fn is_ready(tasks: &[Task], number: u32) -> bool
    ensures { IsTrue result ↔ IsReadyAt tasks.now number }
{
    match tasks.get(number as usize) {
        Some(task) => task.status == Status::Ready,
        None => false,
    }
}

/// Takes the first number of a ready task out of the queue.
pub fn next_ready(tasks: &[Task], ready: &mut BTreeSet<u32>) -> Option<u32>
    requires queued { IsQueued tasks.now ready.old.keys }
    ensures first { IsFirst tasks.now result }
    ensures queued { IsQueuedBut result tasks.now ready.new.keys }
{
    while let Some(number) = ready.pop_first() {
        if is_ready(tasks, number) {
            return Some(number);
        }
    }
    None
}

/// Puts numbers into the queue.
pub fn queue(ready: &mut BTreeSet<u32>, numbers: &[u32]) -> Result<(), Memory>
    ensures kept { (number : ℕ) → In number ready.old.keys → In number ready.new.keys }
    ensures queued { OnOk result ((number : ℕ) → In number numbers.now → In number ready.new.keys) }
{
    for number in numbers {
        ready.insert(*number)?;
    }
    Ok(())
}

/// Makes the lists that the sources up to one do not have yet.
fn make_lists(waiting: &mut Vec<Vec<u32>>, source: u32) -> Result<(), Memory>
    ensures holds { Holds waiting.old.items waiting.new.items }
    ensures there { OnOk result (source < length waiting.new.items) }
{
    let alloc = *waiting.allocator();
    for _ in waiting.len()..source as usize + 1 {
        waiting.push(Vec::new(alloc))?;
    }
    Ok(())
}

/// Puts a number into the list of a source.
pub fn list(waiting: &mut Vec<Vec<u32>>, source: u32, number: u32) -> Result<(), Memory>
    ensures holds { Holds waiting.old.items waiting.new.items }
    ensures listed { OnOk result (IsIn waiting.new.items source number) }
{
    make_lists(waiting, source)?;
    let Some(numbers) = waiting.get_mut(source as usize) else {
        unreachable!()
    };
    numbers.push(number)?;
    Ok(())
}

/// Makes a task ready, if it waits for a source.
fn wake_one(tasks: &mut Vec<Task>, source: u32, number: u32)
    ensures same { map (woken source) tasks.new.items ≡ map (woken source) tasks.old.items }
    ensures left { (other : ℕ) → IsWaiting source tasks.new.items other → IsWaiting source tasks.old.items other × (other ≢ number) }
{
    let Some(task) = tasks.get_mut(number as usize) else {
        return;
    };
    if task.status == (Status::Waiting { source }) {
        task.status = Status::Ready;
    }
}

/// Makes those of these tasks ready that wait for a source.
pub fn wake_all(tasks: &mut Vec<Task>, source: u32, numbers: &[u32])
    requires { (number : ℕ) → IsWaiting source tasks.old.items number → In number numbers.now }
    ensures { tasks.new.items ≡ map (woken source) tasks.old.items }
{
    for number in numbers {
        wake_one(tasks, source, *number);
    }
}
