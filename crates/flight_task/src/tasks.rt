ghost use Rattle.std.specs.Prelude.{◌≡◌, ◌<◌, ◌^◌, ◌-◌, ◌++◌, ◌∷◌, [], OnOk, OnErr, IfOk, MatchOption, Some, length, map, slice_get};
ghost use Rattle.flight_state.specs.declared.status.Status.TheVariants as status;
ghost use Rattle.flight_task.specs.Tasks.{born, close, stop_at, woken, Changes, Takes, IsRunning, NoneReady, HaveTurns, IsTaskAt};

use crate::queue::{list, next_ready, queue, wake_all};
use crate::task::Task;
use flight_render::What;
use flight_state::Status;
use flight_value::Memory;
use std::alloc::Global;
use std::collections::BTreeSet;
use std::marker::Model;

/// The tasks, which contracts see as the list of them, in the order of their births.
#[derive(Drop)]
pub struct Tasks {
    tasks: Vec<Task>,
    /// The numbers of the tasks that are ready; after want of memory perhaps other numbers too.
    ready: BTreeSet<u32>,
    /// For each source the numbers of the tasks that wait for it, and perhaps of others.
    waiting: Vec<Vec<u32>>,
}

impl Model for Tasks {
    ghost use Rattle.std.specs.Prelude.{List};
    ghost use Rattle.flight_task.specs.declared.task.Task.{Task as ATask};
    ghost use Rattle.flight_task.specs.Tasks.{IsQueued, IsListed};

    ghost Value = { List ATask };

    ghost view = { λ t. t.tasks.items };

    ghost invariant = { λ t. IsQueued t.tasks.items t.ready.keys × IsListed t.tasks.items t.waiting.items };
}

impl Tasks {
    /// No tasks so far.
    pub fn new(alloc: Global) -> Tasks
        ensures { result ≡ [] }
    {
        Tasks {
            tasks: Vec::new(alloc),
            ready: BTreeSet::new(alloc),
            waiting: Vec::new(alloc),
        }
    }

    /// How many tasks were born.
    pub fn len(&self) -> usize
        ensures { result ≡ length self.now }
    {
        self.tasks.len()
    }

    /// The id of the row that a task writes.
    pub fn id(&self, number: u32) -> u32
        requires { number < length self.now }
        ensures { IsTaskAt self.now number (λ task. result ≡ task.id) }
    {
        self.tasks[number as usize].id
    }

    /// What a task is for.
    pub fn what(&self, number: u32) -> &What
        requires { number < length self.now }
        ensures { IsTaskAt self.now number (λ task. result.now ≡ task.what) }
    {
        &self.tasks[number as usize].what
    }

    /// What a task is doing.
    pub fn status(&self, number: u32) -> Status
        requires { number < length self.now }
        ensures { IsTaskAt self.now number (λ task. result ≡ task.status) }
    {
        self.tasks[number as usize].status
    }

    /// A new task, which is ready. Its number is the count of those before.
    pub fn birth(&mut self, id: u32, what: What) -> Result<u32, Memory>
        ensures born { IfOk result (λ number. (number ≡ length self.old) × (self.new ≡ self.old ++ born id what ∷ [])) }
        ensures same { OnErr result (self.new ≡ self.old) }
    {
        let Ok(number) = u32::try_from(self.tasks.len()) else {
            return Err(Memory::past_limit());
        };
        self.ready.insert(number)?;
        self.tasks.push(Task {
            id,
            what,
            status: Status::Ready,
            turns: 0,
        })?;
        Ok(number)
    }

    /// Takes the ready task of the least number: an attempt at it begins.
    pub fn take(&mut self) -> Option<u32>
        requires turns { HaveTurns self.old }
        ensures { MatchOption result (NoneReady self.old × (self.new ≡ self.old)) (λ number. Takes self.old number self.new) }
    {
        let number = next_ready(self.tasks.as_slice(), &mut self.ready)?;
        let task = &mut self.tasks[number as usize];
        task.turns += 1;
        task.status = Status::Running { turn: task.turns };
        Some(number)
    }

    /// An attempt is done with its task.
    pub fn done(&mut self, number: u32)
        requires running { IsRunning self.old number }
        ensures { Changes close number self.old self.new }
    {
        self.tasks[number as usize].status = Status::Done;
    }

    /// An attempt waits for a source.
    pub fn waits(&mut self, number: u32, source: u32) -> Result<(), Memory>
        requires running { IsRunning self.old number }
        ensures waits { OnOk result (Changes (stop_at source) number self.old self.new) }
        ensures same { OnErr result (self.new ≡ self.old) }
    {
        list(&mut self.waiting, source, number)?;
        self.tasks[number as usize].status = Status::Waiting { source };
        Ok(())
    }

    /// The tasks that wait for a source are ready.
    pub fn wake(&mut self, source: u32) -> Result<(), Memory>
        ensures woken { OnOk result (self.new ≡ map (woken source) self.old) }
        ensures same { OnErr result (self.new ≡ self.old) }
    {
        let Some(numbers) = self.waiting.get_mut(source as usize) else {
            return Ok(());
        };
        queue(&mut self.ready, numbers.as_slice())?;
        wake_all(&mut self.tasks, source, numbers.as_slice());
        numbers.clear();
        Ok(())
    }
}
