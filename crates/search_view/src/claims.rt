//! Which task each worker was given last, so that no two are given the same one while another is left. No contract
//! rests on it, and it is no part of the state of a search.

use plan_base::BranchId;
use search_machine::Task;
use search_machine::limits::MAX_ROUNDS;
use std::alloc::{AllocError, Global};

/// The last task of each worker, by its number.
#[derive(Drop)]
pub struct Claims {
    /// For each worker the task that it was given last; `Done` for one that has none.
    given: Vec<Task>,
    /// How many of the first workers have been given one.
    workers: usize,
}

/// The node that the task is at.
fn node_of(task: Task) -> Option<BranchId> {
    match task {
        Task::Open { node } => Some(node),
        Task::Price {
            node,
            slot: _slot,
            version: _version,
            demand: _demand,
        } => Some(node),
        Task::Master {
            node,
            version: _version,
        } => Some(node),
        Task::Close { node } => Some(node),
        Task::Examine { node } => Some(node),
        Task::Done => None,
    }
}

impl Claims {
    /// No worker has a task. There is room for as many workers as rounds may be active, and it is taken here.
    ///
    /// - Errors: want of memory alone.
    pub fn none(alloc: Global) -> Result<Claims, AllocError> {
        Ok(Claims {
            given: vec![in alloc; Task::Done; MAX_ROUNDS as usize]?,
            workers: 0,
        })
    }

    /// The node at which the worker was given its last task.
    pub fn last_node(&self, worker: u32) -> Option<BranchId> {
        match self.given.get(worker as usize) {
            Some(task) => node_of(*task),
            None => None,
        }
    }

    /// Whether the task is the last one of another worker.
    pub fn is_taken(&self, task: Task, worker: u32) -> bool {
        for place in 0..self.workers {
            if place != worker as usize && self.given.get(place) == Some(&task) {
                return true;
            }
        }
        false
    }

    /// Gives the worker the task, in place of its last one. A worker for whom there is no room claims nothing.
    pub fn give(&mut self, worker: u32, task: Task) {
        let place = worker as usize;
        if let Some(given) = self.given.get_mut(place) {
            *given = task;
            if self.workers <= place {
                self.workers = place + 1;
            }
        }
    }
}
