//! Threads that work side by side until the input ends.
use crate::fault::ServeFault;
use apd_site::read_to_its_end;
use std::alloc::Global;
use std::io::Read;
use std::sync::Wait;
use std::thread::{self, JoinHandle, Scope, Threads};
use std::time::Clock;

/// What one thread does, with what it owns.
pub(crate) trait Job<X> {
    /// Works until it is told to stop, and gives back what it owns.
    fn work(self, shared: &X) -> Self;
}

/// What the threads share.
pub(crate) trait Stops {
    /// Logs that each job has its thread.
    fn tell_started(&self);

    /// Tells those that work to stop.
    fn stop(&self);
}

// Starts a thread for each job. Tells whether each has one; after the first that can't be made no other is started.
fn start_all<'s, E, X: Sync + 's, J: Job<X> + Send + Drop + 's>(
    scope: &Scope<'s, E>,
    shared: &'s X,
    jobs: Vec<J>,
    threads: &mut Vec<JoinHandle<J>>,
) -> bool {
    for job in jobs {
        let Ok(thread) = scope.spawn(move || job.work(shared)) else {
            return false;
        };
        if threads.push(thread).is_err() {
            return false;
        }
    }
    true
}

/// Does each job in a thread of its own until the input ends or fails, then stops them all, and gives the jobs back
/// once each thread has ended. It takes its memory before it starts a thread. Once each has one, that is told, and only
/// then the input is read.
///
/// Errors: `Thread` where one can't be made: those that run are stopped, and have ended, and nothing was told;
/// `NoMemory`, and none was started.
pub(crate) fn work_until_end<
    W: Wait + Threads + Clock,
    X: Stops + Sync,
    J: Job<X> + Send + Drop,
    B: Read,
>(rt: &W, alloc: Global, shared: &X, jobs: Vec<J>, reader: &mut B) -> Result<Vec<J>, ServeFault> {
    let mut threads = Vec::with_capacity(alloc, jobs.len())?;
    let mut ended = Vec::with_capacity(alloc, jobs.len())?;
    let all = thread::scope(thread::scope_env(), rt, |scope| {
        let started = start_all(scope, shared, jobs, &mut threads);
        if started {
            shared.tell_started();
            read_to_its_end(rt, reader);
        }
        shared.stop();
        for thread in threads {
            if ended.push(thread.join(rt)).is_err() {
                return false;
            }
        }
        started
    });
    if all {
        Ok(ended)
    } else {
        Err(ServeFault::Thread)
    }
}

/// Does one thing while a thread of its own does another, and gives what it came to once both have ended; none where no
/// thread can be made, and then neither is done.
pub(crate) fn run_beside<W: Wait + Threads, T, A: FnOnce() + Send + Drop, B: FnOnce() -> T + Drop>(
    rt: &W,
    other: A,
    own: B,
) -> Option<T>
    requires other { A.IsAlwaysCallable other }
    requires own { B.IsAlwaysCallable own }
{
    thread::scope(
        thread::scope_env(),
        rt,
        |scope|
            requires other { A.IsAlwaysCallable other }
            requires own { B.IsAlwaysCallable own }
        {
            let Ok(thread) = scope.spawn(other) else {
                return None;
            };
            let answer = own();
            thread.join(rt);
            Some(answer)
        },
    )
}
