//! Threads that work side by side until they are told to stop.
use std::alloc::Global;
use std::sync::Wait;
use std::thread::{self, JoinHandle, Scope, Threads};

/// What one thread does, with what it owns.
pub(crate) trait Job<X> {
    /// Works until it is told to stop, and gives back what it owns.
    fn work(self, shared: &X) -> Self;
}

/// What the threads share.
pub(crate) trait Stops {
    /// Tells those that work to stop.
    fn stop(&self);
}

// Starts a thread for a job. Tells whether it has one.
fn start<'s, E, X: Sync + 's, J: Job<X> + Send + Drop + 's>(
    scope: &Scope<'s, E>,
    shared: &'s X,
    job: J,
    threads: &mut Vec<JoinHandle<J>>,
) -> bool {
    match scope.spawn(move || job.work(shared)) {
        Ok(thread) => threads.push(thread).is_ok(),
        Err(_) => false,
    }
}

// Starts a thread for each job. Tells whether each has one; after the first that can't be made no other is started.
fn start_all<'s, E, X: Sync + 's, J: Job<X> + Send + Drop + 's>(
    scope: &Scope<'s, E>,
    shared: &'s X,
    jobs: Vec<J>,
    threads: &mut Vec<JoinHandle<J>>,
) -> bool {
    for job in jobs {
        if !start(scope, shared, job, threads) {
            return false;
        }
    }
    true
}

// Waits for each thread to end, and keeps its job. Tells whether memory was there.
fn join_all<W: Wait + Threads, J: Drop>(
    rt: &W,
    threads: Vec<JoinHandle<J>>,
    ended: &mut Vec<J>,
) -> bool {
    for thread in threads {
        if ended.push(thread.join(rt)).is_err() {
            return false;
        }
    }
    true
}

// Room for so many threads, and for what they give back.
fn room<J: Drop>(alloc: Global, count: usize) -> Option<(Vec<JoinHandle<J>>, Vec<J>)> {
    let threads = Vec::with_capacity(alloc, count).ok()?;
    let ended = Vec::with_capacity(alloc, count).ok()?;
    Some((threads, ended))
}

/// Does each job in a thread of its own, and gives the jobs back once each thread has ended; none where a thread or
/// memory is lacking, and then those that run are stopped.
pub(crate) fn work_all<W: Wait + Threads, X: Stops + Sync, J: Job<X> + Send + Drop>(
    rt: &W,
    alloc: Global,
    shared: &X,
    jobs: Vec<J>,
) -> Option<Vec<J>> {
    let Some((mut threads, mut ended)) = room(alloc, jobs.len()) else {
        drop(jobs);
        return None;
    };
    let all = thread::scope(thread::scope_env(), rt, |scope| {
        let started = start_all(scope, shared, jobs, &mut threads);
        if !started {
            shared.stop();
        }
        join_all(rt, threads, &mut ended) && started
    });
    if all { Some(ended) } else { None }
}
