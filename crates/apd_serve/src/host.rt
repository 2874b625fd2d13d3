//! What an access point runs on.
use log::Log;
use std::sync::Wait;
use std::thread::Threads;
use std::time::Clock;

/// What an access point runs on, beside the network and the files: what starts threads and waits for them, a clock, and
/// a log, each used by several threads at once.
pub trait Host: Wait + Threads + Clock + Log + Sync {}

impl<W: Wait + Threads + Clock + Log + Sync> Host for W {}
