//! What the program runs on.
use log::Log;
use std::fs::File;
use std::net::Net;
use std::rt::Files;
use std::sync::Wait;
use std::thread::Threads;
use std::time::Clock;

/// What the program runs on, but for the words of its command line.
pub trait Host: Input
    + Print
    + Eprint
    + Files<File = File, Dir: Send + Sync>
    + Net<Stream: Send + Sync, Listener: Send + Sync>
    + Wait
    + Threads
    + Clock
    + AllocGlobal
    + Log
    + Sync {}

impl<
    T: Input
        + Print
        + Eprint
        + Files<File = File, Dir: Send + Sync>
        + Net<Stream: Send + Sync, Listener: Send + Sync>
        + Wait
        + Threads
        + Clock
        + AllocGlobal
        + Log
        + Sync,
> Host for T {}
