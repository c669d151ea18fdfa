//! What the program asks of the system that it runs on.

use std::alloc::AllocGlobal;
use std::net;
use std::net::Net;
use std::random::RandomSource;
use std::sync::Wait;
use std::thread::Threads;
use std::time::Clock;

/// A system on which a node can be served: with threads, sockets, a clock and standard error.
pub trait Host: Wait
    + Threads
    + Clock
    + RandomSource
    + AllocGlobal
    + Net<Listener = net::TcpListener, Stream = net::TcpStream>
    + Send
    + Sync
    + Copy
    + Drop
    + Eprint {}

impl<R> Host for R
where
    R: Wait
        + Threads
        + Clock
        + RandomSource
        + AllocGlobal
        + Net<Listener = net::TcpListener, Stream = net::TcpStream>
        + Send
        + Sync
        + Copy
        + Drop
        + Eprint,
{}
