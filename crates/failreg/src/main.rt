//! Action texts, and scripts that drive a cluster of failpoint registries.
#![tactic(auto)]

ghost use Rattle.std.specs.Prelude.{◌≡◌, ◌⊎◌, false, IfOk, IsTrue};
ghost use Rattle.std.specs.Process.{exit_status};
ghost use Rattle.node_steps.specs.Refusals.{is_bad_config};
ghost use Rattle.node_service.specs.Caps.{cap_of};
ghost use Rattle.streams.specs.Watched.{has_failed};
ghost use Rattle.commands.specs.Statuses.{HasStatus, OnStatus};
ghost use Rattle.failreg.specs.Runs.{IsDone, MayEnd};

mod advice;
mod finish;
mod key_advice;
mod part_advice;
mod standard;

use advice::advice_on_service;
use command_line::{
    AuditOptions, Invocation, PartOptions, PictureOptions, ServeOptions, read_command_line,
};
use commands::{audit, check, draw_drill, explain_codes, parse, sim};
use finish::{finish_serve, finish_unread, finish_unreadable};
use node_service::{ServiceFault, serve_node, serve_recorded};
use part_advice::advice_on_recorded;
use standard::hold_standard;
use std::alloc::AllocGlobal;
use std::fs::{File, Files};
use std::io::Write;
use std::net::Net;
use std::process::ExitCode;
use std::random::RandomSource;
use std::sync::Wait;
use std::thread::Threads;
use std::time::Clock;
use std::{io, net};
use streams::Watched;
use thread_commands::{check_threads, threads};

fn main(rt: HostRuntime) -> anyhow::Result<ExitCode> {
    // They are held to the end.
    let _held = [hold_standard(&rt), hold_standard(&rt), hold_standard(&rt)];
    let alloc = rt.alloc();
    let words = match std::env::args(&rt) {
        Ok(words) => words,
        Err(error) => return finish_unreadable(&rt, error),
    };
    let words: Vec<String> = words.collect(alloc)?;
    let invocation = match read_command_line(alloc, words.as_slice()) {
        Ok(invocation) => invocation,
        Err(error) => return finish_unread(&rt, &error),
    };
    let mut writer = Watched::new(io::writer(&rt));
    let mut errors = Watched::new(rt.stderr());
    run(&rt, invocation, &mut writer, &mut errors)
}

// Does what a command line asks for.
fn run<R, O: Write, E: Write>(
    rt: &R,
    invocation: Invocation<'_>,
    writer: &mut Watched<O>,
    errors: &mut Watched<E>,
) -> anyhow::Result<ExitCode>
where
    R: Wait
        + Threads
        + Clock
        + RandomSource
        + AllocGlobal
        + Net<Listener = net::TcpListener, Stream = net::TcpStream>
        + Files<File = File>
        + Send
        + Sync
        + Copy
        + Drop
        + Input
        + Print
        + Eprint,
    requires writer { has_failed writer.old ≡ false }
    requires errors { has_failed errors.old ≡ false }
    ensures status { IfOk result (λ code. MayEnd invocation.entry (exit_status code)) }
    ensures done { OnStatus result 0 (IsDone invocation.entry O.contents writer.old writer.new) }
{
    let mut reader = Watched::new(rt.reader());
    match invocation {
        Invocation::Parse(text) => parse(rt, text),
        Invocation::Sim(options) if options.check => {
            check(rt, options, &mut reader, writer, errors)
        }
        Invocation::Sim(options) => sim(rt, options, &mut reader, writer, errors),
        Invocation::Threads(options) if options.check => {
            check_threads(rt, options, &mut reader, writer, errors)
        }
        Invocation::Threads(options) => threads(rt, options, &mut reader, writer, errors),
        Invocation::Audit(AuditOptions { files, json }) => audit(rt, &files, json, writer),
        Invocation::Picture(PictureOptions { files, text }) => draw_drill(rt, &files, text, writer),
        Invocation::Serve(options, part) => serve(rt, options, part),
        Invocation::Explain(text) => explain_codes(rt, &text, writer, errors),
    }
}

// Serves the node that a command line names, and keeps its part where that is wanted.
fn serve<R>(
    rt: &R,
    options: ServeOptions<'_>,
    part: Option<PartOptions<'_>>,
) -> anyhow::Result<ExitCode>
where
    R: Wait
        + Threads
        + Clock
        + RandomSource
        + AllocGlobal
        + Net<Listener = net::TcpListener, Stream = net::TcpStream>
        + Files<File = File>
        + Send
        + Sync
        + Copy
        + Drop
        + Print
        + Eprint,
    ensures status { IfOk result (λ code.
        (exit_status code ≡ 0) ⊎ (exit_status code ≡ 1) ⊎ (exit_status code ≡ 4)) }
    ensures bad { IsTrue (is_bad_config (record {
      node = options.entry.node;
      nodes = options.entry.nodes;
      trace_cap = cap_of options.entry.cap;
    })) → HasStatus result 1 }
{
    if options.telling.rounds > 0 && options.telling.peers.is_empty() {
        eprintln!(rt; "warning: --rounds has no effect without peers")?;
    }
    let (node, nodes, port) = (options.node, options.nodes, options.listen.port());
    let key_file = options.key_file;
    let Some(part) = part else {
        let served = serve_node(rt, options);
        let advice = advice_on_service(rt.alloc(), node, nodes, port, key_file, &served);
        return finish_serve(rt, node, served, &advice);
    };
    let served = serve_recorded(rt, options, part);
    let advice = match &served {
        Err(ServiceFault::Part(fault)) => advice_on_recorded(rt.alloc(), part.path, fault),
        _ => advice_on_service(rt.alloc(), node, nodes, port, key_file, &served),
    };
    finish_serve(rt, node, served, &advice)
}
