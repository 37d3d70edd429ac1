//! The program: `serve` over the files and the standard output of its process. Its exit status is that of the code.
#![tactic(auto)]

use ebr_base::{Bytes, CloneIn, List, NoMemory};
use ebr_outside::{FileHost, OutSink, Sink, words};
use ebr_server::serve;
use std::alloc::Global;
use std::process::ExitCode;
use std::sync::Wait;
use std::thread::Threads;

fn main(rt: HostRuntime) -> ExitCode {
    let code = match given(rt) {
        Ok((words, host)) => run(&rt, rt.alloc(), words.as_slice(), host),
        Err(NoMemory) => {
            let _ = OutSink::new(rt).write(b"out of memory\n");
            ebr_server::ExitCode::NoMemory
        }
    };
    ExitCode::from(code.status())
}

/// The words of the command line, and the host of what they name.
fn given(rt: HostRuntime) -> Result<(List<Bytes>, FileHost), NoMemory> {
    let words = words(&rt)?;
    let host = FileHost::new(rt, words.clone_in(rt.alloc())?);
    Ok((words, host))
}

/// Serves the words of the command line.
fn run<R: Threads + Wait + Sync>(
    rt: &R,
    alloc: Global,
    words: &[Bytes],
    host: FileHost,
) -> ebr_server::ExitCode {
    let mut host = host;
    serve(rt, alloc, words, &mut host).code
}
