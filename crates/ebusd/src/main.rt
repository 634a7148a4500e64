//! The program `ebusd`: an event router over standard input and output, or over connections to a port, or a drill.
#![tactic(auto)]

use bus_server::run;
use libc::types::rlimit;
use libc::{RLIMIT_NOFILE, getrlimit};
use program_lines::Status;
use router_disk::{ReaderSource, WriterSink};
use std::io::Write;
use std::process::ExitCode;
use std::{env, io};
use tcp_host::{SystemClocks, TcpHost};

fn main(rt: HostRuntime) -> io::Result<ExitCode> {
    let Some(words) = words(&rt)? else {
        return Ok(ExitCode::from(refuse(&rt).code()));
    };
    let mut input = ReaderSource::new(rt.stdin());
    let mut output = WriterSink::new(rt.stdout());
    let mut faults = WriterSink::new(rt.stderr());
    let mut host = TcpHost::new(rt.alloc(), rt)?;
    let mut clock = SystemClocks::new(rt);
    let status = run(
        &rt,
        rt.alloc(),
        words.as_slice(),
        open_files(),
        &mut input,
        &mut output,
        &mut faults,
        &mut host,
        &mut clock,
    );
    Ok(ExitCode::from(status.code()))
}

/// The process's arguments. `None` if one is not UTF-8.
fn words(rt: &HostRuntime) -> io::Result<Option<Vec<String>>> {
    match env::args(rt) {
        Ok(words) => Ok(Some(words.collect(rt.alloc())?)),
        Err(fault) if fault.kind() == io::ErrorKind::InvalidData => Ok(None),
        Err(fault) => Err(fault),
    }
}

/// Reports an argument that is not UTF-8.
fn refuse(rt: &HostRuntime) -> Status {
    let _ = rt.stderr().write_all(b"ebusd: an argument is not UTF-8\n");
    let _ = rt.stderr().write_all(Status::Usage.line().as_slice());
    Status::Usage
}

/// How many files the process may have open. If the system does not say, any number.
fn open_files() -> u64 {
    let mut limit = rlimit {
        rlim_cur: u64::MAX,
        rlim_max: u64::MAX,
    };
    getrlimit(RLIMIT_NOFILE, &mut limit);
    limit.rlim_cur
}
