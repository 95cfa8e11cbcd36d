//! The program's tasks, over files, sockets and the standard streams.
use crate::resolving::resolved;
use crate::socket_connector::SocketConnector;
use crate::sockets::Sockets;
use std::alloc::{AllocError, Global};
use std::fmt::Display;
use std::fs::{File, OpenOptions};
use std::io::ErrorKind;
use std::{env, io};
use toll_files::OfficeFault;
use toll_keep::Keep;
use toll_programs::{
    FrontFault, MOST_FILE_BYTES, Status, Task, read_front, task_of, usage_of, warn,
};
use toll_server::ServingEnd;
use toll_service::{KeepOpener, OfficePath, do_file, do_words, serve_file};

/// How many standard streams a program has: input, output and error.
const STREAMS: usize = 3;

/// Does what the program's words ask for, and gives the exit status: a script by `run_script`, and all else
/// over the office in a file, which the opener opens. If there is no memory to hold the standard streams,
/// nothing is done.
pub fn run<K: Keep + Drop, O: KeepOpener<K>, S: FnOnce(&HostRuntime) -> u64 + Drop>(
    rt: &HostRuntime,
    opener: O,
    run_script: S,
) -> u64
    requires { S.IsAlwaysCallable run_script }
{
    match hold_streams(rt) {
        Err(fault) if fault.kind() == ErrorKind::OutOfMemory => {
            fail(rt, Status::Failed, "fault Memory")
        }
        _held => run_task(rt, opener, run_script),
    }
}

// What the words ask for, while the standard streams are held.
fn run_task<K: Keep + Drop, O: KeepOpener<K>, S: FnOnce(&HostRuntime) -> u64 + Drop>(
    rt: &HostRuntime,
    opener: O,
    run_script: S,
) -> u64
    requires { S.IsAlwaysCallable run_script }
{
    let words = match read_words(rt) {
        Ok(words) => words,
        Err(fault) if fault.kind() == ErrorKind::InvalidData => {
            return warn(&mut rt.stderr(), usage_of(&[]).as_bytes(), Status::Usage);
        }
        Err(_) => return fail(rt, Status::Failed, "fault Memory"),
    };
    let Ok(words) = texts_of(rt.alloc(), &words) else {
        return fail(rt, Status::Failed, "fault Memory");
    };
    match task_of(&words) {
        Some(Task::Script) => run_script(rt),
        Some(Task::Words { file, words }) => status_of(rt, run_words(rt, opener, file, words)),
        Some(Task::Import { file, actuals }) => {
            status_of(rt, run_import(rt, opener, file, actuals))
        }
        Some(Task::Serve { file, port, count }) => {
            status_of(rt, run_serve(rt, opener, file, port, count))
        }
        None => warn(&mut rt.stderr(), usage_of(&words).as_bytes(), Status::Usage),
    }
}

// Files in the place of standard streams that are closed. Nothing is read from them and no write to them
// succeeds, so no file of the office is taken for a stream.
fn hold_streams(rt: &HostRuntime) -> io::Result<Vec<File>> {
    let mut held = Vec::new(rt.alloc());
    for _ in 0..STREAMS {
        held.push(OpenOptions::new().write(true).open(rt, "/dev/full")?)?;
    }
    Ok(held)
}

// The words after the program's name. One that is no text is InvalidData.
fn read_words(rt: &HostRuntime) -> io::Result<Vec<String>> {
    let mut words = Vec::new(rt.alloc());
    for word in env::args(rt)?.skip(1) {
        words.push(word)?;
    }
    Ok(words)
}

fn texts_of(alloc: Global, words: &[String]) -> Result<Vec<&str>, AllocError> {
    words.iter().map(|word| word.as_str()).collect(alloc)
}

// The exit status, or why the path of the office's file leads nowhere.
fn status_of(rt: &HostRuntime, done: Result<u64, OfficeFault>) -> u64 {
    match done {
        Ok(status) => status,
        Err(fault) => fail(rt, Status::Failed, format_args!("fault {fault}")),
    }
}

fn run_words<K: Keep, O: KeepOpener<K>>(
    rt: &HostRuntime,
    opener: O,
    file: &str,
    words: &[&str],
) -> Result<u64, OfficeFault> {
    let path = resolved(rt, file)?;
    let path = path.as_str();
    let (mut output, mut error) = (io::writer(rt), rt.stderr());
    Ok(do_words(
        &mut OfficePath { rt, path, opener },
        &mut SocketConnector,
        words,
        &mut output,
        &mut error,
    ))
}

fn run_import<K: Keep, O: KeepOpener<K>>(
    rt: &HostRuntime,
    opener: O,
    file: &str,
    actuals: &str,
) -> Result<u64, OfficeFault> {
    let path = resolved(rt, file)?;
    let path = path.as_str();
    let text = match read_file(rt, actuals) {
        Ok(text) => text,
        Err(fault) => return Ok(fail(rt, Status::Failed, format_args!("fault {fault}"))),
    };
    let (mut output, mut error) = (io::writer(rt), rt.stderr());
    Ok(do_file(
        &mut OfficePath { rt, path, opener },
        &mut SocketConnector,
        &text,
        &mut output,
        &mut error,
    ))
}

// A file of actuals. No more of it is read than shows that it is too long.
fn read_file(rt: &HostRuntime, path: &str) -> Result<Vec<u8>, FrontFault> {
    match File::open(rt, path) {
        Ok(mut file) => read_front(rt.alloc(), &mut file, MOST_FILE_BYTES),
        Err(_) => Err(FrontFault::Read),
    }
}

fn run_serve<K: Keep + Drop, O: KeepOpener<K>>(
    rt: &HostRuntime,
    opener: O,
    file: &str,
    port: u16,
    count: u64,
) -> Result<u64, OfficeFault> {
    let path = resolved(rt, file)?;
    let path = path.as_str();
    let Ok(mut sockets) = Sockets::listen(rt, port, path) else {
        return Ok(fail(rt, Status::Failed, "fault Net"));
    };
    Ok(
        match serve_file(&mut sockets, OfficePath { rt, path, opener }, count) {
            Ok(ServingEnd::All | ServingEnd::Spent) => u64::from(Status::Done.code()),
            Ok(ServingEnd::Fault) => fail(rt, Status::Failed, "fault Net"),
            Err(_) => fail(rt, Status::Failed, "fault Write"),
        },
    )
}

// Prints why the program failed. A standard error that can't be written to changes nothing.
fn fail(rt: &impl Eprint, status: Status, why: impl Display + Drop) -> u64 {
    let _ = rt.eprintln(why);
    u64::from(status.code())
}
