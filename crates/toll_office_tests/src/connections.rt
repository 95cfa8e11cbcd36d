//! Connections to an office in a file.
use sqlite::Unknown;
use std::fs;
use std::fs::File;
use std::io::{Read, Write};
use std::net::{Ipv4Addr, Shutdown, SocketAddrV4, TcpListener, TcpStream};
use std::test::Fail;
use toll_files::take_lock;
use toll_office::{Served, serve_one};
use toll_opener::office_at;
use toll_plant::command_of;
use toll_programs::{ScriptEnd, execute, script};
use toll_service::with_keep;
use toll_sql::{OpenFault, SqlKeep};
use toll_stories::check;

const ADDED: &[&[&str]] = &[
    &["owner-add", "ACME", "ACMEKEY1"],
    &["recipe-add", "ACME", "R-1", "2"],
];

const PLACED: &[u8] =
    b"POST /orders HTTP/1.1\r\nhost: 127.0.0.1\r\ntoll-owner: ACME\r\ntoll-key: ACMEKEY1\r\ncontent-length: 42\r\n\r\n{\"order\":\"O-1\",\"recipe\":\"R-1\",\"batches\":2}";

const ASKED: &[u8] =
    b"GET /orders HTTP/1.1\r\nhost: 127.0.0.1\r\ntoll-owner: ACME\r\ntoll-key: ACMEKEY1\r\ncontent-length: 0\r\n\r\n";

const TOLD: &[u8] =
    b"HTTP/1.1 200 OK\r\ncontent-type: application/json\r\ncontent-length: 71\r\nconnection: close\r\n\r\n{\"orders\":[{\"batches\":2,\"order\":\"O-1\",\"recipe\":\"R-1\",\"status\":\"open\"}]}";

const BAD_REQUEST: &[u8] =
    b"HTTP/1.1 400 Bad Request\r\ncontent-type: application/json\r\ncontent-length: 22\r\nconnection: close\r\n\r\n{\"error\":\"BadRequest\"}";

const UNAVAILABLE: &[u8] =
    b"HTTP/1.1 503 Service Unavailable\r\ncontent-type: application/json\r\ncontent-length: 23\r\nconnection: close\r\n\r\n{\"error\":\"Unavailable\"}";

// Takes a file away, and what lies beside it.
fn remove(rt: &HostRuntime, path: &str) -> Result<(), Fail> {
    for ending in &["", "-wal", ".lock", ".out", ".err"] {
        let name = format!(in rt.alloc(); "{path}{ending}")?;
        let _ = fs::remove_file(rt, name.as_str());
    }
    Ok(())
}

// Adds an owner and a recipe, and places an order: whether all of it is done.
fn is_made(rt: &HostRuntime, path: &str) -> Result<bool, Fail> {
    for words in ADDED {
        if !is_done(rt, path, words)? {
            return Ok(false);
        }
    }
    let (_, reply) = exchange(rt, path, PLACED)?;
    Ok(reply.starts_with(b"HTTP/1.1 200 OK\r\n"))
}

// A file beside the office, for what is written.
fn page_of(rt: &HostRuntime, path: &str, ending: &str) -> Result<File, Fail> {
    let name = format!(in rt.alloc(); "{path}.{ending}")?;
    Ok(File::create(rt, name.as_str())?)
}

// Whether the command of these words is done.
fn is_done(rt: &HostRuntime, path: &str, words: &[&str]) -> Result<bool, Fail> {
    let command = command_of(rt.alloc(), words)?;
    let mut output = page_of(rt, path, "out")?;
    let mut error = page_of(rt, path, "err")?;
    let done = with_keep(
        &mut office_at(rt, path),
        |keep| execute(rt.alloc(), keep, &command),
    )?;
    Ok(done.print(&mut output, &mut error) == 0)
}

// Sends these bytes to a socket and closes that side, serves the connection, and gives what comes back.
fn exchange(rt: &HostRuntime, path: &str, bytes: &[u8]) -> Result<(Served, Vec<u8>), Fail> {
    let listener = TcpListener::bind(rt, SocketAddrV4::new(Ipv4Addr::LOCALHOST, 0))?;
    let mut peer = TcpStream::connect(rt, listener.local_addr()?)?;
    peer.write_all(bytes)?;
    peer.shutdown(Shutdown::Write)?;
    let served = serve_one(&mut office_at(rt, path), &listener);
    let mut reply = Vec::new(rt.alloc());
    peer.read_to_end(&mut reply)?;
    Ok((served, reply))
}

// Whether these bytes are answered by those.
fn is_expected(rt: &HostRuntime, path: &str, bytes: &[u8], wanted: &[u8]) -> Result<bool, Fail> {
    let (served, reply) = exchange(rt, path, bytes)?;
    Ok(served == Served::Answered && reply.as_slice() == wanted)
}

// Fails if these bytes have another answer, once an order was placed.
fn check_reply(rt: &HostRuntime, path: &str, bytes: &[u8], wanted: &[u8]) -> Result<(), Fail> {
    remove(rt, path)?;
    let is_expected = is_made(rt, path)? && is_expected(rt, path, bytes, wanted)?;
    remove(rt, path)?;
    check(is_expected, "told otherwise")
}

const SCRIPT: &[u8] =
    b"owner-add ACME ACMEKEY1\nrecipe-add ACME R-1 2\n> ACME ACMEKEY1 POST /orders {\"order\":\"O-1\",\"recipe\":\"R-1\",\"batches\":2}\n";

const PRINTED: &[u8] =
    b"accepted\naccepted\n200 {\"batches\":2,\"order\":\"O-1\",\"recipe\":\"R-1\",\"status\":\"open\"}\n";

// Makes an office in the file by a script, and closes it: whether all of it is done.
fn is_scripted(rt: &HostRuntime, path: &str) -> Result<bool, OpenFault> {
    let mut keep = SqlKeep::open_from(rt, path, true, Unknown)?;
    let mut input = SCRIPT;
    let mut printed = Vec::new(rt.alloc());
    let end = script(rt.alloc(), &mut input, &mut printed, &mut keep);
    let is_closed = keep.close().is_ok();
    Ok(is_closed && end == ScriptEnd::Done && printed.as_slice() == PRINTED)
}

#[test]
fn a_client_is_served_from_a_file(rt: HostRuntime) -> Result<(), Fail> {
    let path = "a_peer_is_served.db";
    remove(&rt, path)?;
    let is_expected = is_scripted(&rt, path)? && is_expected(&rt, path, ASKED, TOLD)?;
    remove(&rt, path)?;
    check(is_expected, "told otherwise")
}

#[test]
fn a_client_is_served_what_commands_made(rt: HostRuntime) -> Result<(), Fail> {
    check_reply(&rt, "what_commands_made.db", ASKED, TOLD)
}

#[test]
fn half_a_head_is_a_bad_request(rt: HostRuntime) -> Result<(), Fail> {
    let half = b"GET /orders HTTP/1.1\r\nhost";
    check_reply(&rt, "half_a_head.db", half, BAD_REQUEST)
}

#[test]
fn a_file_that_another_uses_is_unavailable(rt: HostRuntime) -> Result<(), Fail> {
    let path = "another_uses.db";
    remove(&rt, path)?;
    check(is_made(&rt, path)?, "not made")?;
    let lease = take_lock(&rt, path)?;
    let is_unavailable = is_expected(&rt, path, ASKED, UNAVAILABLE)?;
    lease.release();
    let is_there = is_expected(&rt, path, ASKED, TOLD)?;
    remove(&rt, path)?;
    check(is_unavailable && is_there, "told otherwise")
}
