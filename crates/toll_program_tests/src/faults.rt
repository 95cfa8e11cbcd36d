//! Reads and writes that fail.
use std::alloc::Global;
use toll_keep::MemKeep;
use toll_programs::{ScriptEnd, script};
use toll_stories::{Sink, Source};

const SCRIPT: &[u8] = b"owner-add ACME ACMEKEY1\nrecipe-add ACME R-1 2\n";

const PRINTED: &[u8] = b"accepted\naccepted\n";

// The length of each read and write.
const PIECE: usize = 7;

// How a script ends whose reads fail after these bytes, or end there, and whose writes fail once after this
// many; and how many bytes of its output it writes, if it writes only a first part.
fn run_in_pieces(
    alloc: Global,
    bytes: &[u8],
    fails: bool,
    room: usize,
) -> (ScriptEnd, Option<usize>) {
    let mut keep = MemKeep::new(alloc);
    let mut input = Source {
        bytes,
        piece: PIECE,
        fails,
    };
    let mut output = Sink {
        taken: Vec::new(alloc),
        piece: PIECE,
        room,
    };
    let end = script(alloc, &mut input, &mut output, &mut keep);
    let is_front = PRINTED.starts_with(&output.taken);
    (end, is_front.then_some(output.taken.len()))
}

#[test]
fn a_failed_read_ends_a_script_before_it_runs(rt: HostRuntime) {
    for len in 0..SCRIPT.len() + 1 {
        let ended = run_in_pieces(rt.alloc(), &SCRIPT[..len], true, usize::MAX);
        assert!(&rt;
            ended == (ScriptEnd::ReadFault, Some(0)),
            "behind {len} bytes"
        );
    }
    let ended = run_in_pieces(rt.alloc(), SCRIPT, false, usize::MAX);
    assert!(&rt; ended == (ScriptEnd::Done, Some(PRINTED.len())));
}

#[test]
fn a_failed_write_leaves_a_front_of_the_answers(rt: HostRuntime) {
    for room in 0..PRINTED.len() {
        let ended = run_in_pieces(rt.alloc(), SCRIPT, false, room);
        assert!(&rt;
            ended == (ScriptEnd::WriteFault, Some(room)),
            "behind {room} bytes"
        );
    }
    let ended = run_in_pieces(rt.alloc(), SCRIPT, false, PRINTED.len());
    assert!(&rt; ended == (ScriptEnd::Done, Some(PRINTED.len())));
}
