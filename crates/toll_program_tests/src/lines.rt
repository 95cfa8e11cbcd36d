//! The lines of scripts.
use crate::prints::{check_prints_over, run};
use std::alloc::{AllocError, Global};
use std::test::Fail;
use toll_keep::MemKeep;
use toll_programs::{RequestLine, ScriptEnd};

// Whether the script ends so, and prints nothing.
fn ends_so(alloc: Global, text: &[u8], wanted: ScriptEnd) -> bool {
    let (end, printed) = run(alloc, &mut MemKeep::new(alloc), text);
    end == wanted && printed.is_empty()
}

const BAD_LINES: &[(&[u8], u64)] = &[
    (b"frob X", 1),
    (
        b"owner-add ACME ACMEKEY1\n\n# a comment\nfrob X\nfrob Y\n",
        4,
    ),
    (b"owner-add ACME\n", 1),
    (b"\n   \n", 2),
    (b"\n # a comment\n", 2),
    (b"\r\n", 1),
    (b"owner-add ACME \xff\n", 1),
    (b">\n", 1),
    (b"> ACME ACMEKEY1 GET\n", 1),
    (b"> ACME ACMEKEY1 GET \n", 1),
    (b">  ACME ACMEKEY1 GET /orders\n", 1),
    (b"> ACME  ACMEKEY1 GET /orders\n", 1),
];

#[test]
fn the_first_bad_line_is_named_and_nothing_runs(rt: HostRuntime) {
    for row in BAD_LINES {
        let (text, number) = *row;
        assert!(rt;
            ends_so(rt.alloc(), text, ScriptEnd::BadLine(number)),
            "at {text:?}"
        );
    }
}

const EMPTY: &[&[u8]] = &[b"", b"\n", b"# one\n\n#two"];

#[test]
fn empty_lines_and_comments_ask_for_nothing(rt: HostRuntime) {
    for text in EMPTY {
        assert!(rt; ends_so(rt.alloc(), text, ScriptEnd::Done), "at {text:?}");
    }
}

// Whether a script of so many empty lines ends so.
fn empty_lines_end_so(alloc: Global, lines: usize, wanted: ScriptEnd) -> Result<bool, AllocError> {
    let text = vec![in alloc; b'\n'; lines]?;
    Ok(ends_so(alloc, &text, wanted))
}

#[test]
fn a_script_has_a_longest_length(rt: HostRuntime) -> Result<(), Fail> {
    let longest = empty_lines_end_so(rt.alloc(), 1_048_576, ScriptEnd::Done)?;
    let longer = empty_lines_end_so(rt.alloc(), 1_048_577, ScriptEnd::TooLong)?;
    assert!(rt; longest && longer);
    Ok(())
}

#[test]
fn spaces_between_words_and_around_them_do_not_count(rt: HostRuntime) -> Result<(), Fail> {
    let rows = [("  owner-add   ACME ACMEKEY1  \n", "accepted\n")];
    check_prints_over(rt.alloc(), &mut MemKeep::new(rt.alloc()), &rows)
}

const REQUEST_LINES: &[(&[u8], &[u8])] = &[
    (
        b"ACME ACMEKEY1 GET /orders",
        b"GET /orders HTTP/1.1\r\nhost: 127.0.0.1\r\ntoll-owner: ACME\r\ntoll-key: ACMEKEY1\r\ncontent-length: 0\r\n\r\n",
    ),
    (
        b"ACME ACMEKEY1 GET /orders ",
        b"GET /orders HTTP/1.1\r\nhost: 127.0.0.1\r\ntoll-owner: ACME\r\ntoll-key: ACMEKEY1\r\ncontent-length: 0\r\n\r\n",
    ),
    (
        b"- ACMEKEY1 POST /orders a  b ",
        b"POST /orders HTTP/1.1\r\nhost: 127.0.0.1\r\ntoll-key: ACMEKEY1\r\ncontent-length: 5\r\n\r\na  b ",
    ),
    (
        b"ACME - GET /orders",
        b"GET /orders HTTP/1.1\r\nhost: 127.0.0.1\r\ntoll-owner: ACME\r\ncontent-length: 0\r\n\r\n",
    ),
];

// Whether the line is these bytes of a request.
fn is_request(alloc: Global, line: &[u8], wanted: &[u8]) -> Result<bool, AllocError> {
    match RequestLine::parse(line) {
        Some(request) => Ok(request.text(alloc)?.as_slice() == wanted),
        None => Ok(false),
    }
}

#[test]
fn a_request_line_is_the_bytes_of_a_request(rt: HostRuntime) -> Result<(), Fail> {
    for row in REQUEST_LINES {
        let (line, wanted) = *row;
        let is_request = is_request(rt.alloc(), line, wanted)?;
        assert!(rt; is_request, "at {line:?}");
    }
    Ok(())
}
