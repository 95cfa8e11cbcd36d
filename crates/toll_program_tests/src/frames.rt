//! Parcels that are whole, cut or damaged.
use std::alloc::Global;
use toll_protocol::{
    Call, MOST_CALL_BYTES, MOST_RESPONSE_BYTES, Response, content_of, handshake, is_enough,
    is_handshake,
};

/// The words `stock ACME`, as the plant asks them.
pub const STOCK: &[u8] = b"\0\0\0\x0f\0\0\0\x0bstock\0ACME\0";

/// The word `import`, and a file of three bytes.
const IMPORT: &[u8] = b"\0\0\0\x0f\0\0\0\x07import\0\x01a,b";

/// Status 1, `no` on standard output and `why` on standard error.
pub const TOLD: &[u8] = b"\0\0\0\x0a\x01\0\0\0\x02nowhy";

/// The handshake of build 1.0.
const GREETING: &[u8] = b"\0\0\0\x08toll 1.0";

// Whether it asks these words, and names this file.
fn asks(alloc: Global, text: &[u8], words: &[&str], file: Option<&[u8]>) -> bool {
    match Call::read(alloc, text) {
        Ok(Some(requested)) => requested.words.as_slice() == words && requested.file == file,
        _ => false,
    }
}

fn asks_nothing(alloc: Global, text: &[u8]) -> bool {
    matches!(Call::read(alloc, text), Ok(None))
}

fn is_packed(alloc: Global, words: &[&str], file: Option<&[u8]>, text: &[u8]) -> bool {
    match Call::encode(alloc, words, file) {
        Ok(frame) => frame.as_slice() == text,
        Err(_) => false,
    }
}

#[test]
fn words_and_files_are_packed_and_read_back(rt: HostRuntime) {
    let file: Option<&[u8]> = Some(b"a,b");
    assert!(rt; is_packed(rt.alloc(), &["stock", "ACME"], None, STOCK));
    assert!(rt; is_packed(rt.alloc(), &["import"], file, IMPORT));
    assert!(rt; asks(rt.alloc(), STOCK, &["stock", "ACME"], None));
    assert!(rt; asks(rt.alloc(), IMPORT, &["import"], file));
}

#[test]
fn a_word_with_a_zero_byte_is_not_packed(rt: HostRuntime) {
    assert!(rt; Call::encode(rt.alloc(), &["sto\0ck"], None).is_err());
}

#[test]
fn no_front_is_enough_or_asks_anything(rt: HostRuntime) {
    for n in 0..STOCK.len() {
        assert!(rt; !is_enough(&STOCK[..n], MOST_CALL_BYTES));
        assert!(rt; asks_nothing(rt.alloc(), &STOCK[..n]));
    }
    assert!(rt; is_enough(STOCK, MOST_CALL_BYTES));
}

#[test]
fn a_wrong_length_asks_nothing(rt: HostRuntime) {
    let texts: [&[u8]; 5] = [
        b"\0\0\0\x0e\0\0\0\x0bstock\0ACME\0",
        b"\0\0\0\x10\0\0\0\x0bstock\0ACME\0",
        b"\0\0\0\x0f\0\0\0\x0astock\0ACME\0",
        b"\0\0\0\x0f\0\0\0\x0cstock\0ACME\0",
        b"\0\0\0\x0f\0\0\0\x0bstock\0ACME!",
    ];
    for text in texts {
        assert!(rt; asks_nothing(rt.alloc(), text));
    }
}

#[test]
fn a_length_of_four_gigabytes_is_read_no_further(rt: HostRuntime) {
    let text = b"\xff\xff\xff\xffstock\0";
    assert!(rt; is_enough(text, MOST_CALL_BYTES));
    assert!(rt; content_of(text, MOST_CALL_BYTES).is_none());
    assert!(rt; asks_nothing(rt.alloc(), text));
    assert!(rt; !is_enough(text, MOST_RESPONSE_BYTES));
}

#[test]
fn a_response_is_packed_and_read_back(rt: HostRuntime) {
    let reported = Response {
        status: 1,
        output: b"no",
        error: b"why",
    };
    assert_eq!(rt; Response::read(TOLD), Some(reported));
    let frame = reported.encode(rt.alloc()).expect(&rt, "memory");
    assert_eq!(rt; frame.as_slice(), TOLD);
}

#[test]
fn no_front_is_a_response(rt: HostRuntime) {
    for n in 0..TOLD.len() {
        assert!(rt; Response::read(&TOLD[..n]).is_none());
    }
}

#[test]
fn only_a_handshake_of_this_build_is_taken(rt: HostRuntime) {
    let ours = handshake(rt.alloc(), "1.0").expect(&rt, "memory");
    assert_eq!(rt; ours.as_slice(), GREETING);
    assert!(rt; is_handshake(&ours, "1.0"));
    assert!(rt; !is_handshake(&ours, "1.1"));
    assert!(rt; !is_handshake(&ours, "1.0.1"));
    assert!(rt; !is_handshake(b"\0\0\0\x08TOLL 1.0", "1.0"));
    assert!(rt; !is_handshake(b"", "1.0"));
}
