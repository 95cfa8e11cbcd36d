//! Long texts: a stock of more than 1,048,576 bytes that is shown, and a file of exactly this length that is
//! imported.
use crate::served::fake_network::{FakeNetwork, Log};
use crate::served::{Client, answer_alone, tells};
use std::alloc::{AllocError, Global};
use std::test::Fail;
use toll_keep::MemKeep;
use toll_protocol::{Call, EncodeFault, Response};
use toll_server::Listener;
use toll_service::{KeepService, TurnResult, serve_keep};
use toll_stories::{fill_stock, stock_text};

/// How long a file of actuals may be.
const FILE_BYTES: usize = 1_048_576;

const HEADER: &[u8] =
    b"key,owner,order,batch,segment,use,material,lot_owner,lot,sublot,amount,day\n";

/// The response to one record that is bad.
const ONE_BAD: Response<'static> = Response {
    status: 1,
    output: b"     1 bad-record\naccepted 0 repeated 0 refused 0 bad 1 fault 0\n",
    error: b"",
};

#[test]
fn a_stock_of_a_megabyte_is_replied(rt: HostRuntime) -> Result<(), Fail> {
    let mut keep = MemKeep::new(rt.alloc());
    fill_stock(rt.alloc(), &mut keep)?;
    let stock = stock_text(rt.alloc())?;
    let requested = Call::encode(rt.alloc(), &["stock", "ACME"], None)?;
    let reply = answer_alone(rt.alloc(), &mut keep, Listener::Plant, &requested)?;
    assert!(rt; stock.len() > FILE_BYTES);
    assert!(rt; is_whole(rt.alloc(), &reply, stock.as_bytes())?);
    Ok(())
}

// Whether the response has all of this output and reports success.
fn is_whole(alloc: Global, reply: &TurnResult, output: &[u8]) -> Result<bool, EncodeFault> {
    let reported = Response {
        status: 0,
        output,
        error: b"",
    };
    Ok(tells(reply, &reported.encode(alloc)?, None))
}

// A file that is as long as one may be, of one record that is none.
fn longest_file(alloc: Global) -> Result<Vec<u8>, AllocError> {
    let mut file = Vec::from_slice(alloc, HEADER)?;
    for _ in HEADER.len()..FILE_BYTES {
        file.push(b'x')?;
    }
    Ok(file)
}

#[test]
fn the_longest_file_is_imported_whole(rt: HostRuntime) -> Result<(), Fail> {
    let file = longest_file(rt.alloc())?;
    let requested = Call::encode(rt.alloc(), &["import"], Some(&file))?;
    let reported = ONE_BAD.encode(rt.alloc())?;
    let visit = Client {
        listener: Listener::Plant,
        bytes: &requested,
        expected: &reported,
    };
    let keep = MemKeep::new(rt.alloc());
    let log = Log::new();
    let _ = serve_keep(
        rt.alloc(),
        &mut FakeNetwork::new(&[visit], &log),
        &mut KeepService::new(keep),
        1,
    );
    assert_eq!(rt; log.replied.get(), 1);
    Ok(())
}
