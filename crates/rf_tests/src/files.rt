//! Real files and streams. What is read and written in memory, in pieces of each length, is shown by cases.

use rf_io::{Folder, ReadError, RealFolder, StreamSink, read_file, write_all};
use std::alloc::Global;
use std::fs::File;
use std::process::Abort;

fn expect_bytes<F: Folder>(
    rt: &impl Abort,
    alloc: Global,
    folder: &mut F,
    name: &str,
    want: &[u8],
) {
    let Ok(bytes) = read_file(alloc, folder, name, 100) else {
        panic!(rt; "{name} is read");
    };
    assert_eq!(rt; bytes.as_slice(), want);
}

fn expect_fault<F: Folder>(rt: &impl Abort, alloc: Global, folder: &mut F, name: &str) {
    let Err(error) = read_file(alloc, folder, name, 100) else {
        panic!(rt; "{name} is not read");
    };
    assert!(rt; matches!(error, ReadError::Fault));
}

#[test]
fn a_real_file_is_read_whole_or_not(rt: HostRuntime) {
    let alloc = rt.alloc();
    assert!(rt; std::fs::write(&rt, "file", "some bytes").is_ok());
    assert!(rt; std::fs::create_dir(&rt, "folder").is_ok());
    let mut folder = RealFolder::new(&rt);
    expect_bytes(&rt, alloc, &mut folder, "file", b"some bytes");
    expect_fault(&rt, alloc, &mut folder, "missing");
    expect_fault(&rt, alloc, &mut folder, "folder");
}

fn is_written(file: File, bytes: &[u8]) -> bool {
    let mut sink = StreamSink::new(file);
    write_all(&mut sink, bytes).is_ok()
}

#[test]
fn a_real_stream_takes_every_byte_or_fails(rt: HostRuntime) {
    let Ok(created) = std::fs::create(&rt, "written") else {
        panic!(rt; "a file is made");
    };
    assert!(rt; is_written(created, b"every byte"));
    let mut folder = RealFolder::new(&rt);
    expect_bytes(&rt, rt.alloc(), &mut folder, "written", b"every byte");
    let Ok(closed) = std::fs::open(&rt, "written") else {
        panic!(rt; "the file is opened");
    };
    assert!(rt; !is_written(closed, b"none"));
}
