ghost use Rattle.std.specs.Prelude.{◌≡◌, ◌≤◌, None, IfOk, length};

use crate::{Failed, Folder, Sink};
use std::io::{Read, Seek, SeekFrom, Write};
use std::marker::Model;
use std::rt::Files;
use std::{fs, io};

/// The real files, by their paths. Each read opens its file, so that no file stays open between
/// two reads. It tells no contents: that the system gives the bytes of the files is not proved.
///
/// Contracts see it as its count of faults, the same for each name.
#[derive(Drop)]
pub struct RealFolder<'r, R: Files> {
    rt: &'r R,
    faults: u64,
}

impl<'r, R: Files> Model for RealFolder<'r, R> {
    ghost use Rattle.std.specs.Prelude.{ℕ};

    ghost Value = { ℕ };

    ghost view = { λ folder. folder.faults };
}

impl<'r, R: Files> RealFolder<'r, R> {
    /// The folder that the program runs in.
    pub fn new(rt: &'r R) -> RealFolder<'r, R>
        ensures { result ≡ 0 }
    {
        RealFolder { rt, faults: 0 }
    }
}

fn read_from<R: Files>(rt: &R, name: &str, at: u64, buf: &mut [u8]) -> io::Result<usize>
    ensures { IfOk result (λ n. n ≤ length buf.new) }
{
    let mut file = fs::open(rt, name)?;
    file.seek(SeekFrom::Start(at))?;
    file.read(buf)
}

impl<'r, R: Files> Folder for RealFolder<'r, R> {
    ghost state = { λ folder. record { files = None; faults = λ name. folder } };

    fn read_at(&mut self, name: &str, at: u64, buf: &mut [u8]) -> Result<usize, Failed> {
        match read_from(self.rt, name, at, buf) {
            Ok(count) => Ok(count),
            Err(_) => {
                self.faults = self.faults.saturating_add(1);
                Err(Failed)
            }
        }
    }
}

/// A stream that is written. It tells no contents.
///
/// Contracts see it as its count of faults.
#[derive(Drop)]
pub struct StreamSink<W: Write> {
    out: W,
    faults: u64,
}

impl<W: Write> Model for StreamSink<W> {
    ghost use Rattle.std.specs.Prelude.{ℕ};

    ghost Value = { ℕ };

    ghost view = { λ sink. sink.faults };
}

impl<W: Write> StreamSink<W> {
    /// The sink over a stream.
    pub fn new(out: W) -> StreamSink<W>
        ensures { result ≡ 0 }
    {
        StreamSink { out, faults: 0 }
    }
}

impl<W: Write> Sink for StreamSink<W> {
    ghost state = { λ sink. record { contents = None; faults = sink } };

    // A write of nothing counts as a failure.
    fn write(&mut self, piece: &[u8]) -> Result<usize, Failed> {
        match self.out.write(piece) {
            Ok(0) | Err(_) => {
                self.faults = self.faults.saturating_add(1);
                Err(Failed)
            }
            Ok(count) => Ok(count),
        }
    }
}
