//! Files that are read, and standard output, which tell nothing of their bytes.

ghost use Rattle.std.specs.Prelude.{◌≡◌, ◌≤◌, ◌<◌, ◌==◌, ◌&&◌, true, length, IfOk, OnOk, OnErr};
ghost use Rattle.std.specs.String.{string_bytes};
ghost use Rattle.fault_counts.specs.Counts.{HasCause};
ghost use Rattle.oemm_io.specs.Files.{fresh};

use crate::flows::{Failed, Sink, Source};
use crate::tally::{Tally, taken};
use std::io::{Read, Write};
use std::marker::Model;
use std::rt::Files;
use std::{fs, io};

/// A file that is read.
///
/// It is opened at the first take. Where that fails the take fails, and the next one tries again.
#[derive(Drop)]
pub struct FileSource<R: Files> {
    rt: R,
    path: String,
    file: Option<R::File>,
    faults: u64,
}

impl<R: Files> Model for FileSource<R> {
    ghost use Rattle.std.specs.String.{string_bytes};
    ghost use Rattle.oemm_io.specs.Files.{FileInput};

    ghost Value = { FileInput };

    ghost view = { λ a. record { path = string_bytes a.path; faults = a.faults } };
}

impl<R: Files> FileSource<R> {
    /// The file at this path. It makes no call of the system.
    pub fn new(rt: R, path: String) -> FileSource<R>
        ensures { result ≡ record { path = string_bytes path; faults = 0 } }
    {
        FileSource {
            rt,
            path,
            file: None,
            faults: 0,
        }
    }
}

impl<R: Files> Source for FileSource<R> {
    ghost use Rattle.std.specs.Prelude.{None};

    ghost left = { λ _. None };

    ghost faults = { λ source. source.faults };

    fn take(&mut self, buf: &mut [u8]) -> Result<usize, Failed>
        ensures path { self.new.path ≡ self.old.path }
        ensures within { IfOk result (λ n. n ≤ length buf.old) }
        ensures cause { HasCause self.old.faults self.new.faults result }
    {
        let read = read_some(&self.rt, &self.path, &mut self.file, buf);
        taken(read, &mut self.faults)
    }
}

fn read_some<R: Files>(
    rt: &R,
    path: &str,
    file: &mut Option<R::File>,
    buf: &mut [u8],
) -> io::Result<usize>
    ensures { IfOk result (λ n. n ≤ length buf.old) }
{
    let mut opened = match file.take() {
        Some(opened) => opened,
        None => fs::open(rt, path)?,
    };
    let count = opened.read(buf);
    *file = Some(opened);
    count
}

/// Standard output.
#[derive(Drop)]
pub struct StdSink<R> {
    rt: R,
    tally: Tally,
}

impl<R> Model for StdSink<R> {
    ghost use Rattle.oemm_io.specs.Files.{SinkState};

    ghost Value = { SinkState };

    ghost view = { λ a. a.tally };
}

impl<R> StdSink<R> {
    /// Standard output. It makes no call of the system.
    pub fn new(rt: R) -> StdSink<R>
        ensures { result ≡ fresh }
    {
        StdSink {
            rt,
            tally: Tally::new(),
        }
    }
}

impl<R: Print> Sink for StdSink<R> {
    ghost use Rattle.std.specs.Prelude.{None};

    ghost written = { λ _. None };

    ghost faults = { λ sink. sink.faults };

    ghost finished = { λ sink. sink.finished };

    fn put(&mut self, bytes: &[u8]) -> Result<usize, Failed> {
        let written = io::writer(&self.rt).write(bytes);
        self.tally.put(written, bytes.len())
    }

    fn finish(&mut self) -> Result<(), Failed> {
        let flushed = io::writer(&self.rt).flush();
        self.tally.finish(flushed)
    }
}
