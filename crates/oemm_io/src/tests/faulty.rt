//! A system that gives and takes two bytes at a call, and fails at one of the calls.

ghost use Rattle.std.specs.Prelude.{◌≤◌, IfOk};

use std::alloc::Allocator;
use std::fmt::Display;
use std::fs::{Metadata, OpenFile, OpenOptions};
use std::io;
use std::io::{Empty, ErrorKind, Read, Seek, SeekFrom, Write};
use std::rt::Files;

/// The number of a write to the disk as a call that fails.
pub const SYNC: u8 = 100;

/// The number of a renaming as a call that fails.
pub const RENAME: u8 = 101;

/// Files and a standard output whose calls are counted from 1, each file's for itself. Each call of
/// standard output is the first. No file is there before it is made.
#[derive(Clone, Copy)]
pub struct Faulty {
    /// The call that fails.
    pub failing: u8,
    /// How it fails.
    pub kind: ErrorKind,
}

#[derive(Drop)]
pub struct FaultyFile {
    system: Faulty,
    calls: u8,
}

impl Faulty {
    fn open(self) -> FaultyFile {
        FaultyFile {
            system: self,
            calls: 0,
        }
    }

    /// The call with this number.
    fn number(self, number: u8) -> io::Result<()> {
        if number == self.failing {
            return Err(io::Error::from(self.kind));
        }
        Ok(())
    }
}

impl FaultyFile {
    fn call(&mut self) -> io::Result<()> {
        self.calls = self.calls.saturating_add(1);
        self.system.number(self.calls)
    }

    /// How many of so many bytes the next call gives or takes.
    fn count(&mut self, offered: usize) -> io::Result<usize>
        ensures { IfOk result (λ n. n ≤ offered) }
    {
        self.call()?;
        Ok(offered.min(2))
    }
}

impl Read for FaultyFile {
    /// Each byte is the number of the call.
    fn read(&mut self, buf: &mut [u8]) -> io::Result<usize> {
        let count = self.count(buf.len())?;
        buf[..count].fill(self.calls);
        Ok(count)
    }
}

impl Write for FaultyFile {
    fn write(&mut self, buf: &[u8]) -> io::Result<usize> {
        self.count(buf.len())
    }

    fn flush(&mut self) -> io::Result<()> {
        self.call()
    }
}

fn unsupported() -> io::Error {
    io::Error::from(ErrorKind::Unsupported)
}

impl Print for Faulty {
    fn print<D: Display + Drop>(&self, _value: D) -> io::Result<()> {
        Err(unsupported())
    }

    fn println<D: Display + Drop>(&self, _value: D) -> io::Result<()> {
        Err(unsupported())
    }

    fn write_all(&self, _bytes: &[u8]) -> io::Result<()> {
        Err(unsupported())
    }

    fn write_some(&self, bytes: &[u8]) -> io::Result<usize> {
        self.open().count(bytes.len())
    }
}

impl Seek for FaultyFile {
    fn seek(&mut self, _to: SeekFrom) -> io::Result<u64> {
        Err(unsupported())
    }
}

impl OpenFile for FaultyFile {
    fn metadata(&self) -> io::Result<Metadata> {
        Err(unsupported())
    }

    fn set_len(&self, _size: u64) -> io::Result<()> {
        Err(unsupported())
    }

    fn sync_all(&self) -> io::Result<()> {
        Err(unsupported())
    }

    fn sync_data(&self) -> io::Result<()> {
        self.system.number(SYNC)
    }
}

impl Files for Faulty {
    type File = FaultyFile;

    type Dir = Empty;

    fn open_file(&self, how: &OpenOptions, _path: &str) -> io::Result<FaultyFile> {
        how.check()?;
        Ok(self.open())
    }

    fn open_dir(&self, _path: &str) -> io::Result<Empty> {
        Err(unsupported())
    }

    fn metadata(&self, _path: &str) -> io::Result<Metadata> {
        Err(unsupported())
    }

    fn symlink_metadata(&self, _path: &str) -> io::Result<Metadata> {
        Err(io::Error::from(ErrorKind::NotFound))
    }

    fn copy(&self, _from: &str, _to: &str) -> io::Result<u64> {
        Err(unsupported())
    }

    fn rename(&self, _from: &str, _to: &str) -> io::Result<()> {
        self.number(RENAME)
    }

    fn remove_file(&self, _path: &str) -> io::Result<()> {
        Ok(())
    }

    fn create_dir(&self, _path: &str) -> io::Result<()> {
        Err(unsupported())
    }

    fn remove_dir(&self, _path: &str) -> io::Result<()> {
        Err(unsupported())
    }

    fn remove_dir_all<B: Allocator>(&self, _alloc: B, _path: &str) -> io::Result<()> {
        Err(unsupported())
    }
}
