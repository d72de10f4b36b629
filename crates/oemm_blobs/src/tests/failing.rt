//! The system's files, read and written two bytes at a call, where one kind of call fails.

ghost use Rattle.std.specs.Prelude.{◌≤◌, IfOk};

use std::alloc::Allocator;
use std::fs::{File, Metadata, OpenFile, OpenOptions};
use std::io;
use std::io::{Empty, ErrorKind, Read, Seek, SeekFrom, Write};
use std::rt::Files;

/// A call of the system. `Write` and `Read` are the second of a file.
#[derive(Clone, Copy, PartialEq, Eq)]
pub enum Call {
    Open,
    Write,
    Sync,
    Rename,
    Read,
    Remove,
}

/// Files of which a call fails.
#[derive(Drop)]
pub struct Failing {
    pub rt: HostRuntime,
    pub call: Call,
    pub kind: ErrorKind,
}

#[derive(Drop)]
pub struct FailingFile {
    file: File,
    call: Call,
    kind: ErrorKind,
    calls: u8,
}

impl Failing {
    fn check(&self, call: Call) -> io::Result<()> {
        if self.call == call {
            return Err(io::Error::from(self.kind));
        }
        Ok(())
    }
}

impl FailingFile {
    /// How many of so many bytes the next call gives or takes.
    fn count(&mut self, call: Call, offered: usize) -> io::Result<usize>
        ensures { IfOk result (λ n. n ≤ offered) }
    {
        self.calls = self.calls.saturating_add(1);
        if self.call == call && self.calls == 2 {
            return Err(io::Error::from(self.kind));
        }
        Ok(offered.min(2))
    }
}

impl Read for FailingFile {
    fn read(&mut self, buf: &mut [u8]) -> io::Result<usize> {
        let count = self.count(Call::Read, buf.len())?;
        self.file.read(&mut buf[..count])
    }
}

impl Write for FailingFile {
    fn write(&mut self, buf: &[u8]) -> io::Result<usize> {
        let count = self.count(Call::Write, buf.len())?;
        self.file.write(&buf[..count])
    }

    fn flush(&mut self) -> io::Result<()> {
        self.file.flush()
    }
}

fn unsupported() -> io::Error {
    io::Error::from(ErrorKind::Unsupported)
}

impl Seek for FailingFile {
    fn seek(&mut self, _to: SeekFrom) -> io::Result<u64> {
        Err(unsupported())
    }
}

impl OpenFile for FailingFile {
    fn metadata(&self) -> io::Result<Metadata> {
        Err(unsupported())
    }

    fn set_len(&self, _size: u64) -> io::Result<()> {
        Err(unsupported())
    }

    fn sync_all(&self) -> io::Result<()> {
        Err(unsupported())
    }

    fn sync_data(&self) -> io::Result<()> {
        if self.call == Call::Sync {
            return Err(io::Error::from(self.kind));
        }
        self.file.sync_data()
    }
}

impl Files for Failing {
    type File = FailingFile;

    type Dir = Empty;

    fn open_file(&self, how: &OpenOptions, path: &str) -> io::Result<FailingFile> {
        self.check(Call::Open)?;
        Ok(FailingFile {
            file: self.rt.open_file(how, path)?,
            call: self.call,
            kind: self.kind,
            calls: 0,
        })
    }

    fn open_dir(&self, _path: &str) -> io::Result<Empty> {
        Err(unsupported())
    }

    fn metadata(&self, path: &str) -> io::Result<Metadata> {
        self.rt.metadata(path)
    }

    fn symlink_metadata(&self, _path: &str) -> io::Result<Metadata> {
        Err(unsupported())
    }

    fn copy(&self, _from: &str, _to: &str) -> io::Result<u64> {
        Err(unsupported())
    }

    fn rename(&self, from: &str, to: &str) -> io::Result<()> {
        self.check(Call::Rename)?;
        self.rt.rename(from, to)
    }

    fn remove_file(&self, path: &str) -> io::Result<()> {
        self.check(Call::Remove)?;
        self.rt.remove_file(path)
    }

    fn create_dir(&self, path: &str) -> io::Result<()> {
        self.rt.create_dir(path)
    }

    fn remove_dir(&self, _path: &str) -> io::Result<()> {
        Err(unsupported())
    }

    fn remove_dir_all<B: Allocator>(&self, _alloc: B, _path: &str) -> io::Result<()> {
        Err(unsupported())
    }
}
