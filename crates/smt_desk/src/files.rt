// Files, standard input and standard output as sources and sinks. They tell no bytes, and count each failure.

ghost use Rattle.std.specs.Prelude.{◌≡◌, ◌≤◌, ltb};
ghost use Rattle.smt_desk.specs.Faults.{Rose};

use crate::stream::{Failed, Sink, Source};
use std::io::{Read, Write};
use std::rt::Files;
use std::{fs, io};

/// Counts a failure; the count ends at `u64::MAX`.
fn count_failure(faults: &mut u64) -> Failed
    ensures later { faults.old ≤ faults.new }
    ensures rose { Rose faults.old faults.new }
{
    *faults = faults.saturating_add(1);
    Failed
}

/// A file by its name, opened for reading at the first read.
#[derive(Drop)]
pub struct FileSource<'a, R: Files> {
    rt: &'a R,
    path: &'a str,
    file: Option<R::File>,
    taken: u64,
    faults: u64,
}

impl<'a, R: Files> FileSource<'a, R> {
    /// Opens nothing yet.
    pub fn new(rt: &'a R, path: &'a str) -> FileSource<'a, R> {
        FileSource {
            rt,
            path,
            file: None,
            taken: 0,
            faults: 0,
        }
    }

    /// How many bytes were read so far.
    pub fn taken(&self) -> u64
        ensures { result ≡ self.now.taken }
    {
        self.taken
    }

    /// Whether reading failed so far.
    pub fn has_failed(&self) -> bool
        ensures { result ≡ ltb 0 self.now.faults }
    {
        self.faults > 0
    }
}

impl<'a, R: Files> Source for FileSource<'a, R> {
    ghost use Rattle.std.specs.Prelude.{None};

    ghost left = { λ _. None };

    ghost faults = { λ s. s.faults };

    fn read(&mut self, buf: &mut [u8]) -> Result<usize, Failed> {
        if self.file.is_none() {
            self.file = fs::open(self.rt, self.path).ok();
        }
        let Some(file) = &mut self.file else {
            return Err(count_failure(&mut self.faults));
        };
        match file.read(buf) {
            Ok(size) => {
                self.taken = self.taken.saturating_add(size as u64);
                Ok(size)
            }
            Err(_) => Err(count_failure(&mut self.faults)),
        }
    }
}

/// A file by its name, created at the first write.
#[derive(Drop)]
pub struct FileSink<'a, R: Files> {
    rt: &'a R,
    path: &'a str,
    file: Option<R::File>,
    faults: u64,
}

impl<'a, R: Files> FileSink<'a, R> {
    /// Creates nothing yet.
    pub fn new(rt: &'a R, path: &'a str) -> FileSink<'a, R> {
        FileSink {
            rt,
            path,
            file: None,
            faults: 0,
        }
    }

    /// Whether writing failed so far.
    pub fn has_failed(&self) -> bool
        ensures { result ≡ ltb 0 self.now.faults }
    {
        self.faults > 0
    }
}

impl<'a, R: Files> Sink for FileSink<'a, R> {
    ghost use Rattle.std.specs.Prelude.{None};

    ghost written = { λ _. None };

    ghost faults = { λ s. s.faults };

    fn write(&mut self, piece: &[u8]) -> Result<usize, Failed> {
        if self.file.is_none() {
            self.file = fs::create(self.rt, self.path).ok();
        }
        let Some(file) = &mut self.file else {
            return Err(count_failure(&mut self.faults));
        };
        match file.write(piece) {
            Ok(0) if !piece.is_empty() => Err(count_failure(&mut self.faults)),
            Ok(size) => Ok(size),
            Err(_) => Err(count_failure(&mut self.faults)),
        }
    }
}

/// Standard input.
#[derive(Drop)]
pub struct StandardInput<'a, R: Input> {
    rt: &'a R,
    faults: u64,
}

impl<'a, R: Input> StandardInput<'a, R> {
    /// Reads nothing yet.
    pub fn new(rt: &'a R) -> StandardInput<'a, R> {
        StandardInput { rt, faults: 0 }
    }
}

impl<'a, R: Input> Source for StandardInput<'a, R> {
    ghost use Rattle.std.specs.Prelude.{None};

    ghost left = { λ _. None };

    ghost faults = { λ s. s.faults };

    fn read(&mut self, buf: &mut [u8]) -> Result<usize, Failed> {
        match self.rt.reader().read(buf) {
            Ok(size) => Ok(size),
            Err(_) => Err(count_failure(&mut self.faults)),
        }
    }
}

/// Standard output.
#[derive(Drop)]
pub struct StandardOutput<'a, R: Print> {
    rt: &'a R,
    faults: u64,
}

impl<'a, R: Print> StandardOutput<'a, R> {
    /// Writes nothing yet.
    pub fn new(rt: &'a R) -> StandardOutput<'a, R> {
        StandardOutput { rt, faults: 0 }
    }
}

impl<'a, R: Print> Sink for StandardOutput<'a, R> {
    ghost use Rattle.std.specs.Prelude.{None};

    ghost written = { λ _. None };

    ghost faults = { λ s. s.faults };

    fn write(&mut self, piece: &[u8]) -> Result<usize, Failed> {
        match io::writer(self.rt).write(piece) {
            Ok(0) if !piece.is_empty() => Err(count_failure(&mut self.faults)),
            Ok(size) => Ok(size),
            Err(_) => Err(count_failure(&mut self.faults)),
        }
    }
}
