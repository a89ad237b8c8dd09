// The trusted adapters from the file and output interfaces of commands to the operating system.

use std::alloc::Global;
use std::fs::OpenFile;
use std::io::{Read, Write};
use std::{fs, io, rt};
use tcd_base::{FileErr, Files, Sink, SinkErr};

/// The files of the system.
#[derive(Drop)]
pub struct RealFiles<'a, R> {
    /// The capability of the running program.
    pub rt: &'a R,
    /// The number of failed calls so far.
    pub failed: u64,
}

/// Standard output.
#[derive(Drop)]
pub struct Stdout<'a, R> {
    /// The capability of the running program.
    pub rt: &'a R,
    /// The number of failed calls so far.
    pub failed: u64,
}

impl<'a, R: rt::Files> Files for RealFiles<'a, R> {
    ghost use Rattle.std.specs.Prelude.{None, false};

    ghost seen = { λ f. record { held = None; steady = false; faults = f.failed } };

    ghost tells = { λ f h. Prim.cc };

    /// Reads the file of this name. `Err` is a failed call, which is counted, a file of more than
    /// `limit` bytes, or no memory.
    fn read(&mut self, alloc: Global, name: &str, limit: u32) -> Result<Vec<u8>, FileErr> {
        let Ok(mut file) = fs::open(self.rt, name) else {
            self.failed = self.failed.saturating_add(1);
            return Err(FileErr::Failed);
        };
        // The size is only a hint: a pipe has none, and a file may grow or shrink while it is read.
        let size = file.metadata().map_or(0, |m| m.len());
        let mut bytes = Vec::new(alloc);
        bytes.resize(size.min(u64::from(limit)) as usize, 0u8)?;
        let Some(count) = read_until_full(&mut file, &mut bytes) else {
            self.failed = self.failed.saturating_add(1);
            return Err(FileErr::Failed);
        };
        bytes.truncate(count);
        let mut buf = [0u8; 4096];
        for _ in 0..=limit {
            let Ok(count) = file.read(&mut buf) else {
                self.failed = self.failed.saturating_add(1);
                return Err(FileErr::Failed);
            };
            if count == 0 {
                return Ok(bytes);
            }
            if count > limit as usize - bytes.len() {
                return Err(FileErr::TooLong);
            }
            if bytes.extend_from_slice(&buf[..count]).is_err() {
                return Err(FileErr::NoMemory);
            }
        }
        Err(FileErr::TooLong)
    }

    /// Creates or replaces the file of this name. `Err` is a failed call, which is counted.
    fn write(&mut self, _alloc: Global, name: &str, bytes: &[u8]) -> Result<(), FileErr> {
        let Ok(mut file) = fs::create(self.rt, name) else {
            self.failed = self.failed.saturating_add(1);
            return Err(FileErr::Failed);
        };
        if write_all_bytes(&mut file, bytes) {
            Ok(())
        } else {
            self.failed = self.failed.saturating_add(1);
            Err(FileErr::Failed)
        }
    }
}

impl<'a, R: Print> Sink for Stdout<'a, R> {
    ghost use Rattle.std.specs.Prelude.{None};

    ghost seen = { λ s. record { written = None; room = None; faults = s.failed } };

    /// Writes these bytes to standard output. `Err` is a failed call, which is counted.
    fn write(&mut self, bytes: &[u8]) -> Result<(), SinkErr> {
        let mut out = io::writer(self.rt);
        if write_all_bytes(&mut out, bytes) {
            Ok(())
        } else {
            self.failed = self.failed.saturating_add(1);
            Err(SinkErr::Failed)
        }
    }
}

// Reads from an open file until the buffer `room` is full or the file ends. Returns the number of
// bytes read, or `None` if reading failed.
fn read_until_full<R: Read>(file: &mut R, room: &mut [u8]) -> Option<usize> {
    let mut filled = 0;
    while filled < room.len() {
        match file.read(&mut room[filled..]) {
            Ok(0) => break,
            Ok(count) => filled += count,
            Err(_) => return None,
        }
    }
    Some(filled)
}

// Writes all bytes to an open file or to standard output. Returns false after an error, or if a
// write takes no byte.
fn write_all_bytes<W: Write>(out: &mut W, bytes: &[u8]) -> bool {
    let mut rest = bytes;
    while !rest.is_empty() {
        match out.write(rest) {
            Ok(0) | Err(_) => return false,
            Ok(count) => rest = &rest[count..],
        }
    }
    true
}
