// A file of the system as a disk.
ghost use Rattle.std.specs.Prelude.{◌≡◌};

use crate::fault::counted;
use crate::{Disk, DiskCalls, Failed};
use std::fs::OpenFile;
use std::io;
use std::io::ErrorKind;
use std::os::unix::fs::FileExt;

/// An open file as a disk. It makes one system call a method, and as many as the system needs for all bytes of a read or a write; a cut
/// asks for the length first. A call that was interrupted is made again, and every other short end is `Failed`: then a line on standard error
/// has the file's name, the call and the system's reason.
#[derive(Drop)]
pub struct FileDisk<F, R> {
    file: F,
    reasons: Reasons<R>,
    calls: DiskCalls,
    faults: u64,
}

impl<F, R> FileDisk<F, R> {
    ghost use Rattle.std.specs.Prelude.{[]};

    /// A disk over `file`, with no call and no fault yet. Its lines call it `name`.
    pub fn new(file: F, name: String, system: R) -> Self
        ensures calls { result.calls ≡ [] }
        ensures faults { result.faults ≡ 0 }
    {
        FileDisk {
            file,
            reasons: Reasons { name, system },
            calls: DiskCalls::new(),
            faults: 0,
        }
    }
}

// What writes the reason of a failed call.
#[derive(Drop)]
struct Reasons<R> {
    name: String,
    system: R,
}

impl<R: Eprint> Reasons<R> {
    // The answer of a call of the system. A line has the reason if it failed.
    fn noted<T>(&self, call: &str, answer: io::Result<T>) -> Result<T, Failed> {
        match answer {
            Ok(value) => Ok(value),
            Err(reason) => {
                let name = self.name.as_str();
                let _ = eprintln!(self.system; "ebusd: journal {name}: {call}: {reason}");
                Err(Failed)
            }
        }
    }
}

impl<F: OpenFile + FileExt + Send, R: Eprint + Send> Disk for FileDisk<F, R> {
    ghost calls = { λ d. d.calls };

    ghost faults = { λ d. d.faults };

    fn faults(&self) -> u64 {
        self.faults
    }

    fn size(&mut self) -> Result<u64, Failed> {
        let answer = if self.faults == u64::MAX {
            Err(Failed)
        } else {
            self.reasons.noted("fstat", length(&self.file))
        };
        self.calls.size(answer);
        counted(&mut self.faults, answer)
    }

    fn read(&mut self, at: u64, into: &mut [u8]) -> Result<(), Failed> {
        let answer = if self.faults == u64::MAX {
            Err(Failed)
        } else {
            self.reasons
                .noted("pread", self.file.read_exact_at(into, at))
        };
        self.calls.read(at, into, answer);
        counted(&mut self.faults, answer)
    }

    fn write_at(&mut self, at: u64, bytes: &[u8]) -> Result<(), Failed> {
        let answer = if self.faults == u64::MAX {
            Err(Failed)
        } else {
            self.reasons
                .noted("pwrite", self.file.write_all_at(bytes, at))
        };
        self.calls.write_at(at, bytes, answer);
        counted(&mut self.faults, answer)
    }

    fn cut(&mut self, len: u64) -> Result<(), Failed> {
        let answer = if self.faults == u64::MAX {
            Err(Failed)
        } else {
            self.reasons.noted("ftruncate", shorten(&self.file, len))
        };
        self.calls.cut(len, answer);
        counted(&mut self.faults, answer)
    }

    fn sync(&mut self) -> Result<(), Failed> {
        let answer = if self.faults == u64::MAX {
            Err(Failed)
        } else {
            self.reasons.noted("fdatasync", sync(&self.file))
        };
        self.calls.sync(answer);
        counted(&mut self.faults, answer)
    }
}

fn length<F: OpenFile>(file: &F) -> io::Result<u64> {
    for _ in 0..u64::MAX {
        match file.metadata() {
            Ok(metadata) => return Ok(metadata.len()),
            Err(reason) => {
                if reason.kind() != ErrorKind::Interrupted {
                    return Err(reason);
                }
            }
        }
    }
    Err(io::Error::from(ErrorKind::Interrupted))
}

// The system extends a shorter file: so the length is asked for first.
fn shorten<F: OpenFile>(file: &F, len: u64) -> io::Result<()> {
    if length(file)? < len {
        return Err(io::Error::from(ErrorKind::UnexpectedEof));
    }
    for _ in 0..u64::MAX {
        match file.set_len(len) {
            Ok(()) => return Ok(()),
            Err(reason) => {
                if reason.kind() != ErrorKind::Interrupted {
                    return Err(reason);
                }
            }
        }
    }
    Err(io::Error::from(ErrorKind::Interrupted))
}

fn sync<F: OpenFile>(file: &F) -> io::Result<()> {
    for _ in 0..u64::MAX {
        match file.sync_data() {
            Ok(()) => return Ok(()),
            Err(reason) => {
                if reason.kind() != ErrorKind::Interrupted {
                    return Err(reason);
                }
            }
        }
    }
    Err(io::Error::from(ErrorKind::Interrupted))
}
