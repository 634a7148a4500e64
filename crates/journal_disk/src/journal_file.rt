// The file of a journal, opened so that no other process has it.
ghost use Rattle.std.specs.Prelude.{◌≡◌, [], IfOk};

use bus_host::HostFault;
use libc::{POSIX_FADV_DONTNEED, posix_fadvise};
use router_disk::FileDisk;
use std::alloc::Global;
use std::fs::{File, OpenOptions, TryLockError};
use std::io;
use std::io::ErrorKind;
use std::os::fd::AsRawFd;
use std::os::unix::fs::OpenOptionsExt;
use std::rt::Files;

/// Who may read and write a new file: its owner alone.
const MODE: u32 = 0o600;

/// Why a file is not opened.
#[derive(Drop)]
enum Reason {
    /// A call of the system failed.
    Call(&'static str, io::Error),
    /// It is no regular file.
    NotRegular,
    /// Another process has it.
    Locked,
}

/// A disk over the regular file at `path`; if it is missing it is made. As long as the disk is there no other process opens it so. The file
/// and its folder are synced, and what the system keeps of the file in memory is given up: after a sync that failed it may be what
/// the disk does not have. If it is not opened a line on standard error has the reason.
pub fn open_disk<R: Files<File = File> + Eprint + Copy>(
    alloc: Global,
    system: R,
    path: &str,
) -> Result<FileDisk<File, R>, HostFault>
    ensures { IfOk result (λ disk. disk.calls ≡ []) }
{
    let Ok(name) = String::from_str(alloc, path) else {
        return Err(HostFault::NoMemory);
    };
    match open(&system, path) {
        Ok(file) => Ok(FileDisk::new(file, name, system)),
        Err(reason) => {
            report(&system, path, reason);
            Err(HostFault::Failed)
        }
    }
}

fn report<R: Eprint>(system: &R, path: &str, reason: Reason) {
    let _ = match reason {
        Reason::Call(call, reason) => eprintln!(system; "ebusd: journal {path}: {call}: {reason}"),
        Reason::NotRegular => eprintln!(system; "ebusd: journal {path}: not a regular file"),
        Reason::Locked => eprintln!(system; "ebusd: journal {path}: another process has it"),
    };
}

fn open<R: Files<File = File>>(system: &R, path: &str) -> Result<File, Reason> {
    let file = find(system, path)?;
    lock(&file)?;
    match file.sync_all() {
        Ok(()) => {}
        Err(reason) => return Err(Reason::Call("fsync", reason)),
    }
    forget(&file)?;
    sync_folder(system, path)?;
    Ok(file)
}

/// The file at `path`, made if it is missing.
fn find<R: Files<File = File>>(system: &R, path: &str) -> Result<File, Reason> {
    match system.metadata(path) {
        Ok(metadata) => {
            if metadata.is_file() {
                opened(OpenOptions::new().read(true).write(true), system, path)
            } else {
                Err(Reason::NotRegular)
            }
        }
        Err(reason) => {
            if reason.kind() == ErrorKind::NotFound {
                make(system, path)
            } else {
                Err(Reason::Call("stat", reason))
            }
        }
    }
}

fn make<R: Files<File = File>>(system: &R, path: &str) -> Result<File, Reason> {
    let mut options = OpenOptions::new();
    options.read(true).write(true).create_new(true).mode(MODE);
    opened(&options, system, path)
}

fn opened<R: Files<File = File>>(
    options: &OpenOptions,
    system: &R,
    path: &str,
) -> Result<File, Reason> {
    match options.open(system, path) {
        Ok(file) => Ok(file),
        Err(reason) => Err(Reason::Call("open", reason)),
    }
}

fn lock(file: &File) -> Result<(), Reason> {
    match file.try_lock() {
        Ok(()) => Ok(()),
        Err(TryLockError::WouldBlock) => Err(Reason::Locked),
        Err(TryLockError::Error(reason)) => Err(Reason::Call("flock", reason)),
    }
}

/// Has the system read the file from the disk from now on.
fn forget(file: &File) -> Result<(), Reason> {
    let code = posix_fadvise(file.as_raw_fd(), 0, 0, POSIX_FADV_DONTNEED);
    if code == 0 {
        Ok(())
    } else {
        Err(Reason::Call("posix_fadvise", io::Error::from_raw_os_error(code)))
    }
}

/// Syncs the folder, so that a file that was made stays there after a crash.
fn sync_folder<R: Files<File = File>>(system: &R, path: &str) -> Result<(), Reason> {
    match File::open(system, folder_of(path)) {
        Ok(folder) => match folder.sync_all() {
            Ok(()) => Ok(()),
            Err(reason) => Err(Reason::Call("fsync of its folder", reason)),
        },
        Err(reason) => Err(Reason::Call("open of its folder", reason)),
    }
}

fn folder_of(path: &str) -> &str {
    match path.rsplit_once('/') {
        Some((folder, _)) => { if folder.is_empty() { "/" } else { folder } }
        None => ".",
    }
}
