//! How many workers the system has open files for.
ghost use Rattle.std.specs.Prelude.{◌≡◌};
ghost use Rattle.program_lines.specs.Files.{workers_for};

/// How many open files a worker may need at once: a connection, and a send.
const EACH: u64 = 2;

/// How many more the program may need.
const MORE: u64 = 40;

/// How many workers a process may have that may have this number of open files, if it is asked for that many: two files are for
/// each, and 40 more. It has at least one.
pub fn fitting_workers(files: u64, asked: u16) -> u16
    ensures { result ≡ workers_for files asked }
{
    let fitting = files.saturating_sub(MORE) / EACH;
    if fitting >= u64::from(asked) {
        asked
    } else {
        (fitting as u16).max(1)
    }
}
