//! A journal that is read.
ghost use Rattle.std.specs.Prelude.{◌≡◌, ◌≢◌, []};
ghost use Rattle.router_disk.specs.Faults.{Rose};
ghost use Rattle.bus_host.specs.Host.{SameGiven};
ghost use Rattle.program_lines.specs.declared.status.Status.TheVariants as statuses;
ghost use Rattle.journal_check.specs.Check.{IsCheck, IsInspected, around_disk, status_of_fault, status_of_opening};

use bus_host::{Host, HostFault};
use duty_journal::{JournalFault, inspect};
use program_lines::Status;
use router_disk::{Disk, Sink};
use std::alloc::Global;
use tables_summary::sum_up;

/// Reads the journal of the file at `path`, and prints the summary of its tables. Nothing is written to the file; one that is missing is
/// created, empty. The host takes the disk back.
pub fn check<K: Sink, H: Host>(alloc: Global, path: &str, output: &mut K, host: &mut H) -> Status
    ensures check { IsCheck H.Disk.calls H.Disk.faults path.now
        (around_disk (K.wrote output.old) (H.disks_given host.old) (H.disks_back host.old) (H.disk_faults host.old))
        (around_disk (K.wrote output.new) (H.disks_given host.new) (H.disks_back host.new) (H.disk_faults host.new)) result }
    ensures write_fault { result ≡ statuses.WriteFault → Rose (K.faults output.old) (K.faults output.new) }
    ensures output_faultless { result ≢ statuses.WriteFault → K.faults output.new ≡ K.faults output.old }
    ensures others { (H.door_faults host.new ≡ H.door_faults host.old) × (H.link_faults host.new ≡ H.link_faults host.old) }
    ensures doors { SameGiven H.doors_given H.doors_back host.old host.new }
    ensures links { SameGiven H.links_given H.links_back host.old host.new }
{
    match host.disk(path) {
        Ok(mut disk) => {
            let status = read(alloc, &mut disk, output);
            host.back_disk(disk);
            status
        }
        Err(fault) => opening_status(fault),
    }
}

/// Prints the summary of the journal on a disk that was just opened.
fn read<K: Sink, D: Disk>(alloc: Global, disk: &mut D, output: &mut K) -> Status
    requires opened { D.calls disk.old ≡ [] }
    ensures read { IsInspected (D.faults disk.old) (D.faults disk.new) (D.calls disk.new) (K.wrote output.old) (K.wrote output.new) result }
    ensures write_fault { result ≡ statuses.WriteFault → Rose (K.faults output.old) (K.faults output.new) }
    ensures output_faultless { result ≢ statuses.WriteFault → K.faults output.new ≡ K.faults output.old }
{
    match inspect(alloc, disk) {
        Ok(found) => sum_up(alloc, &found.tables, output),
        Err(fault) => fault_status(fault),
    }
}

/// The status of a host that gave no disk.
pub fn opening_status(fault: HostFault) -> Status
    ensures { result ≡ status_of_opening fault }
{
    match fault {
        HostFault::Failed => Status::DiskFault,
        HostFault::NoMemory => Status::NoMemory,
    }
}

/// The status of a journal that is not read or opened.
pub fn fault_status(fault: JournalFault) -> Status
    ensures { result ≡ status_of_fault fault }
{
    match fault {
        JournalFault::NotOurs => Status::NotOurs,
        JournalFault::Damaged { place, byte } => Status::Damaged { place, byte },
        JournalFault::Failed => Status::DiskFault,
        JournalFault::NoMemory => Status::NoMemory,
    }
}
