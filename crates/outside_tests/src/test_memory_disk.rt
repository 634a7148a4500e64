//! The disk in memory: its calls, and what a crash leaves of it.
use memory_disk::{MemoryDisk, Tear};
use router_disk::{Disk, Failed};

// Whether a crash after so many calls leaves these bytes, if so many bytes of each write since the last sync are there and the others are
// `rest`.
fn leaves(disk: &MemoryDisk, calls: usize, front: usize, rest: Option<u8>, wanted: &[u8]) -> bool {
    match disk.image(calls, Tear { front, rest }) {
        Some(image) => image.as_slice() == wanted,
        None => false,
    }
}

#[test]
fn a_disk_in_memory_keeps_its_calls(rt: HostRuntime) {
    let alloc = rt.alloc();
    let plan = [false, false, false, false, true].to_vec(alloc);
    let plan = plan.expect(&rt, "plan");
    let mut disk = MemoryDisk::new(alloc, b"abc", plan).expect(&rt, "disk");
    let mut read = [0u8; 2];
    assert_eq!(rt; disk.sync(), Ok(()), "call 1");
    assert_eq!(rt; disk.write_at(2, b"XY"), Ok(()), "call 2");
    assert_eq!(rt; disk.size(), Ok(4), "call 3");
    assert_eq!(rt; disk.read(1, &mut read), Ok(()), "call 4");
    assert_eq!(rt; read, *b"bX");
    assert_eq!(rt; disk.sync(), Err(Failed), "call 5");
    assert_eq!(rt; disk.cut(9), Err(Failed), "call 6 is above the end");
    assert_eq!(rt; disk.faults(), 2);
    assert_eq!(rt; disk.bytes(), b"abXY".as_slice());
    assert!(rt; leaves(&disk, 1, 0, Some(9), b"abc"));
    assert!(rt; leaves(&disk, 2, 0, None, b"abc"));
    assert!(rt; leaves(&disk, 2, 1, None, b"abX"));
    assert!(rt; leaves(&disk, 2, 9, None, b"abXY"));
    assert!(rt; leaves(&disk, 5, 1, Some(9), b"abX\t"));
    assert!(rt;
        disk.image(
            7,
            Tear {
                front: 0,
                rest: None
            }
        )
        .is_none()
    );
}

#[test]
fn after_a_sync_a_crash_leaves_what_a_read_gives(rt: HostRuntime) {
    let alloc = rt.alloc();
    let mut disk = MemoryDisk::new(alloc, b"abc", Vec::new(alloc)).expect(&rt, "disk");
    assert_eq!(rt; disk.write_at(5, b"d"), Ok(()), "call 1");
    assert_eq!(rt; disk.cut(4), Ok(()), "call 2");
    assert_eq!(rt; disk.sync(), Ok(()), "call 3");
    assert_eq!(rt; disk.bytes(), b"abc\0".as_slice());
    assert!(rt; leaves(&disk, 1, 9, None, b"abc"));
    assert!(rt; leaves(&disk, 3, 0, None, b"abc\0"));
}
