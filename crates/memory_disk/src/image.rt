// What a crash may leave of a disk in memory.
ghost use Rattle.std.specs.Prelude.{◌≡◌, ◌≤◌, IfOk, Some, length, map, option_map};
ghost use Rattle.router_disk.specs.declared.disk_call.DiskCall.TheVariants as disk_calls;
ghost use Rattle.router_disk.specs.Disk.{Torn, file_after};
ghost use Rattle.memory_disk.specs.HeldDisk.{IsLeft, IsNextImage, file_in};
ghost use Rattle.memory_disk.specs.Tape.{call_of};

use crate::overwrite::overwrite;
use crate::tape::Kept;
use router_disk::Failed;
use std::alloc::{AllocError, Global};

/// How a crash tears each write since the last sync.
#[derive(Clone, Copy, Debug, PartialEq, Eq)]
pub struct Tear {
    /// The number of its first bytes that are on the disk.
    pub front: usize,
    /// What each of its other bytes is on the disk. `None`: what was there before.
    pub rest: Option<u8>,
}

// What a read gives after some calls, if that is known, and an image that a crash after them may leave.
#[derive(Drop)]
pub struct Left {
    pub file: Option<Vec<u8>>,
    pub image: Vec<u8>,
}

// What a crash after these calls leaves of a file that had the bytes `first`, if it tears each write so.
pub(crate) fn left_by(
    alloc: Global,
    first: &[u8],
    calls: &[Kept],
    tear: Tear,
) -> Result<Left, AllocError>
    ensures { IfOk result (λ left. IsLeft first.now (map call_of calls.now) left) }
{
    let mut left = Left {
        file: Some(first.to_vec(alloc)?),
        image: first.to_vec(alloc)?,
    };
    for call in calls {
        left = after(alloc, &left, call, tear)?;
    }
    Ok(left)
}

fn after(alloc: Global, left: &Left, call: &Kept, tear: Tear) -> Result<Left, AllocError>
    ensures file { IfOk result (λ next. file_in next ≡ file_after (file_in left.now) (call_of call.now)) }
    ensures image { IfOk result (λ next. IsNextImage (file_in left.now) (call_of call.now) left.now.image.items next.image.items) }
{
    let image = next_image(alloc, left, call, tear)?;
    let file = next_file(alloc, left, call)?;
    Ok(Left { file, image })
}

fn next_file(alloc: Global, left: &Left, call: &Kept) -> Result<Option<Vec<u8>>, AllocError>
    ensures { IfOk result (λ next. option_map (λ bytes. bytes.items) next ≡ file_after (file_in left.now) (call_of call.now)) }
{
    match &left.file {
        Some(file) => known_file(alloc, file.as_slice(), call),
        None => Ok(None),
    }
}

fn known_file(alloc: Global, file: &[u8], call: &Kept) -> Result<Option<Vec<u8>>, AllocError>
    ensures { IfOk result (λ next. option_map (λ bytes. bytes.items) next ≡ file_after (Some file.now) (call_of call.now)) }
{
    match call {
        Kept::Size(_) => same(alloc, file),
        Kept::Read(_, _, _) => same(alloc, file),
        Kept::Write(at, bytes, answer) => written(alloc, file, *at, bytes.as_slice(), *answer),
        Kept::Cut(len, answer) => shortened(alloc, file, *len, *answer),
        Kept::Sync(answer) => synced(alloc, file, *answer),
    }
}

fn same(alloc: Global, file: &[u8]) -> Result<Option<Vec<u8>>, AllocError>
    ensures { IfOk result (λ next. option_map (λ bytes. bytes.items) next ≡ Some file.now) }
{
    Ok(Some(file.to_vec(alloc)?))
}

fn written(
    alloc: Global,
    file: &[u8],
    at: u64,
    bytes: &[u8],
    answer: Result<(), Failed>,
) -> Result<Option<Vec<u8>>, AllocError>
    ensures { IfOk result (λ next. option_map (λ bytes. bytes.items) next
        ≡ file_after (Some file.now) (disk_calls.Write at bytes.now answer)) }
{
    match answer {
        Ok(()) => Ok(Some(overwrite(alloc, file, at, bytes)?)),
        Err(Failed) => Ok(None),
    }
}

fn shortened(
    alloc: Global,
    file: &[u8],
    len: u64,
    answer: Result<(), Failed>,
) -> Result<Option<Vec<u8>>, AllocError>
    ensures { IfOk result (λ next. option_map (λ bytes. bytes.items) next
        ≡ file_after (Some file.now) (disk_calls.Cut len answer)) }
{
    match answer {
        Ok(()) => {
            let mut next = file.to_vec(alloc)?;
            next.truncate(len as usize);
            Ok(Some(next))
        }
        Err(Failed) => Ok(None),
    }
}

fn synced(
    alloc: Global,
    file: &[u8],
    answer: Result<(), Failed>,
) -> Result<Option<Vec<u8>>, AllocError>
    ensures { IfOk result (λ next. option_map (λ bytes. bytes.items) next
        ≡ file_after (Some file.now) (disk_calls.Sync answer)) }
{
    match answer {
        Ok(()) => same(alloc, file),
        Err(Failed) => Ok(None),
    }
}

fn next_image(alloc: Global, left: &Left, call: &Kept, tear: Tear) -> Result<Vec<u8>, AllocError>
    ensures { IfOk result (λ image. IsNextImage (file_in left.now) (call_of call.now) left.now.image.items image.items) }
{
    match call {
        Kept::Size(_) => left.image.as_slice().to_vec(alloc),
        Kept::Read(_, _, _) => left.image.as_slice().to_vec(alloc),
        Kept::Write(at, bytes, _) => {
            torn(alloc, left.image.as_slice(), *at, bytes.as_slice(), tear)
        }
        // A cut that was not synced is not on the disk.
        Kept::Cut(_, _) => left.image.as_slice().to_vec(alloc),
        Kept::Sync(answer) => synced_image(alloc, left, *answer),
    }
}

fn synced_image(
    alloc: Global,
    left: &Left,
    answer: Result<(), Failed>,
) -> Result<Vec<u8>, AllocError>
    ensures { IfOk result (λ image. IsNextImage (file_in left.now) (disk_calls.Sync answer) left.now.image.items image.items) }
{
    match &left.file {
        Some(file) => match answer {
            Ok(()) => file.as_slice().to_vec(alloc),
            Err(Failed) => left.image.as_slice().to_vec(alloc),
        },
        None => left.image.as_slice().to_vec(alloc),
    }
}

// What a crash makes of these bytes while others are written over them.
fn torn(
    alloc: Global,
    image: &[u8],
    at: u64,
    bytes: &[u8],
    tear: Tear,
) -> Result<Vec<u8>, AllocError>
    ensures { IfOk result (λ next. Torn at (length bytes.now) image.now next.items) }
{
    if at > image.len() as u64 {
        return image.to_vec(alloc);
    }
    let piece = piece(alloc, bytes, tear)?;
    overwrite(alloc, image, at, piece.as_slice())
}

// What is on the disk in place of these bytes.
fn piece(alloc: Global, bytes: &[u8], tear: Tear) -> Result<Vec<u8>, AllocError>
    ensures { IfOk result (λ piece. length piece.items ≤ length bytes.now) }
{
    let mut piece = bytes[..tear.front.min(bytes.len())].to_vec(alloc)?;
    if let Some(byte) = tear.rest {
        piece.resize(bytes.len(), byte)?;
    }
    Ok(piece)
}
