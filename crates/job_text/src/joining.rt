//! Makes a job of a shape and the images of its cores.

ghost use Rattle.std.specs.Prelude.{◌≡◌, ◌≢◌, ◌⊎◌, ◌↔◌, ◌≤◌, ◌<◌, ◌^◌, ℕ, length, map, None, Some, Ok, Err, IfOk, IfErr, IfSome, IsTrue, MatchOption};
ghost use Rattle.std.specs.List.{All};
ghost use Rattle.std.specs.Option.{unwrap_or};
ghost use Rattle.pmsi_model.specs.Geometry.{IsGeometry};
ghost use Rattle.pmsi_model.specs.Job.{JobValue};
ghost use Rattle.job_text.specs.declared.job_fault.JobFault.{JobFault};
ghost use Rattle.job_text.specs.Joining.{AreWithin, DoDiffer, HasJoinFault, IsFirstDifference, IsFirstPast, IsJoined, byte_of};
ghost use Rattle.job_text.specs.Joins.{AreFirst, AreTexts, HasOther, IsLeast, IsOther, lower_of};

use crate::job_fault::JobFault;
use crate::naming::{byte_in, name_pieces, other_in, past_in};
use pmsi_model::{Bytes, Geometry, Image, Job, WordLists, Words};
use std::alloc::{AllocError, Global};

/// Makes a job: each core runs its image's text, and memory starts with the bytes that the images name, and 0 elsewhere. Cores
/// may name one byte alike. Else the first fault of the images is told, which is a byte past the memory before any difference.
pub fn join_job(alloc: Global, shape: Geometry, images: &[Image]) -> Result<Job, JobFault>
    requires shape { IsGeometry shape }
    requires images { length images.now ≡ shape.cores }
    // What is made is the job of these images, and a fault is the first that they have.
    ensures job { IfOk result (λ job. IsJoined shape images.now job) }
    ensures fault { IfErr result (λ fault. fault ≢ JobFault.NoMemory → HasJoinFault shape images.now fault) }
    // A job that the images have is made, and where they have a fault it is answered, unless memory runs out.
    ensures joins { (job : JobValue) → IsJoined shape images.now job → (result ≡ Ok job) ⊎ (result ≡ Err JobFault.NoMemory) }
    ensures fails { (fault : JobFault) → HasJoinFault shape images.now fault → (result ≡ Err fault) ⊎ (result ≡ Err JobFault.NoMemory) }
{
    match joined(alloc, shape, images) {
        Ok(job) => Ok(job),
        Err(fault) => Err(fault),
    }
}

/// The job of images, or their first fault.
fn joined(alloc: Global, shape: Geometry, images: &[Image]) -> Result<Job, JobFault>
    requires shape { IsGeometry shape }
    requires images { length images.now ≡ shape.cores }
    ensures job { IfOk result (λ job. IsJoined shape images.now job) }
    ensures fault { IfErr result (λ fault. fault ≢ JobFault.NoMemory → HasJoinFault shape images.now fault) }
{
    if let Some((core, address)) = first_past(shape, images) {
        return Err(JobFault::Beyond(core, address));
    }
    let cells = named_bytes(alloc, shape, images)?;
    if let Some((core, other, address)) = first_difference(shape, images, &cells) {
        return Err(JobFault::Overlap(core, other, address));
    }
    let texts = texts_of(alloc, images)?;
    let start = start_of(alloc, &cells)?;
    Ok(Job::new(shape, WordLists::from_vec(texts), Bytes::from_vec(start)))
}

/// The first core with a byte past the memory, and its least such address.
fn first_past(shape: Geometry, images: &[Image]) -> Option<(u32, u32)>
    requires { length images.now ≤ 2 ^ 16 }
    ensures { MatchOption result (AreWithin shape images.now) (λ x. IsFirstPast shape images.now x.0 x.1) }
{
    let mut core = 0;
    for image in images {
        if let Some(address) = past_in(image.pieces(), shape.memory) {
            return Some((core, address));
        }
        core += 1;
    }
    None
}

/// The bytes of memory that the images name.
fn named_bytes(
    alloc: Global,
    shape: Geometry,
    images: &[Image],
) -> Result<Vec<Option<u8>>, AllocError>
    requires { AreWithin shape images.now }
    ensures { IfOk result (λ cells. AreFirst images.now shape.memory cells.items) }
{
    let mut cells = vec![in alloc; None; shape.memory as usize]?;
    for image in images {
        name_pieces(&mut cells, image.pieces());
    }
    Ok(cells)
}

/// The first difference between two images.
fn first_difference(
    shape: Geometry,
    images: &[Image],
    cells: &[Option<u8>],
) -> Option<(u32, u32, u32)>
    requires count { length images.now ≤ 2 ^ 16 }
    requires within { AreWithin shape images.now }
    requires cells { AreFirst images.now shape.memory cells.now }
    ensures none { result ≡ None → (core other address : ℕ) → DoDiffer images.now core other address → ⊥ }
    ensures some { IfSome result (λ x. IsFirstDifference images.now x.0 x.1 x.2) }
{
    let address = least_other(shape, images, cells)?;
    let core = first_other(images, address, None)?;
    let other = first_other(images, address, cells[address as usize])?;
    Some((core, other, address))
}

/// The least address at which an image has another byte than the cell.
fn least_other(shape: Geometry, images: &[Image], cells: &[Option<u8>]) -> Option<u32>
    requires within { AreWithin shape images.now }
    requires cells { AreFirst images.now shape.memory cells.now }
    ensures { IsLeast (HasOther images.now cells.now) result }
{
    let mut least = None;
    for image in images {
        least = lower(least, other_in(image.pieces(), cells));
    }
    least
}

/// The lower of two addresses that may be missing.
fn lower(one: Option<u32>, two: Option<u32>) -> Option<u32>
    ensures { result ≡ lower_of one two }
{
    match (one, two) {
        (Some(a), Some(b)) => Some(a.min(b)),
        (None, other) | (other, None) => other,
    }
}

/// The first core with another byte at the address than the cell.
fn first_other(images: &[Image], address: u32, cell: Option<u8>) -> Option<u32>
    requires { length images.now ≤ 2 ^ 16 }
    ensures { IsLeast (λ core. IsOther (byte_of images.now core address) cell) result }
{
    let mut core = 0;
    for image in images {
        if is_other(byte_in(image.pieces(), address), cell) {
            return Some(core);
        }
        core += 1;
    }
    None
}

/// Whether a byte is named, and is another than the cell's.
fn is_other(byte: Option<u8>, cell: Option<u8>) -> bool
    ensures { IsTrue result ↔ IsOther byte cell }
{
    byte.is_some() && byte != cell
}

/// A copy of each text.
fn texts_of(alloc: Global, images: &[Image]) -> Result<Vec<Words>, AllocError>
    ensures texts { IfOk result (λ texts. texts.items ≡ map (λ image. image.text) images.now) }
    ensures fit { IfOk result (λ texts. AreTexts texts.items) }
{
    let mut texts = Vec::with_capacity(alloc, images.len())?;
    for image in images {
        texts.push(Words::from_vec(Vec::from_slice(alloc, image.text())?))?;
    }
    Ok(texts)
}

/// The bytes of cells, and 0 where no byte was named.
fn start_of(alloc: Global, cells: &[Option<u8>]) -> Result<Vec<u8>, AllocError>
    ensures cells { IfOk result (λ start. start.items ≡ map (λ cell. unwrap_or cell 0) cells.now) }
    ensures bytes { IfOk result (λ start. All (λ byte. byte < 256) start.items) }
{
    let mut start = Vec::with_capacity(alloc, cells.len())?;
    for cell in cells {
        start.push(cell.unwrap_or(0))?;
    }
    Ok(start)
}
