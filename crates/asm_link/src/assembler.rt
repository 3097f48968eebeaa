//! From a source to its image.

ghost use Rattle.std.specs.Prelude.{◌≢◌, ◌≤◌, length, IfOk, IfErr};
ghost use Rattle.pmsi_model.specs.declared.limits.TheConstants.{MAX_FILE_BYTES};
ghost use Rattle.pmsi_model.specs.Image.{ImageValue};
ghost use Rattle.asm_parse.specs.Assembly.{IsAssembled, HasAsmFault};
ghost use Rattle.asm_link.specs.Laws.{GivesOnly};

use crate::fill::fill;
use crate::layout::{Layout, lay_out};
use asm_parse::AsmFault;
use pmsi_model::limits::MAX_FILE_BYTES;
use pmsi_model::{Image, Pieces, Words};
use std::alloc::Global;

/// The image of a source, or the first fault of its two rounds.
pub fn assemble(alloc: Global, source: &str) -> Result<Image, AsmFault>
    requires { length source.now ≤ MAX_FILE_BYTES }
    ensures image { IfOk result (λ image. IsAssembled source.now image) }
    ensures fault { IfErr result (λ e. e ≢ AsmFault.NoMemory → HasAsmFault source.now e) }
    ensures only { (image : ImageValue) → IsAssembled source.now image → GivesOnly image result }
{
    let Layout {
        names,
        mut memory,
        steps,
        ..
    } = lay_out(alloc, source)?;
    let words = fill(alloc, &steps, &names, &mut memory)?;
    let pieces = memory.pieces(alloc)?;
    Ok(Image::new(Words::from_vec(words), Pieces::from_vec(pieces)))
}
