//! Laws of the definitions: a function has an empty body, and its contract is the law.

ghost use Rattle.asm_link.specs.Laws.{AssemblesOnce, FaultsAreNotMemory, ImageOrFault, ImagesHaveNoFault};

/// A source has one image at most, and no fault where it has one.
pub fn assembles_once()
    ensures one { AssemblesOnce }
    ensures faultless { ImagesHaveNoFault }
{}

/// A source has an image or else a fault, which is never want of memory.
pub fn image_or_fault()
    ensures either { ImageOrFault }
    ensures never_memory { FaultsAreNotMemory }
{}
