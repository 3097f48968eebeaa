//! Laws of images and faults: each function has an empty body, and its contract is the law.

ghost use Rattle.image_file.specs.Laws.{NumbersAgree, ImageOrFault, NotBoth, OneImage, NeverMemory, FitsFile};

/// Four bytes are those of the number that they read as, and a number of four bytes is the one that its bytes read as.
pub fn four_bytes()
    ensures { NumbersAgree }
{}

/// All bytes are those of one image, or have one fault, and not both.
pub fn image_or_fault()
    ensures either { ImageOrFault }
    ensures not_both { NotBoth }
    ensures one_image { OneImage }
    ensures never_memory { NeverMemory }
{}

/// The bytes of an image are no more than a file may have, so what is written can be read.
pub fn bytes_of_an_image()
    ensures { FitsFile }
{}
