//! What a job text gives: the shape of a machine, and for each core a program or the name of its file.

use pmsi_model::{Geometry, Sequence, Utf8Text, Words};

/// A core's program: its words, or the name of a file with assembly or with an image.
#[derive(Debug, Drop)]
pub enum Program {
    Words(Words),
    Asm(Utf8Text),
    Image(Utf8Text),
}

/// Programs, one per core.
pub type Programs = Sequence<Program>;

#[derive(Debug, Drop)]
pub struct JobPlan {
    pub shape: Geometry,
    pub programs: Programs,
}
