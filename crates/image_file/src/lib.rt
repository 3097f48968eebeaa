//! Program images as bytes, read and written.
#![tactic(auto)]

mod fault;
mod format;
mod laws;
mod pieces;
mod reading;
mod writing;

pub use fault::ImageFault;
pub use laws::{bytes_of_an_image, four_bytes, image_or_fault};
pub use reading::read_image;
pub use writing::write_image;
