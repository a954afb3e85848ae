//! Private pages of linear memory, copied when they are first written.
#![tactic(auto)]

mod image;
mod own;
mod pages;
mod words;

pub use image::Image;
pub use pages::PrivatePages;
