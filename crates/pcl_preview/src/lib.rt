//! Images of pages: previews of a job, their forms, and images that are compared with a job's pages.
#![tactic(auto)]

mod form;
mod greymap;
mod image;
mod page_comparison;
mod page_images;
mod page_preview;
mod streamed_images;

pub use form::{ImageForm, Scale};
pub use image::write_image;
pub use page_comparison::are_images_of;
pub use page_images::{PageChoice, PageSet, preview_pages};
pub use page_preview::{page_dots, preview};
pub use streamed_images::stream_pages;
