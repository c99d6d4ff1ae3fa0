//! The forms `image` and `restore`: a copy that is made beside a script's sessions, as a file; what is printed of an image
//! file, and how a bad one is told.
#![tactic(auto)]

mod answer;
mod bad_image;
mod copied_run;
mod copier;
mod laws;
mod restored_map;

pub use answer::answer_image;
pub use copied_run::image_of_run;
pub use copier::Copier;
pub use laws::image_law;
