//! The files of a small Unix system: directories, regular files and two devices, by path.
#![tactic(auto)]

mod fault;
mod files;
mod image;
mod laws;
mod listing;
mod opening;
mod search;
mod writing;

pub use fault::FileFault;
pub use files::Files;
pub use laws::{changed_files_stay_whole, names_rise, read_files_are_whole, written_image_is_read};
pub use opening::Opening;
pub use search::{Located, MAX_SCRIPT, dot_script, executable_path, locate, may_be_read};
pub use sh_files_image::{
    FaultKind, File, Flags, ImageFault, MAX_IMAGE, MAX_LENGTH, MAX_NAME, MAX_PATH, Node,
};
