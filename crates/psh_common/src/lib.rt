//! What the programs have in common that run a script of an image: the words of their command lines, files, and what they say.
#![tactic(auto)]

mod arguments;
mod events;
mod fault;
mod files;
mod operands;
mod process;
mod settings;
mod text;

pub use arguments::words;
pub use events::{EventFault, MOST_BYTES, Turns, read_events};
pub use fault::{UsageFault, usage};
pub use files::{lack, read, tell, write};
pub use operands::{
    file_operand, interactive_option, letters_option, matches_of, monitor_option, path_of,
    text_option, words_operand,
};
pub use process::put_process;
pub use settings::settings_of;
pub use text::texts_of;
