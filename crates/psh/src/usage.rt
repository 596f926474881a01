//! What a command line may ask for.
use sh_exec::Settings;

/// A command line that is in order.
#[derive(Drop)]
pub struct Asked {
    /// How the first shell is started.
    pub settings: Settings,
    /// Whether a report follows the terminal's bytes.
    pub report: bool,
    /// The path of the image.
    pub image: String,
    /// The path of the events.
    pub events: String,
}
