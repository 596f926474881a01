//! What a command line may ask for.
use sh_schedules::{Bounds, Settings};

/// A command line that is in order.
#[derive(Drop)]
pub struct Asked {
    /// How the first shell is started.
    pub settings: Settings,
    /// Which schedules are tried.
    pub bounds: Bounds,
    /// The path of the folder that gets a file of events for each outcome, where one is asked for.
    pub folder: Option<String>,
    /// The path of the image.
    pub image: String,
}
