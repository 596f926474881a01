//! What a command line may ask for.
use sh_world::Settings;

/// A command line that is in order.
#[derive(Drop)]
pub struct Asked {
    /// How the first shell is started.
    pub settings: Settings,
    /// Whether lines are asked for, in place of a picture.
    pub is_text: bool,
    /// The path of the image.
    pub image: String,
    /// The path of the events.
    pub events: String,
}
