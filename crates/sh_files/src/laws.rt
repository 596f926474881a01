// Laws of images and lists.
ghost use Rattle.std.specs.Prelude.{◌≡◌, ◌≤◌, List, ℕ, Ok, length, true};
ghost use Rattle.std.specs.FinMap as map;
ghost use Rattle.sh_files_image.specs.Listing.{prefix_of, names_in, rise};
ghost use Rattle.sh_files.specs.Nodes.{FileMap, nameless, truncation, write_at};
ghost use Rattle.sh_files.specs.Image.{read_image};
ghost use Rattle.sh_files.specs.Whole.{AreSame, IsWhole};
ghost use Rattle.sh_files.specs.Writing.{image_text};

/// Law: where an image can hold the files, and their image isn't too long, the image that is written of them
/// reads as files with the same nodes at the same paths.
pub fn written_image_is_read()
    ensures { (files : FileMap) → IsWhole files → length (image_text files) ≤ 268435456 → (read : FileMap) × ((read_image (image_text files) ≡ Ok read) × AreSame read files) }
{}

/// Law: files that were read from an image are such that an image can hold them, and their image isn't too
/// long. So their image reads as files with the same nodes at the same paths.
pub fn read_files_are_whole()
    ensures whole { (bytes : List ℕ) (files : FileMap) → read_image bytes ≡ Ok files → IsWhole files }
    ensures short { (bytes : List ℕ) (files : FileMap) → read_image bytes ≡ Ok files → length (image_text files) ≤ 268435456 }
    ensures again { (bytes : List ℕ) (files : FileMap) → read_image bytes ≡ Ok files
        → (read : FileMap) × ((read_image (image_text files) ≡ Ok read) × AreSame read files) }
{}

/// Law: files that an image can hold stay so where one of them is written or truncated, or one that no path
/// names is added. In the last case their image stays the same.
pub fn changed_files_stay_whole()
    ensures written { (files changed : FileMap) (n offset : ℕ) (bytes : List ℕ) → IsWhole files
        → write_at files n offset bytes ≡ Ok changed → IsWhole changed }
    ensures cut { (files changed : FileMap) (n count : ℕ) → IsWhole files → truncation files n count ≡ Ok changed → IsWhole changed }
    ensures nameless { (files changed : FileMap) (n : ℕ) (bytes : List ℕ) → IsWhole files
        → nameless files bytes ≡ Ok (n, changed) → IsWhole changed
        × (image_text changed ≡ image_text files) }
{}

/// Law: the names in a directory are in rising order of their bytes, and none is there twice.
pub fn names_rise()
    ensures { (files : FileMap) (place : List ℕ)
        → rise (names_in (prefix_of place) (map.entries files.paths)) ≡ true }
{}
