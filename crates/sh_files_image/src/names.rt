// The paths that an image may name.
ghost use Rattle.std.specs.Prelude.{◌≡◌};
ghost use Rattle.sh_files_image.specs.Paths.{components, good_names, is_device, is_good_name, is_image_path};

use crate::fields::skip;
use crate::paths::{MAX_NAME, MAX_PATH, begins_at_root, split_slash};

/// Whether an image may have a name.
fn is_good_name(name: &[u8]) -> bool
    ensures { result ≡ is_good_name name.now }
{
    !name.is_empty()
        && name != b".".as_slice()
        && name != b"..".as_slice()
        && name.len() <= MAX_NAME
}

/// Whether an image may have all names of a path, which is given without its first slash.
fn good_names(path: &[u8]) -> bool
    ensures { result ≡ good_names (components path.now) }
{
    let mut rest = path;
    'names: while let Some((name, behind)) = split_slash(rest) {
        if !is_good_name(name) {
            return false;
        }
        rest = behind;
    }
    is_good_name(rest)
}

/// Whether a path is `/dev` or below it.
pub(crate) fn is_device(path: &[u8]) -> bool
    ensures { result ≡ is_device path.now }
{
    path == b"/dev".as_slice() || path.starts_with(b"/dev/")
}

/// Whether an image may name a path.
pub fn is_image_path(path: &[u8]) -> bool
    ensures { result ≡ is_image_path path.now }
{
    begins_at_root(path)
        && good_names(skip(path, 1))
        && !path.contains(&0)
        && path.len() <= MAX_PATH
        && !is_device(path)
}
