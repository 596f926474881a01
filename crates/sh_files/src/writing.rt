// Writing an image.
ghost use Rattle.std.specs.Prelude.{◌≡◌, IfOk};
ghost use Rattle.sh_files.specs.Writing.{image_text};

use crate::files::Files;
use sh_files_image::write_blocks;
use std::alloc::AllocError;

impl Files {
    /// The image of the files, as [`Files::from_image`] reads it, its lines sorted by the bytes of their
    /// paths. The root and the devices are in no image. An image longer than [`MAX_IMAGE`](crate::MAX_IMAGE)
    /// is refused where it is read. The only error is want of memory.
    pub fn write_image(&self) -> Result<Vec<u8>, AllocError>
        ensures { IfOk result (λ image. image.items ≡ image_text self.now) }
    {
        let mut image = Vec::from_slice(self.alloc(), b"psh image 1\n")?;
        write_blocks(&mut image, self.nodes(), self.blocks())?;
        image.extend_from_slice(b"end\n")?;
        Ok(image)
    }
}
