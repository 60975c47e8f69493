//! The file of an image.
ghost use Rattle.std.specs.Prelude.{◌≡◌, ◌≢◌, ◌↔◌, true, false, Err, IfOk};
ghost use Rattle.mesa_base.specs.declared.file_fault.WriteFault.TheVariants as fault;
ghost use Rattle.object_rules.specs.ImageFiles.{IsImageFile};
ghost use Rattle.large_images.specs.object_writers.specs.ObjectBytes.{image_file};
ghost use Rattle.filed_images.specs.Files.{IsTooLarge};
ghost use Rattle.filed_images.specs.Images.{CanBeFiled, CountsFit};

use large_images::object_writers::write_image;
use mesa_base::{Bytes, WriteFault};
use object_files::Image;
use std::alloc::Global;

// the most that four bytes count
const COUNTED: usize = 4_294_967_295;

/// Whether four bytes count what the image wants of the loader, what it offers, and the instances that it starts. Where they don't, its file
/// is too large.
#[tactic(auto, using(crate::proofs::Counts::counts, crate::proofs::Counts::wanted_large, crate::proofs::Counts::offered_large, crate::proofs::Counts::started_large))]
fn counts_fit(image: &Image) -> bool
    ensures fit { result ≡ true → CountsFit image.now }
    ensures large { result ≡ false → IsTooLarge (image_file image.now) }
{
    if image.wanted.len() > COUNTED {
        return false;
    }
    if image.offered.len() > COUNTED {
        return false;
    }
    if image.control.len() > COUNTED {
        return false;
    }
    true
}

/// The file of an image, in version 2. TooLarge, want of memory aside, exactly where the file would have more than 536,870,912 bytes.
pub fn image_file(alloc: Global, image: &Image) -> Result<Bytes, WriteFault>
    requires { CanBeFiled image.now }
    ensures ok { IfOk result (λ file. IsImageFile 2 image.now file) }
    ensures too_large { result ≢ Err fault.Memory → (result ≡ Err fault.TooLarge ↔ IsTooLarge (image_file image.now)) }
{
    if counts_fit(image) {
        write_image(alloc, image)
    } else {
        Err(WriteFault::TooLarge)
    }
}
