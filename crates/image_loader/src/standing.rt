//! Where an image stands among those that are loaded.

ghost use Rattle.std.specs.Prelude.{◌≡◌, length};
ghost use Rattle.image_loader.specs.Standing.{Fits, at_first, behind};

use object_files::Image;

/// The number of an image, from 0, and how many modules and instances the images before it have.
#[derive(Clone, Copy)]
pub struct Standing {
    pub number: u32,
    pub modules: u32,
    pub instances: u32,
}

impl Standing {
    /// That of the first image.
    pub fn first() -> Standing
        ensures { result ≡ at_first }
    {
        Standing {
            number: 0,
            modules: 0,
            instances: 0,
        }
    }

    /// That of the image behind this one.
    pub fn behind(self, image: &Image) -> Standing
        requires { Fits self image.now }
        ensures { result ≡ behind self image.now }
    {
        Standing {
            number: self.number + 1,
            modules: self.modules + image.modules.len() as u32,
            instances: self.instances + image.instances.len() as u32,
        }
    }
}
