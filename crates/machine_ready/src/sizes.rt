//! The largest frame and the largest depth of an image.

ghost use Rattle.std.specs.Prelude.{◌≡◌, map, fold, max};
ghost use Rattle.machine_ready.specs.Sizes.{largest};

use code_forms::CodeProcedure;
use object_files::Object;

fn largest_frame_of(procedures: &[CodeProcedure], least: u16) -> u16
    ensures { result ≡ fold max least (map (λ p. p.frame) procedures.now) }
{
    let mut most = least;
    for procedure in procedures {
        most = most.max(procedure.frame);
    }
    most
}

/// The words of the largest frame.
pub fn largest_frame(modules: &[Object]) -> u16
    ensures { result ≡ largest (λ p. p.frame) modules.now }
{
    let mut most = 0;
    for object in modules {
        most = largest_frame_of(object.code.code().procedures.as_slice(), most);
    }
    most
}

fn largest_depth_of(procedures: &[CodeProcedure], least: u32) -> u32
    ensures { result ≡ fold max least (map (λ p. p.depth) procedures.now) }
{
    let mut most = least;
    for procedure in procedures {
        most = most.max(procedure.depth);
    }
    most
}

/// The most words that an operand stack may have.
pub fn largest_depth(modules: &[Object]) -> u32
    ensures { result ≡ largest (λ p. p.depth) modules.now }
{
    let mut most = 0;
    for object in modules {
        most = largest_depth_of(object.code.code().procedures.as_slice(), most);
    }
    most
}
