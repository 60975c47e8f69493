//! The instructions of jumps.
ghost use Rattle.std.specs.Prelude.{◌≡◌};
ghost use Rattle.code_trees.specs.Plain.{leap_of, point_of};
ghost use Rattle.code_blocks.specs.Sizes as sizes;

use code_forms::Instruction;
use code_trees::{Leap, Point};

/// The instruction of a jump out of a part.
pub fn leap_to(leap: Leap, target: u32) -> Instruction
    ensures { result ≡ sizes.leap_to (leap_of leap) target }
{
    match leap {
        Leap::Anyhow => Instruction::Jump { target },
        Leap::Where(true) => Instruction::JumpIf { target },
        Leap::Where(false) => Instruction::JumpIfNot { target },
    }
}

/// The instruction of a jump of the text, out of so many arms.
pub fn goes_to(arms: u16, point: Point, target: u32) -> Instruction
    ensures { result ≡ sizes.goes_to arms (point_of point) target }
{
    match (point, arms) {
        (Point::Leave, 0) => Instruction::Return,
        (Point::Leave, _) => Instruction::LeaveReturn { arms },
        (_, 0) => Instruction::Jump { target },
        (_, _) => Instruction::Leave { arms, target },
    }
}
