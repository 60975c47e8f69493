//! The strings for which words stand.

ghost use Rattle.std.specs.Prelude.{◌≡◌, ◌≤◌, length};
ghost use Rattle.machine_rules.specs.LookUps.{text_of};

use machine_rules::object_files::Image;

/// The bytes for which two words stand: a module's number plus 1, and that of a literal, counted from 1; others are an
/// empty string (rule of this project).
#[tactic(auto, unfolding(machine_rules::specs::LookUps::text_of, machine_rules::specs::LookUps::literal_of, machine_rules::specs::LookUps::code_in))]
pub(crate) fn text(image: &Image, number: u16, literal: u16) -> &[u8]
    ensures is { result.now ≡ text_of image.now number literal }
    ensures short { length result.now ≤ 32767 }
{
    if number == 0 || literal == 0 {
        return &[];
    }
    let Some(object) = image.modules.get(usize::from(number) - 1) else {
        return &[];
    };
    match object.code.code().strings.get(usize::from(literal) - 1) {
        None => &[],
        Some(text) => text.as_slice(),
    }
}
