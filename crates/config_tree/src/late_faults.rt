//! The faults that are looked for once all statements were gone through, and that look at counts alone.
ghost use Rattle.std.specs.Prelude.{◌≡◌, ◌+◌, ◌≤◌, ℕ, nat_lt, if◌then◌else◌};
ghost use Rattle.std.specs.Option.{option_or};
ghost use Rattle.mesa_base.specs.declared.limits.TheConstants.{INSTANCES};
ghost use Rattle.config_rules.specs.Template.{Parts};
ghost use Rattle.config_rules.specs.Tree as spec;
ghost use Rattle.config_templates.specs.Shown.{before, chained};
ghost use Rattle.config_tree.specs.Places.{part_place};

use config_templates::TemplatePart;
use mesa_base::Place;
use mesa_base::limits::{CONFIGURATION_DEPTH, INSTANCES};

fn place_of(part: &TemplatePart) -> Place
    ensures { result ≡ part_place part.now }
{
    match part {
        TemplatePart::Module(part, _) => part.place,
        TemplatePart::Nested(part, _) => part.place,
    }
}

fn nested_too_deep(part: &TemplatePart) -> Option<Place>
    ensures { (ps : Parts) → spec.too_nested (before part.now ps) ≡ option_or result (spec.too_nested ps) }
{
    match part {
        TemplatePart::Module(_, _) => None,
        TemplatePart::Nested(part, nested) => {
            if 1 + nested.get().depth() as usize > CONFIGURATION_DEPTH {
                Some(part.place)
            } else {
                None
            }
        }
    }
}

/// The first of the outermost statements under which a path has more than 32 names, by its place.
pub fn too_nested(parts: &[TemplatePart]) -> Option<Place>
    ensures { result ≡ spec.too_nested (chained parts.now) }
{
    let mut rest = parts;
    'parts: while let Some((part, more)) = rest.split_first() {
        if let Some(place) = nested_too_deep(part) {
            return Some(place);
        }
        rest = more;
    }
    None
}

// How many instances of modules and of nested configurations the part makes; past the most that there may be the number only says so.
fn instances_of(part: &TemplatePart) -> usize
    ensures few { result ≤ 4000 }
    ensures many { (n : ℕ) (ps : Parts) → spec.too_many n (before part.now ps)
        ≡ (if nat_lt INSTANCES (n + result) then Some (part_place part.now) else spec.too_many (n + result) ps) }
{
    match part {
        TemplatePart::Module(_, _) => 1,
        TemplatePart::Nested(_, nested) => {
            1 + nested.get().scopes() as usize + nested.get().modules() as usize
        }
    }
}

/// The outermost statement with which there are more than 1,024 instances, by its place.
pub fn too_many(parts: &[TemplatePart]) -> Option<Place>
    ensures { result ≡ spec.too_many 0 (chained parts.now) }
{
    let mut rest = parts;
    let mut so_far = 0;
    'parts: while let Some((part, more)) = rest.split_first() {
        so_far += instances_of(part);
        if so_far > INSTANCES {
            return Some(place_of(part));
        }
        rest = more;
    }
    None
}
