//! Counts of the parts of a template, clipped: 2^31 instances can be written in 32 lines.
ghost use Rattle.std.specs.Prelude.{◌≡◌, ◌+◌, ◌≤◌, max, suc};
ghost use Rattle.mesa_base.specs.declared.limits.TheConstants.{INSTANCES};
ghost use Rattle.config_rules.specs.Template as spec;
ghost use Rattle.config_templates.specs.Clipped.{clipped};
ghost use Rattle.config_templates.specs.Shown.{before, chained};

use crate::template::TemplatePart;
use mesa_base::limits;

/// What stands for all counts that are more than the most instances.
const TOO_MANY: u32 = limits::INSTANCES as u32 + 1;

fn sum(so_far: u32, more: u32) -> u32
    requires so_far { so_far ≤ suc INSTANCES }
    requires more { more ≤ suc INSTANCES }
    ensures { result ≡ clipped (so_far + more) }
{
    TOO_MANY.min(so_far + more)
}

fn with_modules(so_far: u32, part: &TemplatePart) -> u32
    requires { so_far ≤ suc INSTANCES }
    ensures most { result ≤ suc INSTANCES }
    ensures modules { (ps : spec.Parts) → clipped (result + spec.modules_below ps) ≡ clipped (so_far + spec.modules_below (before part.now ps)) }
{
    match part {
        TemplatePart::Module(_, _) => sum(so_far, 1),
        TemplatePart::Nested(_, template) => sum(so_far, template.get().modules()),
    }
}

/// How many instances of modules the parts make.
pub fn modules_below(parts: &[TemplatePart]) -> u32
    ensures { result ≡ clipped (spec.modules_below (chained parts.now)) }
{
    let mut rest = parts;
    let mut so_far = 0;
    'parts: while let Some((part, more)) = rest.split_first() {
        so_far = with_modules(so_far, part);
        rest = more;
    }
    so_far
}

fn with_scopes(so_far: u32, part: &TemplatePart) -> u32
    requires { so_far ≤ suc INSTANCES }
    ensures most { result ≤ suc INSTANCES }
    ensures scopes { (ps : spec.Parts) → clipped (result + spec.scopes_below ps) ≡ clipped (so_far + spec.scopes_below (before part.now ps)) }
{
    match part {
        TemplatePart::Module(_, _) => so_far,
        TemplatePart::Nested(_, template) => sum(sum(so_far, 1), template.get().scopes()),
    }
}

/// How many instances of nested configurations the parts make.
pub fn scopes_below(parts: &[TemplatePart]) -> u32
    ensures { result ≡ clipped (spec.scopes_below (chained parts.now)) }
{
    let mut rest = parts;
    let mut so_far = 0;
    'parts: while let Some((part, more)) = rest.split_first() {
        so_far = with_scopes(so_far, part);
        rest = more;
    }
    so_far
}

fn with_depth(so_far: u32, part: &TemplatePart) -> u32
    requires { so_far ≤ suc INSTANCES }
    ensures most { result ≤ suc INSTANCES }
    ensures depth { (ps : spec.Parts) → clipped (max result (spec.depth_below ps)) ≡ clipped (max so_far (spec.depth_below (before part.now ps))) }
{
    match part {
        TemplatePart::Module(_, _) => so_far.max(1),
        TemplatePart::Nested(_, template) => so_far.max(sum(1, template.get().depth())),
    }
}

/// The most names of a path of an instance that the parts make.
pub fn depth_below(parts: &[TemplatePart]) -> u32
    ensures { result ≡ clipped (spec.depth_below (chained parts.now)) }
{
    let mut rest = parts;
    let mut so_far = 0;
    'parts: while let Some((part, more)) = rest.split_first() {
        so_far = with_depth(so_far, part);
        rest = more;
    }
    so_far
}
