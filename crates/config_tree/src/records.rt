//! Names, pairs of records, and the scopes that are made of them.
ghost use Rattle.std.specs.Prelude.{◌≡◌, ◌∷◌, ◌++◌, [], IfOk};
ghost use Rattle.config_rules.specs.Components.{names_of};
ghost use Rattle.config_rules.specs.Grown as spec;
ghost use Rattle.config_templates.specs.Shown.{part_of};

use config_rules::cmesa_grammar::Heading;
use config_rules::{RecordPair, RecordPairs, TreeScope};
use config_templates::Part;
use mesa_base::{Identifier, List, Name, OutOfMemory, Path};
use mesa_types::Names;
use std::alloc::Global;

/// The same names once more.
pub fn copy_names(alloc: Global, names: &[Name]) -> Result<Names, OutOfMemory>
    ensures { IfOk result (λ copy. copy ≡ names.now) }
{
    let mut copy = List::new(alloc);
    for name in names {
        copy.push(name.copy(alloc)?)?;
    }
    Ok(copy)
}

/// The path with one name more.
pub fn path_to(alloc: Global, path: &[Name], name: &Name) -> Result<Path, OutOfMemory>
    ensures { IfOk result (λ longer. longer ≡ path.now ++ name.now ∷ []) }
{
    let mut longer = copy_names(alloc, path)?;
    longer.push(name.copy(alloc)?)?;
    Ok(longer)
}

fn pair(alloc: Global, inside: &Name, outside: &Name) -> Result<RecordPair, OutOfMemory>
    ensures { IfOk result (λ pair. pair ≡ record { inside = inside.now; outside = outside.now }) }
{
    Ok(RecordPair {
        inside: inside.copy(alloc)?,
        outside: outside.copy(alloc)?,
    })
}

fn pairs(alloc: Global, inside: &[Identifier], outside: &[Name]) -> Result<RecordPairs, OutOfMemory>
    ensures { IfOk result (λ pairs. pairs ≡ spec.pairs (names_of inside.now) outside.now) }
{
    let mut pairs = List::new(alloc);
    let mut rest = inside;
    let mut others = outside;
    'pairs: while let Some((identifier, more)) = rest.split_first() {
        let Some((record_name, behind)) = others.split_first() else {
            return Ok(pairs);
        };
        pairs.push(pair(alloc, &identifier.name, record_name)?)?;
        rest = more;
        others = behind;
    }
    Ok(pairs)
}

fn own_pairs(alloc: Global, names: &[Identifier]) -> Result<RecordPairs, OutOfMemory>
    ensures { IfOk result (λ pairs. pairs ≡ spec.pairs (names_of names.now) (names_of names.now)) }
{
    let mut pairs = List::new(alloc);
    for identifier in names {
        pairs.push(pair(alloc, &identifier.name, &identifier.name)?)?;
    }
    Ok(pairs)
}

/// The scope of an instance of a nested configuration, whose records take these of the scope around.
pub fn scope_for(
    alloc: Global,
    around: u32,
    part: &Part,
    heading: &Heading,
) -> Result<TreeScope, OutOfMemory>
    ensures { IfOk result (λ scope. scope ≡ spec.scope_for around (part_of part.now) heading.now) }
{
    Ok(TreeScope {
        around: Some(around),
        imports: pairs(alloc, heading.imports.as_slice(), part.imports.as_slice())?,
        exports: pairs(alloc, heading.exports.as_slice(), part.exports.as_slice())?,
    })
}

/// The scope that stands in no other: each of its records stands for itself.
pub fn outermost(alloc: Global, heading: &Heading) -> Result<TreeScope, OutOfMemory>
    ensures { IfOk result (λ scope. scope ≡ spec.outermost heading.now) }
{
    Ok(TreeScope {
        around: None,
        imports: own_pairs(alloc, heading.imports.as_slice())?,
        exports: own_pairs(alloc, heading.exports.as_slice())?,
    })
}
