//! The components of a configuration, in the order of first mention, each with the base of its file.
ghost use Rattle.std.specs.Prelude.{◌≡◌, IfOk};
ghost use Rattle.cmesa_grammar.specs.Plain.{plain};
ghost use Rattle.config_rules.specs.Components as spec;
ghost use Rattle.config_templates.specs.Answers.{IsAnswer};
ghost use Rattle.config_templates.specs.Mentioned.{exact_components};

use crate::files::{no_file_base, with_files};
use crate::mentioned::first_mentions;
use cmesa_grammar::Config;
use config_rules::{Components, TreeCause, TreeFault};
use mesa_base::OutOfMemory;
use std::alloc::Global;

/// The modules that the configuration mentions, in the order of first mention, each with the FROM text that stands for it, whatever that
/// is, else with its own name. It takes as many steps as `components`.
pub fn components_as_written(alloc: Global, config: &Config) -> Result<Components, OutOfMemory>
    ensures { IfOk result (λ all. all ≡ spec.components (plain config.now)) }
{
    let directory = config.directory.as_slice();
    let names = first_mentions(alloc, &config.outermost)?;
    Ok(with_files(names.as_slice(), alloc, directory)?)
}

/// The modules that the configuration mentions, in the order of first mention, each with the base of its file. UnknownComponent where a
/// FROM text is no base of a file, at the first such text; besides that, only memory may be wanting. Among n names it takes some n log n
/// steps, and for a name as many look-ups as configurations stand around it.
pub fn components(alloc: Global, config: &Config) -> Result<Components, TreeFault>
    ensures { IsAnswer (λ all. all) (exact_components (plain config.now)) result }
{
    if let Some(place) = no_file_base(config.directory.as_slice()) {
        return Err(TreeFault::At(TreeCause::UnknownComponent, place));
    }
    Ok(components_as_written(alloc, config)?)
}
