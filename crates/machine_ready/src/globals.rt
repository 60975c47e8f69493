//! The code of instances, and their globals.

ghost use Rattle.std.specs.Prelude.{◌≡◌, ℕ, ◌<◌, length, Some, IfOk, IsSomeAnd, slice_get};
ghost use Rattle.machine_rules.specs.LookUps.{code_of};
ghost use Rattle.machine_rules.specs.Steps.{globals_in};
ghost use Rattle.machine_ready.specs.Order.{ImageInOrder};

use code_forms::ModuleCode;
use mesa_base::OutOfMemory;
use object_files::Image;
use std::alloc::Global;

/// The code of the module of an instance.
pub fn code_of(image: &Image, number: usize) -> &ModuleCode
    requires order { ImageInOrder image.now }
    requires there { number < length image.now.instances }
    ensures { code_of image.now number ≡ Some result.now }
{
    let module = image.instances.as_slice()[number].module as usize;
    image.modules.as_slice()[module].code.code()
}

/// For each instance the words of its globals.
pub fn all_globals(alloc: Global, image: &Image) -> Result<Vec<Vec<u16>>, OutOfMemory>
    requires { ImageInOrder image.now }
    ensures many { IfOk result (λ globals. length globals.items ≡ length image.now.instances) }
    ensures each { IfOk result (λ globals. (j : ℕ) → j < length image.now.instances
        → IsSomeAnd (slice_get globals.items j) (λ words. length words.items ≡ globals_in (code_of image.now j))) }
{
    let mut globals = Vec::new(alloc);
    for number in 0..image.instances.len() {
        let words = usize::from(code_of(image, number).global_words);
        globals.push(vec![in alloc; 0; words]?)?;
    }
    Ok(globals)
}
