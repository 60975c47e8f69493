//! What a run finds at its beginning, however the last one ended.

ghost use Rattle.std.specs.Prelude.{◌≡◌, length, replicate, false};
ghost use Rattle.object_files.specs.declared.image.Image.{Image};
ghost use Rattle.machine_ready.specs.Ready.{IsReady};
ghost use Rattle.frame_machine.specs.Clearing.{AreZero, IsCleared};

use machine_ready::Prepared;

// Sets all globals to 0.
fn clear_globals(globals: &mut Vec<Vec<u16>>)
    ensures many { length globals.new.items ≡ length globals.old.items }
    ensures zero { AreZero globals.old.items globals.new.items }
{
    for instance in 0..globals.len() {
        globals[instance].as_mut_slice().fill(0);
    }
}

// Marks that no instance was started.
fn clear_marks(started: &mut Vec<bool>)
    ensures { started.new.items ≡ replicate (length started.old.items) false }
{
    started.as_mut_slice().fill(false);
}

/// Sets all globals to 0, and marks that no instance was started.
pub(crate) fn clear(parts: &mut Prepared)
    ensures { (image : Image) → IsReady image parts.old → IsCleared image parts.new }
{
    clear_globals(&mut parts.globals);
    clear_marks(&mut parts.started);
}
