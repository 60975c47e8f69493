//! Interface files.
ghost use Rattle.std.specs.Prelude.{◌≡◌, ◌≢◌, ℕ, IfErr, IfOk};
ghost use Rattle.face_rules.specs.InterfaceForms as form;
ghost use Rattle.file_forms.specs.Files.{is_version, versioned};
ghost use Rattle.file_forms.specs.Forms.{number, ruled};
ghost use Rattle.file_forms.specs.Reads.{Reads};
ghost use Rattle.interface_records.specs.declared.interface.Interface.{Interface as OneInterface};
ghost use Rattle.mesa_base.specs.declared.file_fault.Field.TheVariants.{Version};
ghost use Rattle.mesa_base.specs.declared.file_fault.FileFault.{FileFault as Fault};

use crate::constants::constants;
use crate::faces::face;
use crate::named_types::named_types;
use file_forms::{FileCursor, Seen, Stopped, fault_at, opened};
use held_trees::LetGo;
use interface_records::Interface;
use mesa_base::{Field, FileFault, List};
use std::alloc::Global;

/// The version of a file. Version: it is neither 1 nor 2.
pub fn version(input: &mut FileCursor<'_>) -> Result<u8, Stopped>
    ensures { Reads ((ruled (number 1) is_version Version).read input.old.rest.now) result input.new.rest.now }
{
    let left = input.rest.len();
    let version = input.u8()?;
    if version != 1 && version != 2 {
        return Err(Stopped::Bad(Field::Version, left));
    }
    Ok(version)
}

#[tactic(auto, using(crate::proofs::Wholes::interface_read, crate::proofs::Wholes::interface_cut), unfolding(face_rules::specs::InterfaceForms::interface))]
fn interface(alloc: Global, input: &mut FileCursor<'_>, version: u8) -> Result<Interface, Stopped>
    ensures { Reads ((form.interface version).read input.old.rest.now) result input.new.rest.now }
{
    let mut seen = Seen::new(alloc);
    let face = face(alloc, input, version, &mut seen)?;
    let bare = Interface {
        face,
        constants: List::new(alloc),
        types: List::new(alloc),
    };
    let so_far = constants(alloc, input, version, &mut seen, bare)?;
    let interface = named_types(alloc, input, version, &mut seen, so_far)?;
    Ok(interface)
}

fn versioned(alloc: Global, input: &mut FileCursor<'_>) -> Result<(u8, Interface), Stopped>
    ensures { Reads ((versioned form.interface).read input.old.rest.now) result input.new.rest.now }
{
    let version = version(input)?;
    let interface = interface(alloc, input, version)?;
    Ok((version, interface))
}

fn found(alloc: Global, bytes: &[u8]) -> Result<Interface, FileFault>
    ensures found { IfOk result (λ i. (version : ℕ) × form.IsInterfaceFile version i bytes.now) }
    ensures fault { IfErr result (λ e. e ≢ FileFault.Memory → form.IsNoInterfaceFile bytes.now e) }
{
    let mut input = match opened(bytes, b"MIF") {
        Ok(input) => input,
        Err(fault) => return Err(fault),
    };
    match versioned(alloc, &mut input) {
        Err(why) => Err(fault_at(bytes.len(), why)),
        Ok((_, interface)) => {
            let left = input.rest.len();
            if left > 0 {
                interface.let_go();
                return Err(FileFault::TrailingBytes((bytes.len() - left) as u64));
            }
            Ok(interface)
        }
    }
}

/// The interface that the bytes are a file of, in version 1 or 2. Else the first fault, with its offset: TooLong, BadMagic, Cut,
/// BadField or TrailingBytes; or Memory.
pub fn read_interface(alloc: Global, bytes: &[u8]) -> Result<Interface, FileFault>
    ensures found { IfOk result (λ i. (version : ℕ) × form.IsInterfaceFile version i bytes.now) }
    ensures fault { IfErr result (λ e. e ≢ FileFault.Memory → form.IsNoInterfaceFile bytes.now e) }
    ensures only { (version : ℕ) (i : OneInterface) → form.IsInterfaceFile version i bytes.now → result ≢ Err FileFault.Memory → result ≡ Ok i }
    ensures first { (e : Fault) → form.IsNoInterfaceFile bytes.now e → result ≢ Err FileFault.Memory → result ≡ Err e }
{
    found(alloc, bytes)
}
