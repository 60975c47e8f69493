//! The lines of a survey.

ghost use Rattle.std.specs.Prelude.{◌≡◌, ◌++◌, flat_map, IfOk, OnOk};
ghost use Rattle.line_pieces.specs.Texts.{with_dot};
ghost use Rattle.command_passes.specs.command_rules.specs.Shown.{image_names, shown, signal_of};
ghost use Rattle.command_passes.specs.command_rules.specs.Surveying.{escape_line, survey_text};

use crate::names::{name_of, path_of};
use mesa_base::{Bytes, List, Name, OutOfMemory};
use object_files::Image;
use signal_survey::Escapes;
use signaller::SignalId;
use std::alloc::Global;

/// Puts a name behind the others, and a dot behind it.
fn put_dotted(out: &mut Bytes, name: &Name) -> Result<(), OutOfMemory>
    ensures { OnOk result (out.new ≡ out.old ++ with_dot name.now) }
{
    out.extend_from_slice(name.bytes())?;
    out.extend_from_slice(b".")
}

/// Puts the names of a path behind the others, each with a dot behind it.
fn put_path(out: &mut Bytes, path: &[Name]) -> Result<(), OutOfMemory>
    ensures { OnOk result (out.new ≡ out.old ++ flat_map with_dot path.now) }
{
    'names: for name in path {
        put_dotted(out, name)?;
    }
    Ok(())
}

/// Puts what a signal of an instance is called behind the others.
fn put_own(out: &mut Bytes, image: &Image, instance: u32, number: u32) -> Result<(), OutOfMemory>
    ensures { OnOk result (out.new ≡ out.old ++ image_names image.now instance number) }
{
    put_path(out, path_of(image, instance))?;
    out.extend_from_slice(name_of(image, instance, number))
}

/// Puts what a signal is called behind the others.
fn put_signal(out: &mut Bytes, image: &Image, signal: SignalId) -> Result<(), OutOfMemory>
    ensures { OnOk result (out.new ≡ out.old ++ shown (image_names image.now) (signal_of signal)) }
{
    match signal {
        SignalId::Own(instance, number) => put_own(out, image, instance, number),
        SignalId::BoundsFault => out.extend_from_slice(b"BoundsFault"),
        SignalId::ZeroDivisor => out.extend_from_slice(b"ZeroDivisor"),
        SignalId::NoInput => out.extend_from_slice(b"IODefs.NoInput"),
        SignalId::Unnamed => out.extend_from_slice(b"ERROR"),
    }
}

/// Puts the line of a signal behind the others.
fn put_line(out: &mut Bytes, image: &Image, signal: SignalId) -> Result<(), OutOfMemory>
    ensures { OnOk result (out.new ≡ out.old ++ escape_line (image_names image.now) signal) }
{
    out.extend_from_slice(b"escapes ")?;
    put_signal(out, image, signal)?;
    out.extend_from_slice(b"\n")
}

/// Puts a line for each of these signals behind the others.
fn put_lines(out: &mut Bytes, image: &Image, signals: &[SignalId]) -> Result<(), OutOfMemory>
    ensures { OnOk result (out.new ≡ out.old ++ flat_map (escape_line (image_names image.now)) signals.now) }
{
    'signals: for signal in signals {
        put_line(out, image, *signal)?;
    }
    Ok(())
}

/// The lines of a survey that lists these signals of an image.
pub(crate) fn survey_lines(
    alloc: Global,
    image: &Image,
    signals: &Escapes,
) -> Result<Bytes, OutOfMemory>
    ensures { IfOk result (λ text. text ≡ survey_text (image_names image.now) signals.now) }
{
    if signals.is_empty() {
        return List::from_slice(alloc, b"no signal escapes\n");
    }
    let mut out = List::new(alloc);
    put_lines(&mut out, image, signals.as_slice())?;
    Ok(out)
}
