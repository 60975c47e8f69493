//! The labels of an arm.
ghost use Rattle.std.specs.Prelude.{◌≡◌, ◌++◌, OnOk};
ghost use Rattle.listing_rules.specs.Code.{labels_text};

use crate::texts::{Listed, put_between, put_number, put_text};
use code_forms::{Label, Labels};
use mesa_base::{Bytes, OutOfMemory};

impl Listed for Label {
    ghost use Rattle.listing_rules.specs.Code.{label_text};

    ghost text = { label_text };

    fn put(&self, out: &mut Bytes) -> Result<(), OutOfMemory> {
        match *self {
            Label::Any => put_text(out, b"ANY"),
            Label::Unwind => put_text(out, b"UNWIND"),
            Label::Own(signal) => {
                put_text(out, b"own ")?;
                put_number(out, signal as u64)
            }
            Label::Link(link) => {
                put_text(out, b"link ")?;
                put_number(out, link as u64)
            }
            Label::BoundsFault => put_text(out, b"BoundsFault"),
            Label::ZeroDivisor => put_text(out, b"ZeroDivisor"),
        }
    }
}

/// Labels, with blanks between them.
pub(crate) fn put_labels(out: &mut Bytes, labels: &Labels) -> Result<(), OutOfMemory>
    ensures { OnOk result (out.new ≡ out.old ++ labels_text labels.now) }
{
    put_between(out, b" ", labels.as_slice())
}
