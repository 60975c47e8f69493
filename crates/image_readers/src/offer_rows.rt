//! What an image offers.
ghost use Rattle.std.specs.Prelude.{map};
ghost use Rattle.file_forms.specs.Forms.{list, at_least};
ghost use Rattle.file_forms.specs.Reads.{Reads};
ghost use Rattle.object_readers.specs.Rows.{module_part};
ghost use Rattle.object_rules.specs.ImageForms as form;

use crate::elements::{Element, counted};
use crate::lookups::exports_of;
use crate::numbers::number_below;
use file_forms::{FileCursor, Stopped};
use held_objects::ManyRows;
use object_files::{Instances, Offer, Offers};
use std::alloc::Global;

#[tactic(auto, unfolding(object_rules::specs::ImageForms::offer))]
fn offer(
    alloc: Global,
    input: &mut FileCursor<'_>,
    modules: &ManyRows,
    instances: &Instances,
) -> Result<Offer, Stopped>
    ensures { Reads ((form.offer (map module_part modules.now) instances.now).read input.old.rest.now) result input.new.rest.now }
{
    let name = input.name(alloc)?;
    let instance = number_below(input, instances.len())?;
    let export = number_below(input, exports_of(modules, instances, instance as usize))?;
    Ok(Offer {
        name,
        instance,
        export,
    })
}

#[derive(Drop)]
struct OneOffer<'a> {
    modules: &'a ManyRows,
    instances: &'a Instances,
}

impl Element for OneOffer<'_> {
    ghost use Rattle.std.specs.Prelude.{map};
    ghost use Rattle.object_readers.specs.Rows.{module_part};
    ghost use Rattle.object_rules.specs.ImageForms.{offer};

    type Made = Offer;

    ghost form = { λ one _. offer (map module_part one.modules.now) one.instances.now };

    fn read(
        &self,
        alloc: Global,
        input: &mut FileCursor<'_>,
        _: &Offers,
    ) -> Result<Offer, Stopped> {
        offer(alloc, input, self.modules, self.instances)
    }
}

/// What an image with these modules and instances offers.
pub(crate) fn offers(
    alloc: Global,
    input: &mut FileCursor<'_>,
    modules: &ManyRows,
    instances: &Instances,
) -> Result<Offers, Stopped>
    ensures { Reads ((list (at_least 0) (λ _. form.offer (map module_part modules.now) instances.now)).read input.old.rest.now) result input.new.rest.now }
{
    counted(alloc, input, &OneOffer { modules, instances })
}
