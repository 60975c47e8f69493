//! Images: their modules, what they want, their instances with links, and what they offer.
ghost use Rattle.std.specs.Prelude.{◌≡◌, ◌++◌, flat_map, slice_get, OnOk};
ghost use Rattle.listing_rules.specs.Images as spec;

use crate::lines::{Word, put_line};
use crate::texts::{Listed, put_each};
use interface_records::Wanted;
use mesa_base::{Bytes, OutOfMemory};
use object_files::{Image, Instance, Instances, Link, LinkTables, Offer};

impl Listed for Wanted {
    ghost use Rattle.listing_rules.specs.Images.{wanted_line};

    ghost text = { wanted_line };

    fn put(&self, out: &mut Bytes) -> Result<(), OutOfMemory> {
        put_line(
            out,
            &Word::Text("WANTED"),
            &[Word::ItemOf(self), Word::Stamp(&self.stamp)],
        )
    }
}

fn put_link(out: &mut Bytes, instances: &Instances, link: Link) -> Result<(), OutOfMemory>
    ensures { OnOk result (out.new ≡ out.old ++ spec.link_line instances.now link) }
{
    match link {
        Link::Wanted(entry) => put_line(
            out,
            &Word::Text("LINK"),
            &[Word::Text("wanted"), Word::Number(entry as u64)],
        ),
        Link::To { instance, number } => put_line(
            out,
            &Word::Text("LINK"),
            &[
                Word::PathAt(instances, instance),
                Word::Number(number as u64),
            ],
        ),
    }
}

fn put_links(out: &mut Bytes, instances: &Instances, links: &[Link]) -> Result<(), OutOfMemory>
    ensures { OnOk result (out.new ≡ out.old ++ flat_map (spec.link_line instances.now) links.now) }
{
    'links: for link in links {
        put_link(out, instances, *link)?;
    }
    Ok(())
}

// The links of the instance of this number.
fn put_table(
    out: &mut Bytes,
    instances: &Instances,
    tables: &LinkTables,
    at: usize,
) -> Result<(), OutOfMemory>
    ensures { OnOk result (out.new ≡ out.old ++ spec.table_lines instances.now (slice_get tables.now at)) }
{
    match tables.get(at) {
        Some(links) => put_links(out, instances, links.as_slice()),
        None => Ok(()),
    }
}

fn put_instance(out: &mut Bytes, instance: &Instance) -> Result<(), OutOfMemory>
    ensures { OnOk result (out.new ≡ out.old ++ spec.instance_line instance.now) }
{
    put_line(
        out,
        &Word::Text("INSTANCE"),
        &[
            Word::Path(&instance.path),
            Word::Number(instance.module as u64),
        ],
    )
}

fn put_instances(
    out: &mut Bytes,
    instances: &Instances,
    tables: &LinkTables,
) -> Result<(), OutOfMemory>
    ensures { OnOk result (out.new ≡ out.old ++ spec.instances_from instances.now tables.now 0 instances.now) }
{
    let all = instances.as_slice();
    'instances: for i in 0..all.len() {
        put_instance(out, &all[i])?;
        put_table(out, instances, tables, i)?;
    }
    Ok(())
}

fn put_offer<'a>(
    out: &mut Bytes,
    instances: &'a Instances,
    offer: &'a Offer,
) -> Result<(), OutOfMemory>
    ensures { OnOk result (out.new ≡ out.old ++ spec.offer_line instances.now offer.now) }
{
    put_line(
        out,
        &Word::Text("OFFERED"),
        &[
            Word::Name(&offer.name),
            Word::PathAt(instances, offer.instance),
            Word::Number(offer.export as u64),
        ],
    )
}

fn put_offers(out: &mut Bytes, instances: &Instances, offers: &[Offer]) -> Result<(), OutOfMemory>
    ensures { OnOk result (out.new ≡ out.old ++ flat_map (spec.offer_line instances.now) offers.now) }
{
    'offers: for offer in offers {
        put_offer(out, instances, offer)?;
    }
    Ok(())
}

fn put_start(out: &mut Bytes, instances: &Instances, number: u32) -> Result<(), OutOfMemory>
    ensures { OnOk result (out.new ≡ out.old ++ spec.control_line instances.now number) }
{
    put_line(
        out,
        &Word::Text("CONTROL"),
        &[Word::PathAt(instances, number)],
    )
}

fn put_starts(out: &mut Bytes, instances: &Instances, control: &[u32]) -> Result<(), OutOfMemory>
    ensures { OnOk result (out.new ≡ out.old ++ flat_map (spec.control_line instances.now) control.now) }
{
    'control: for number in control {
        put_start(out, instances, *number)?;
    }
    Ok(())
}

// The instances with their links, what is offered, and what is started.
fn put_bound(out: &mut Bytes, image: &Image) -> Result<(), OutOfMemory>
    ensures { OnOk result (out.new ≡ out.old ++ spec.bound_lines image.now) }
{
    put_instances(out, &image.instances, &image.links)?;
    put_offers(out, &image.instances, image.offered.as_slice())?;
    put_starts(out, &image.instances, image.control.as_slice())
}

fn put_head(out: &mut Bytes) -> Result<(), OutOfMemory>
    ensures { OnOk result (out.new ≡ out.old ++ spec.head_line) }
{
    put_line(out, &Word::Text("IMAGE"), &[])
}

/// The listing of the image, behind what is there.
pub fn put_image(out: &mut Bytes, image: &Image) -> Result<(), OutOfMemory>
    ensures { OnOk result (out.new ≡ out.old ++ spec.image_listing image.now) }
{
    put_head(out)?;
    put_each(out, image.modules.as_slice())?;
    put_each(out, image.wanted.as_slice())?;
    put_bound(out, image)
}
