//! What an image has, with its numbers shifted by what stands before it.

ghost use Rattle.std.specs.Prelude.{◌≡◌, ◌+◌, ◌<◌, ◌++◌, ◌^◌, All, map, IfOk, OnOk};
ghost use Rattle.image_loader.specs.Standing.{name_by, instance_by, offer_by, started_by, instance_of, link_by};

use crate::naming::{image_name, path_behind};
use crate::standing::Standing;
use mesa_base::{List, Name, Numbers, OutOfMemory};
use object_files::{Instance, Instances, Link, LinkTable, LinkTables, Offer, Offers};
use std::alloc::Global;

fn shifted_instance(
    alloc: Global,
    standing: Standing,
    name: &Name,
    instance: &Instance,
) -> Result<Instance, OutOfMemory>
    requires named { name.now ≡ name_by standing }
    requires fits { standing.modules + instance.now.«module» < 2 ^ 32 }
    ensures { IfOk result (λ made. made ≡ instance_by standing instance.now) }
{
    Ok(Instance {
        path: path_behind(alloc, name, &instance.path)?,
        module: standing.modules + instance.module,
    })
}

/// Puts the instances of an image behind the others.
pub fn put_instances(
    alloc: Global,
    standing: Standing,
    instances: &[Instance],
    all: &mut Instances,
) -> Result<(), OutOfMemory>
    requires number { standing.number < 16 }
    requires fits { All (λ x. standing.modules + x.«module» < 2 ^ 32) instances.now }
    ensures { OnOk result (all.new ≡ all.old ++ map (instance_by standing) instances.now) }
{
    let name = image_name(alloc, standing.number)?;
    for instance in instances {
        all.push(shifted_instance(alloc, standing, &name, instance)?)?;
    }
    Ok(())
}

fn shifted_offer(alloc: Global, standing: Standing, offer: &Offer) -> Result<Offer, OutOfMemory>
    requires { standing.instances + offer.now.instance < 2 ^ 32 }
    ensures { IfOk result (λ made. made ≡ offer_by standing offer.now) }
{
    Ok(Offer {
        name: offer.name.copy(alloc)?,
        instance: standing.instances + offer.instance,
        export: offer.export,
    })
}

/// Puts what an image offers behind the others.
pub fn put_offers(
    alloc: Global,
    standing: Standing,
    offers: &[Offer],
    all: &mut Offers,
) -> Result<(), OutOfMemory>
    requires { All (λ o. standing.instances + o.instance < 2 ^ 32) offers.now }
    ensures { OnOk result (all.new ≡ all.old ++ map (offer_by standing) offers.now) }
{
    for offer in offers {
        all.push(shifted_offer(alloc, standing, offer)?)?;
    }
    Ok(())
}

/// Puts the instances that an image starts behind the others.
pub fn put_started(
    standing: Standing,
    started: &[u32],
    all: &mut Numbers,
) -> Result<(), OutOfMemory>
    requires { All (λ j. standing.instances + j < 2 ^ 32) started.now }
    ensures { OnOk result (all.new ≡ all.old ++ map (started_by standing) started.now) }
{
    for number in started {
        all.push(standing.instances + *number)?;
    }
    Ok(())
}

fn shifted_link(standing: Standing, given: &[Link], link: Link) -> Link
    requires { standing.instances + instance_of link < 2 ^ 32 }
    ensures { result ≡ link_by standing given.now link }
{
    match link {
        Link::Wanted(number) => match given.get(number as usize) {
            Some(its) => *its,
            None => link,
        },
        Link::To { instance, number } => Link::To {
            instance: standing.instances + instance,
            number,
        },
    }
}

fn shifted_table(
    alloc: Global,
    standing: Standing,
    given: &[Link],
    table: &[Link],
) -> Result<LinkTable, OutOfMemory>
    requires { All (λ l. standing.instances + instance_of l < 2 ^ 32) table.now }
    ensures { IfOk result (λ made. made ≡ map (link_by standing given.now) table.now) }
{
    let mut made = List::new(alloc);
    for link in table {
        made.push(shifted_link(standing, given, *link))?;
    }
    Ok(made)
}

/// Puts the links of an image's instances behind the others. What is given for each of its wanted items stands in the place of the links to it.
pub fn put_tables(
    alloc: Global,
    standing: Standing,
    given: &[Link],
    tables: &[LinkTable],
    all: &mut LinkTables,
) -> Result<(), OutOfMemory>
    requires { All (All (λ l. standing.instances + instance_of l < 2 ^ 32)) tables.now }
    ensures { OnOk result (all.new ≡ all.old ++ map (map (link_by standing given.now)) tables.now) }
{
    for table in tables {
        all.push(shifted_table(alloc, standing, given, table.as_slice())?)?;
    }
    Ok(())
}
