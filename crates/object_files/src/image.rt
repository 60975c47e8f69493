//! Images: their instances with links, and what they want, offer and start.
use crate::object::Objects;
use code_forms::mesa_base::{List, Name, Numbers, Path};
use interface_records::Wanteds;

/// The instances of an image, by number.
pub type Instances = List<Instance>;

/// The links of an instance, in the order of its module's links.
pub type LinkTable = List<Link>;

/// For each instance, in order, its links.
pub type LinkTables = List<LinkTable>;

/// What an image offers to a later one.
pub type Offers = List<Offer>;

/// An instance of a module, by the module's number. Its path leaves out the outermost configuration.
#[derive(Drop)]
pub struct Instance {
    pub path: Path,
    pub module: u32,
}

/// What a link of an instance is bound to: an entry of the items wanted of the loader; or the procedure, above 0, or the
/// signal of this number of an instance.
#[derive(Clone, Copy)]
pub enum Link {
    Wanted(u32),
    To { instance: u32, number: u32 },
}

/// An export of an instance, by the export's number, under the name of a record of the outermost configuration.
#[derive(Drop)]
pub struct Offer {
    pub name: Name,
    pub instance: u32,
    pub export: u32,
}

/// Modules bound into instances: the modules, the items wanted of the loader, the instances with their links, what is
/// offered, and the instances that are started, in order (Language Manual, chapter 7; the form is a rule of this project).
#[derive(Drop)]
pub struct Image {
    pub modules: Objects,
    pub wanted: Wanteds,
    pub instances: Instances,
    pub links: LinkTables,
    pub offered: Offers,
    pub control: Numbers,
}
