//! Why a file is refused.

use checked_texts::TextFault;
use config_rules::TreeCause;
use interface_records::WantedItem;
use linked_programs::import_binder::BindFault;
use loader_rules::LoadFault;
use mesa_base::{Place, Texts};
use object_rules::ObjectFault;

/// Why a file is refused, with what its line shows.
#[derive(Drop)]
pub enum Trouble {
    /// The first fault of a module's text, or a lexical or syntax fault of a configuration's.
    Text(TextFault),
    /// The first fault of a configuration's tree, or a FROM text of it that is no base of a file.
    Tree(TreeCause, Place),
    /// The bytes are no file of their kind, or the code that they hold is not valid.
    File(ObjectFault),
    /// The first bad item of a configuration.
    Item(BindFault),
    /// The image wants an item that the host has not.
    Unresolved(WantedItem),
    /// The file would have more than 536,870,912 bytes.
    TooLarge,
    /// The bases of texts each of which names the next, and the last the first.
    Cycle(Texts),
    /// The first load fault of several images.
    Load(LoadFault),
}
