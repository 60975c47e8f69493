//! What `bind` gives.

use crate::index::ExporterIndex;
use config_rules::BindingLists;

/// The links of each instance of a tree, and who exports what to which record.
#[derive(Drop)]
pub struct Bindings {
    pub links: BindingLists,
    pub exporters: ExporterIndex,
}
