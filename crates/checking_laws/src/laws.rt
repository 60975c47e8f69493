//! Laws of checking. No call of the program is here.

ghost use Rattle.checking_laws.specs.Laws.{ModulesAreSizedByTheirText, StampFaultsAreOfTheKind, UsedItemsAreFew, UsedItemsAreNamed};

/// A checked module uses fewer items of its imports than its typed tree has nodes, all imports together: each item that is used is
/// called, raised or a label in the tree.
#[tactic(auto, using(crate::proofs::Modules::used_items_are_few))]
pub fn used_items_are_few()
    ensures { UsedItemsAreFew }
{}

/// The imports, the exports and the used items of a checked module are together no more than the names that stand in its text
/// behind the DIRECTORY.
#[tactic(auto, using(crate::proofs::Modules::used_items_are_named))]
pub fn used_items_are_named()
    ensures { UsedItemsAreNamed }
{}

/// A checked module is no larger than its text and the interfaces given to it: its names and string literals take no more bytes than
/// those that stand in the text, it imports each interface once at most and exports each once at most, and what it uses is named.
#[tactic(auto, using(crate::proofs::Modules::modules_are_sized))]
pub fn modules_are_sized_by_their_text()
    ensures { ModulesAreSizedByTheirText }
{}

/// A text has the fault of a missing stamp exactly where it is a module of definitions and no stamp is given, and that of an unwanted one
/// exactly where it is a program and one is given, for every list of interfaces.
#[tactic(auto, using(crate::proofs::Stamps::stamp_faults_are_of_the_kind))]
pub fn stamp_faults_are_of_the_kind()
    ensures { StampFaultsAreOfTheKind }
{}
