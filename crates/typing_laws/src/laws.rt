//! Laws of checking. No call of the program is here.

ghost use Rattle.check_rules.specs.Laws.{CheckedInterfacesAreInOrder, CheckedInterfacesCanBeSpelled, CheckedModulesAreSound, CheckedModulesHaveNames, EachTextHasOneResult, FaultsStandInTheText, HeadsAreInForm, InterfacesAreOfTheirText, ModulesCanBeSpelled, NamesStandOnce, ShapesAreGiven, ShapesAreInOrder, SpelledInterfacesAreInOrder, StampsComeFirst, TypedTreesHaveFewNodes, TypesKeepTheirLimits};

/// Each text has exactly one result: a typed module or an interface, or its first fault with its cause and place.
#[tactic(auto, using(crate::proofs::LawProofs::one_result))]
pub fn each_text_has_one_result()
    ensures { EachTextHasOneResult }
{}

/// The numbers of the items that a checked module uses and gives ascend, and are those of items of their interface.
#[tactic(auto, using(crate::proofs::LawProofs::shapes_in_order))]
pub fn shapes_are_in_order()
    ensures { ShapesAreInOrder }
{}

/// The typed tree of a checked module has at most two nodes for each node of its syntax tree.
#[tactic(auto, using(crate::proofs::KeptModule::few_nodes))]
pub fn typed_trees_have_few_nodes()
    ensures { TypedTreesHaveFewNodes }
{}

/// The place of a fault stands in the syntax tree, so for the tree of a text it is that of one of its tokens.
#[tactic(auto, using(crate::proofs::KeptModule::in_the_text))]
pub fn faults_stand_in_the_text()
    ensures { FaultsStandInTheText }
{}

/// No two of the items, constants and types of a checked interface have one name.
#[tactic(auto, using(crate::proofs::Distinct::names_once))]
pub fn names_stand_once()
    ensures { NamesStandOnce }
{}

/// A checked module has the name of its text, and the faces of its imports and exports are faces of the interfaces given to it.
#[tactic(auto, using(crate::proofs::GivenFaces::shapes_given))]
pub fn shapes_are_given()
    ensures { ShapesAreGiven }
{}

/// A checked interface has its module's name, the stamp, and the items, constants and types that the text declares, by their names in
/// the order of the text.
#[tactic(auto, using(crate::proofs::DeclaredNames::of_their_text))]
pub fn interfaces_are_of_their_text()
    ensures { InterfacesAreOfTheirText }
{}

/// Each item of a checked interface has names for all its parameters or for none, and so for its results; none of them stands twice,
/// and an ERROR gives nothing.
#[tactic(auto, using(crate::proofs::HeadForms::heads_in_form))]
pub fn heads_are_in_form()
    ensures { HeadsAreInForm }
{}

/// The types of a checked interface keep their limits, inside and out, where those of the interfaces given do.
#[tactic(auto, using(crate::proofs::LimitsKept::types_keep_limits))]
pub fn types_keep_their_limits()
    ensures { TypesKeepTheirLimits }
{}

/// A typed module that checking gives is sound, where its tree is written as a text and its interfaces are in order.
#[tactic(auto, using(crate::proofs::SoundLaw::checked_modules_are_sound))]
pub fn checked_modules_are_sound()
    ensures { CheckedModulesAreSound }
{}

/// An interface that checking gives is in order, where its tree is written as a text and the interfaces given are in order: no type
/// in it is empty or past its limits, each constant is a word of an ordinal type, and an error gives nothing.
#[tactic(auto, using(crate::proofs::OrderKept::interfaces_in_order))]
pub fn checked_interfaces_are_in_order()
    ensures { CheckedInterfacesAreInOrder }
{}

/// Files can spell the name, imports and exports of a checked module, where they can spell the interfaces given to it, its tree has
/// names and no more nodes than a tree of a text.
#[tactic(auto, using(crate::proofs::SpelledShapes::modules_can_be_spelled))]
pub fn modules_can_be_spelled()
    ensures { ModulesCanBeSpelled }
{}

/// Files can spell each interface that checking gives under a stamp of six bytes, where its tree is also written as a text.
#[tactic(auto, using(crate::proofs::SpelledLaw::interfaces_can_be_spelled))]
pub fn interfaces_can_be_spelled()
    ensures { CheckedInterfacesCanBeSpelled }
{}

/// An interface that files can spell is in order, so that what is checked with interfaces that were read is sound.
pub fn spelled_interfaces_are_in_order()
    ensures { SpelledInterfacesAreInOrder }
{}

/// The signals and procedures of a checked module have names, where its tree has names and is written as a text.
#[tactic(auto, using(crate::proofs::HeadNames::modules_have_names))]
pub fn checked_modules_have_names()
    ensures { CheckedModulesHaveNames }
{}

/// Definitions without a stamp, and a program under one, are refused at the word of their kind, whatever the interfaces given are.
#[tactic(auto, using(check_rules::proofs::Stamps::stamps_come_first))]
pub fn stamps_come_first()
    ensures { StampsComeFirst }
{}
