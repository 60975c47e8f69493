//! The laws of texts: each comes to one thing at most, and what files can spell of it.
ghost use Rattle.checked_texts.specs.Laws.{DefinedInterfacesCanBeSpelled, DefinitionsComeToOne, FaultsComeInOrder, ProgramsComeToOne, ReadModulesCanBeKept, StampsNeedNoInterface, TextsBeginOnce, TextsHaveOneTree};

use checking_laws::laws::used_items_are_few;
use typing_laws::laws::spelled_interfaces_are_in_order;
use written_trees::{
    checked_texts_are_sound, checked_texts_can_be_spelled, checked_texts_have_names,
};

/// A text has at most one tree and at most one lexical or syntax fault, and never both.
pub fn texts_have_one_tree()
    ensures { TextsHaveOneTree }
{}

/// A text that is compiled for one purpose has at most one tree that may be checked and at most one fault before any interface is read, and never both.
pub fn texts_begin_once()
    ensures { TextsBeginOnce }
{}

/// With one list of interfaces a text has at most one module and at most one fault of checking, and never both.
pub fn programs_come_to_one()
    ensures { ProgramsComeToOne }
{}

/// With one list of interfaces a text under one stamp has at most one interface and at most one fault of checking, and never both.
pub fn definitions_come_to_one()
    ensures { DefinitionsComeToOne }
{}

/// A text with a fault before any interface is read comes to nothing else, and no text is both a program and definitions.
pub fn faults_come_in_order()
    ensures { FaultsComeInOrder }
{}

/// What is refused for its stamp, checking refuses too, with whatever interfaces.
pub fn stamps_need_no_interface()
    ensures { StampsNeedNoInterface }
{}

/// The module of a text can be translated, and its object can be spelled, where files can spell the interfaces given.
pub fn read_modules_can_be_kept()
    ensures { ReadModulesCanBeKept }
{
    checked_texts_are_sound();
    checked_texts_can_be_spelled();
    checked_texts_have_names();
    spelled_interfaces_are_in_order();
    used_items_are_few();
}

/// Files can spell the interface of a text under a stamp of six bytes, where they can spell the interfaces given.
pub fn defined_interfaces_can_be_spelled()
    ensures { DefinedInterfacesCanBeSpelled }
{
    checked_texts_can_be_spelled();
}
