//! The laws of types, items, faces and interfaces: forms fit exactly those that files can spell.
ghost use Rattle.spelled_laws.specs.Laws.{
  BuiltInFits,
  ConstantTypesFit,
  FacesFit,
  FacesOfInterfacesFit,
  FieldsFit,
  InterfacesFit,
  ItemsFit,
  TypesFit,
};

/// A law: files can spell a type exactly where its form in version 2 fits it.
#[tactic(auto, using(crate::proofs::FacesFit::types_fit))]
pub fn types_fit()
    ensures { TypesFit }
{}

/// A law: so it is with the types of constants, where one is wanted.
pub fn constant_types_fit()
    ensures { ConstantTypesFit }
{}

/// A law: so it is with fields, parameters and results.
pub fn fields_fit()
    ensures { FieldsFit }
{}

/// A law: so it is with items.
pub fn items_fit()
    ensures { ItemsFit }
{}

/// A law: so it is with faces.
pub fn faces_fit()
    ensures { FacesFit }
{}

/// A law: files can spell an interface exactly where its form in version 2 fits it.
pub fn interfaces_fit()
    ensures { InterfacesFit }
{}

/// A law: the face of an interface that its form fits is fitted by its own.
#[tactic(auto, using(crate::proofs::InterfacesFit::faces_of_interfaces_fit))]
pub fn faces_of_interfaces_fit()
    ensures { FacesOfInterfacesFit }
{}

/// A law: the form of interfaces in version 2 fits the built-in one.
#[tactic(auto, using(crate::proofs::InterfacesFit::built_in_fits))]
pub fn built_in_fits()
    ensures { BuiltInFits }
{}
