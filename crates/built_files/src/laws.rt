//! The laws of objects of checked modules: the form of objects fits them, and they are whole.
ghost use Rattle.built_files.specs.Laws.{ObjectsOfModulesAreWhole, ObjectsOfModulesFit, SpelledObjectsFit};

/// A law: the form of objects in version 2 fits an object whose shape and code can be spelled.
pub fn spelled_objects_fit()
    ensures { SpelledObjectsFit }
{}

/// A law: the form of objects in version 2 fits an object of a checked module.
pub fn objects_of_modules_fit()
    ensures { ObjectsOfModulesFit }
{}

/// A law: an object of a checked module is whole: its shape and its code belong together, and the code is valid.
pub fn objects_of_modules_are_whole()
    ensures { ObjectsOfModulesAreWhole }
{}
