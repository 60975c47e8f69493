//! The laws.

ghost use Rattle.upgraded_files.specs.Upgraded.{FilesAreUpgraded, FilesHaveVersions};

/// A law: the bytes of a file, with the version set to 2, are the file of the same value in version 2.
#[tactic(auto, using(crate::proofs::Upgraded::files_are_upgraded))]
pub fn files_are_upgraded()
    ensures { FilesAreUpgraded }
{}

/// A law: a file has a version, behind its three letters.
#[tactic(auto, using(crate::proofs::Upgraded::files_have_versions))]
pub fn files_have_versions()
    ensures { FilesHaveVersions }
{}
