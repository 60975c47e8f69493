//! What a word names by the ending of a file: what is run, or what a file holds that is listed or upgraded (rule of this project).

ghost use Rattle.std.specs.Prelude.{◌≡◌, ◌≢◌, ℕ, List, ◌++◌, MatchOption, true};
ghost use Rattle.config_rules.specs.Components.{is_file_base as is_base};
ghost use Rattle.command_passes.specs.command_rules.specs.Forms as rules;
ghost use Rattle.command_passes.specs.command_rules.specs.Forms.{source_file, kind_file};
ghost use Rattle.command_passes.specs.Kinds.{kind_in};
ghost use Rattle.command_lines.specs.Words.{source_in};

use command_passes::checked_texts::is_file_base;
use listed_files::FileKind;

/// What is run: one module alone, or a configuration.
#[derive(Clone, Copy)]
pub enum Source {
    OfModule,
    OfConfig,
}

#[derive(Clone, Copy)]
pub(crate) struct NamedSource<'a> {
    pub(crate) source: Source,
    pub(crate) base: &'a [u8],
}

/// What is run, where the word is the name of its file.
pub(crate) fn named_source(word: &[u8]) -> Option<NamedSource<'_>>
    ensures { MatchOption result ((source : rules.Source) (base : List ℕ) → is_base base ≡ true → word.now ≡ source_file source base → ⊥)
        (λ named. (is_base named.base.now ≡ true) × (word.now ≡ source_file (source_in named.source) named.base.now)) }
{
    if let Some(base) = base_before(word, b".mesa") {
        return Some(NamedSource {
            source: Source::OfModule,
            base,
        });
    }
    let base = base_before(word, b".config")?;
    Some(NamedSource {
        source: Source::OfConfig,
        base,
    })
}

#[derive(Clone, Copy)]
pub(crate) struct NamedKind<'a> {
    pub(crate) kind: FileKind,
    pub(crate) base: &'a [u8],
}

/// What the file of this name holds.
pub(crate) fn named_kind(word: &[u8]) -> Option<NamedKind<'_>>
    ensures { MatchOption result ((kind : rules.FileKind) (base : List ℕ) → is_base base ≡ true → word.now ≡ kind_file kind base → ⊥)
        (λ named. (is_base named.base.now ≡ true) × (word.now ≡ kind_file (kind_in named.kind) named.base.now)) }
{
    if let Some(base) = base_before(word, b".mif") {
        return Some(NamedKind {
            kind: FileKind::Interface,
            base,
        });
    }
    if let Some(base) = base_before(word, b".mob") {
        return Some(NamedKind {
            kind: FileKind::Object,
            base,
        });
    }
    let base = base_before(word, b".mim")?;
    Some(NamedKind {
        kind: FileKind::Image,
        base,
    })
}

/// The base, where the word is a base of a file and this ending.
fn base_before<'a>(word: &'a [u8], ending: &[u8]) -> Option<&'a [u8]>
    ensures { MatchOption result ((base : List ℕ) → is_base base ≡ true → word.now ≡ base ++ ending.now → ⊥)
        (λ base. (is_base base.now ≡ true) × (word.now ≡ base.now ++ ending.now)) }
{
    let base = without_ending(word, ending)?;
    if is_file_base(base) { Some(base) } else { None }
}

fn without_ending<'a>(word: &'a [u8], ending: &[u8]) -> Option<&'a [u8]>
    ensures { MatchOption result ((base : List ℕ) → word.now ≢ base ++ ending.now) (λ base. word.now ≡ base.now ++ ending.now) }
{
    word.strip_suffix(ending)
}
