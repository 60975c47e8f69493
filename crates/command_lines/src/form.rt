//! The forms of a command line: `compile NAME`, `compile NAME STAMP`, `bind NAME`, `run NAME .. TURNS`, `go NAME.mesa TURNS`,
//! `go NAME.config TURNS`, `list FILE`, `upgrade FILE`, `exercise N TURNS`, `plan NAME ..` and `survey NAME` (rule of this project).

ghost use Rattle.std.specs.Prelude.{◌≡◌, ◌≢◌, ◌≤◌, ℕ, ◌∷◌, [], IfSome, IfNone, MatchOption, codes, decimal};
ghost use Rattle.command_passes.specs.command_rules.specs.Forms.{HasForm, HasNoForm, most_links};
ghost use Rattle.command_lines.specs.Words.{form_in};

use crate::kinds::{Source, named_kind, named_source};
use crate::plan_words::plan_of;
use crate::run_words::run_of;
use crate::words::{begins, is_word, three_words, two_words};
use command_passes::checked_texts::is_file_base;
use listed_files::FileKind;
use mesa_base::{Stamp, Words, decimal_value};

/// An exercise has at most so many links.
const MOST_LINKS: u64 = 1000;

/// What the words ask for. A base is a letter, then letters, digits, `-` and `_`, 64 bytes at most; an exercise has 1 to 1000 links, a run 1 to 16 bases, a plan
/// 1 to 64 bases, no two of which are the same.
#[derive(Clone, Copy)]
pub enum Form<'a> {
    Compile {
        base: &'a [u8],
    },
    Define {
        base: &'a [u8],
        stamp: Stamp,
    },
    Bind {
        base: &'a [u8],
    },
    /// The bases are the words between the first and the last.
    Run {
        words: &'a Words,
        turns: u64,
    },
    Go {
        source: Source,
        base: &'a [u8],
        turns: u64,
    },
    Show {
        kind: FileKind,
        base: &'a [u8],
    },
    Upgrade {
        kind: FileKind,
        base: &'a [u8],
    },
    Exercise {
        links: u16,
        turns: u64,
    },
    /// The bases are the words behind the first.
    Plan {
        words: &'a Words,
    },
    Survey {
        base: &'a [u8],
    },
}

/// None exactly where the words have no form.
pub fn form_of(words: &Words) -> Option<Form<'_>>
    ensures form { IfSome result (λ f. HasForm words.now (form_in f)) }
    ensures formless { IfNone result (HasNoForm words.now) }
{
    if begins(words, "plan") {
        return plan_of(words);
    }
    if begins(words, "run") {
        return run_of(words);
    }
    if let Some(two) = two_words(words) {
        return form_of_two(two.first, two.second);
    }
    let three = three_words(words)?;
    form_of_three(three.first, three.second, three.third)
}

/// The form of two words, which are no plan's and no run's.
fn form_of_two<'a>(verb: &[u8], name: &'a [u8]) -> Option<Form<'a>>
    requires plan { verb.now ≢ codes "plan" }
    requires run { verb.now ≢ codes "run" }
    ensures form { IfSome result (λ f. HasForm (verb.now ∷ name.now ∷ []) (form_in f)) }
    ensures formless { IfNone result (HasNoForm (verb.now ∷ name.now ∷ [])) }
{
    if is_word(verb, "compile") {
        compile_of(name)
    } else if is_word(verb, "bind") {
        bind_of(name)
    } else if is_word(verb, "list") {
        list_of(name)
    } else if is_word(verb, "upgrade") {
        upgrade_of(name)
    } else if is_word(verb, "survey") {
        survey_of(name)
    } else {
        None
    }
}

/// The form of three words, which are no plan's and no run's.
fn form_of_three<'a>(verb: &[u8], name: &'a [u8], last: &[u8]) -> Option<Form<'a>>
    requires plan { verb.now ≢ codes "plan" }
    requires run { verb.now ≢ codes "run" }
    ensures form { IfSome result (λ f. HasForm (verb.now ∷ name.now ∷ last.now ∷ []) (form_in f)) }
    ensures formless { IfNone result (HasNoForm (verb.now ∷ name.now ∷ last.now ∷ [])) }
{
    if is_word(verb, "compile") {
        definition_of(name, last)
    } else if is_word(verb, "go") {
        go_of(name, last)
    } else if is_word(verb, "exercise") {
        exercise_of(name, last)
    } else {
        None
    }
}

/// The form of `compile` with this word.
fn compile_of(base: &[u8]) -> Option<Form<'_>>
    ensures form { IfSome result (λ f. HasForm (codes "compile" ∷ base.now ∷ []) (form_in f)) }
    ensures formless { IfNone result (HasNoForm (codes "compile" ∷ base.now ∷ [])) }
{
    if is_file_base(base) {
        Some(Form::Compile { base })
    } else {
        None
    }
}

/// The form of `bind` with this word.
fn bind_of(base: &[u8]) -> Option<Form<'_>>
    ensures form { IfSome result (λ f. HasForm (codes "bind" ∷ base.now ∷ []) (form_in f)) }
    ensures formless { IfNone result (HasNoForm (codes "bind" ∷ base.now ∷ [])) }
{
    if is_file_base(base) {
        Some(Form::Bind { base })
    } else {
        None
    }
}

/// The form of `list` with this word.
fn list_of(name: &[u8]) -> Option<Form<'_>>
    ensures form { IfSome result (λ f. HasForm (codes "list" ∷ name.now ∷ []) (form_in f)) }
    ensures formless { IfNone result (HasNoForm (codes "list" ∷ name.now ∷ [])) }
{
    let named = named_kind(name)?;
    Some(Form::Show {
        kind: named.kind,
        base: named.base,
    })
}

/// The form of `upgrade` with this word.
fn upgrade_of(name: &[u8]) -> Option<Form<'_>>
    ensures form { IfSome result (λ f. HasForm (codes "upgrade" ∷ name.now ∷ []) (form_in f)) }
    ensures formless { IfNone result (HasNoForm (codes "upgrade" ∷ name.now ∷ [])) }
{
    let named = named_kind(name)?;
    Some(Form::Upgrade {
        kind: named.kind,
        base: named.base,
    })
}

/// The form of `survey` with this word.
fn survey_of(base: &[u8]) -> Option<Form<'_>>
    ensures form { IfSome result (λ f. HasForm (codes "survey" ∷ base.now ∷ []) (form_in f)) }
    ensures formless { IfNone result (HasNoForm (codes "survey" ∷ base.now ∷ [])) }
{
    if is_file_base(base) {
        Some(Form::Survey { base })
    } else {
        None
    }
}

/// The form of `compile` with these two words.
fn definition_of<'a>(base: &'a [u8], word: &[u8]) -> Option<Form<'a>>
    ensures form { IfSome result (λ f. HasForm (codes "compile" ∷ base.now ∷ word.now ∷ []) (form_in f)) }
    ensures formless { IfNone result (HasNoForm (codes "compile" ∷ base.now ∷ word.now ∷ [])) }
{
    if !is_file_base(base) {
        return None;
    }
    let stamp = Stamp::parse(word)?;
    Some(Form::Define { base, stamp })
}

/// The form of `go` with these two words.
fn go_of<'a>(name: &'a [u8], count: &[u8]) -> Option<Form<'a>>
    ensures form { IfSome result (λ f. HasForm (codes "go" ∷ name.now ∷ count.now ∷ []) (form_in f)) }
    ensures formless { IfNone result (HasNoForm (codes "go" ∷ name.now ∷ count.now ∷ [])) }
{
    let named = named_source(name)?;
    let turns = decimal_value(count)?;
    Some(Form::Go {
        source: named.source,
        base: named.base,
        turns,
    })
}

/// The form of `exercise` with these two words.
fn exercise_of<'a>(number: &[u8], count: &[u8]) -> Option<Form<'a>>
    ensures form { IfSome result (λ f. HasForm (codes "exercise" ∷ number.now ∷ count.now ∷ []) (form_in f)) }
    ensures formless { IfNone result (HasNoForm (codes "exercise" ∷ number.now ∷ count.now ∷ [])) }
{
    let links = links_in(number)?;
    let turns = decimal_value(count)?;
    Some(Form::Exercise { links, turns })
}

/// The number of an exercise's links.
fn links_in(word: &[u8]) -> Option<u16>
    ensures { MatchOption result ((n : ℕ) → 1 ≤ n → n ≤ most_links → word.now ≡ decimal n → ⊥)
        (λ n. (1 ≤ n) × (n ≤ most_links) × (word.now ≡ decimal n)) }
{
    let links = decimal_value(word)?;
    if 1 <= links && links <= MOST_LINKS {
        Some(links as u16)
    } else {
        None
    }
}
