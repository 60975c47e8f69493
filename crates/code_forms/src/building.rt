//! The code of a module, made of parts whose counts and sizes are in range.
ghost use Rattle.std.specs.Prelude.{◌≡◌, ℕ, ◌+◌, ◌-◌, ◌<◌, ◌≤◌, ◌^◌, ◌↔◌, length, All, IsTrue, MatchOption, slice_get, slice_index_or};
ghost use Rattle.mesa_base.specs.declared.limits.TheConstants.{STRING_BYTES};
ghost use Rattle.code_forms.specs.declared.module_code.CodeEntry.{CodeEntry};
ghost use Rattle.code_forms.specs.Built.{HasParts};
ghost use Rattle.code_forms.specs.Instructions.{bytes_of};
ghost use Rattle.code_forms.specs.Ranges.{AreFew, IsSignalWith, SignalInRange, IsLinkWith, LinkInRange, IsSignalLink, LabelInRange, ArmInRange, PhraseInRange, InOrder, ProcedureInRange, IsBody, KeepsRanges};

use crate::limits::{FRAME_WORDS, STACK_WORDS};
use crate::module_code::{
    Arm, CodeEntry, CodeKind, CodeLink, CodeLinks, CodeProcedure, CodeSignal, CodeSignals, Label,
    ModuleCode, Phrase,
};
use crate::procedures::CodeProcedures;
use mesa_base::limits::{DISTINCT_STRINGS, GLOBAL_WORDS, STRING_BYTES};
use mesa_base::{Bytes, Name, Texts};

// Whether 32 bits count so many.
fn is_few(count: usize) -> bool
    ensures { IsTrue result ↔ count < 2 ^ 32 }
{
    count <= u32::MAX as usize
}

fn is_signal_with(kind: CodeKind, results: u64) -> bool
    ensures { IsTrue result ↔ IsSignalWith kind results }
{
    match kind {
        CodeKind::Procedure => false,
        CodeKind::Signal => true,
        CodeKind::Error => results == 0,
    }
}

fn is_link_with(kind: CodeKind, results: u64) -> bool
    ensures { IsTrue result ↔ IsLinkWith kind results }
{
    match kind {
        CodeKind::Procedure | CodeKind::Signal => true,
        CodeKind::Error => results == 0,
    }
}

fn signals_in_range(signals: &[CodeSignal]) -> bool
    ensures { IsTrue result ↔ All SignalInRange signals.now }
{
    for at in 0..signals.len() {
        if !is_signal_with(signals[at].kind, u64::from(signals[at].results)) {
            return false;
        }
    }
    true
}

fn links_in_range(links: &[CodeLink]) -> bool
    ensures { IsTrue result ↔ All LinkInRange links.now }
{
    for link in links {
        if !is_link_with(link.kind, link.results) {
            return false;
        }
    }
    true
}

fn strings_in_range(strings: &[Bytes]) -> bool
    ensures { IsTrue result ↔ All (λ s. length s ≤ STRING_BYTES) strings.now }
{
    for at in 0..strings.len() {
        if strings[at].len() > STRING_BYTES {
            return false;
        }
    }
    true
}

fn is_signal_link(links: &[CodeLink], link: u32) -> bool
    ensures { IsTrue result ↔ IsSignalLink (slice_get links.now link) }
{
    match links.get(link as usize) {
        Some(link) => is_signal_with(link.kind, link.results),
        None => false,
    }
}

fn label_in_range(signals: &[CodeSignal], links: &[CodeLink], label: Label) -> bool
    ensures { IsTrue result ↔ LabelInRange signals.now links.now label }
{
    match label {
        Label::Own(signal) => (signal as usize) < signals.len(),
        Label::Link(link) => is_signal_link(links, link),
        Label::Any | Label::Unwind | Label::BoundsFault | Label::ZeroDivisor => true,
    }
}

fn labels_in_range(signals: &[CodeSignal], links: &[CodeLink], labels: &[Label]) -> bool
    ensures { IsTrue result ↔ All (LabelInRange signals.now links.now) labels.now }
{
    for label in labels {
        if !label_in_range(signals, links, *label) {
            return false;
        }
    }
    true
}

fn arm_in_range(signals: &[CodeSignal], links: &[CodeLink], arm: &Arm) -> bool
    ensures { IsTrue result ↔ ArmInRange signals.now links.now arm.now }
{
    if arm.labels.is_empty() || !is_few(arm.labels.len()) {
        return false;
    }
    labels_in_range(signals, links, arm.labels.as_slice())
}

fn arms_in_range(signals: &[CodeSignal], links: &[CodeLink], arms: &[Arm]) -> bool
    ensures { IsTrue result ↔ All (ArmInRange signals.now links.now) arms.now }
{
    for at in 0..arms.len() {
        if !arm_in_range(signals, links, &arms[at]) {
            return false;
        }
    }
    true
}

fn phrase_in_range(signals: &[CodeSignal], links: &[CodeLink], phrase: &Phrase) -> bool
    ensures { IsTrue result ↔ PhraseInRange signals.now links.now phrase.now }
{
    if phrase.arms.is_empty() || !is_few(phrase.arms.len()) {
        return false;
    }
    arms_in_range(signals, links, phrase.arms.as_slice())
}

fn phrases_in_range(signals: &[CodeSignal], links: &[CodeLink], phrases: &[Phrase]) -> bool
    ensures { IsTrue result ↔ All (PhraseInRange signals.now links.now) phrases.now }
{
    for at in 0..phrases.len() {
        if !phrase_in_range(signals, links, &phrases[at]) {
            return false;
        }
    }
    true
}

// Where the instruction ends.
fn end_of(entry: CodeEntry) -> u64
    ensures { result ≡ entry.at + bytes_of entry.instruction }
{
    u64::from(entry.at) + u64::from(entry.instruction.bytes())
}

// Whether the instruction before this one ends where this one begins.
fn joins(code: &[CodeEntry], at: usize) -> bool
    requires { at < length code.now }
    ensures { IsTrue result ↔ ((d : CodeEntry) → 0 < at → (slice_index_or code.now (at - 1) d).at + bytes_of (slice_index_or code.now (at - 1) d).instruction ≡ (slice_index_or code.now at d).at) }
{
    if at == 0 {
        return true;
    }
    end_of(code[at - 1]) == u64::from(code[at].at)
}

fn is_short(entry: CodeEntry) -> bool
    ensures { IsTrue result ↔ (entry.at + bytes_of entry.instruction < 2 ^ 32) }
{
    end_of(entry) <= u64::from(u32::MAX)
}

fn is_in_order(code: &[CodeEntry]) -> bool
    ensures { IsTrue result ↔ InOrder code.now }
{
    if code.is_empty() || code[0].at != 0 {
        return false;
    }
    for at in 0..code.len() {
        if !is_short(code[at]) {
            return false;
        }
        if !joins(code, at) {
            return false;
        }
    }
    true
}

// Whether the words of a procedure are in range.
fn words_in_range(procedure: &CodeProcedure) -> bool
    ensures { IsTrue result ↔ ((procedure.now.frame ≤ FRAME_WORDS) × (procedure.now.args + procedure.now.results ≤ procedure.now.frame) × (procedure.now.depth ≤ STACK_WORDS)) }
{
    let words = u32::from(procedure.args) + u32::from(procedure.results);
    procedure.frame <= FRAME_WORDS
        && words <= u32::from(procedure.frame)
        && procedure.depth <= STACK_WORDS
}

fn procedure_in_range(signals: &[CodeSignal], links: &[CodeLink], procedure: &CodeProcedure) -> bool
    ensures { IsTrue result ↔ ProcedureInRange signals.now links.now procedure.now }
{
    if !words_in_range(procedure) || !is_in_order(procedure.code.as_slice()) {
        return false;
    }
    is_few(procedure.phrases.len())
        && phrases_in_range(signals, links, procedure.phrases.as_slice())
}

fn procedures_in_range(
    signals: &[CodeSignal],
    links: &[CodeLink],
    procedures: &[CodeProcedure],
) -> bool
    ensures { IsTrue result ↔ All (ProcedureInRange signals.now links.now) procedures.now }
{
    for at in 0..procedures.len() {
        if !procedure_in_range(signals, links, &procedures[at]) {
            return false;
        }
    }
    true
}

// Whether the first of the procedures takes and gives nothing.
fn has_body(procedures: &[CodeProcedure]) -> bool
    ensures { IsTrue result ↔ IsBody (slice_get procedures.now 0) }
{
    match procedures.get(0) {
        Some(body) => body.args == 0 && body.results == 0,
        None => false,
    }
}

fn keeps_ranges(
    global_words: u16,
    signals: &[CodeSignal],
    strings: &[Bytes],
    links: &[CodeLink],
    procedures: &[CodeProcedure],
) -> bool
    ensures { IsTrue result ↔ KeepsRanges global_words signals.now strings.now links.now procedures.now }
{
    if u32::from(global_words) > GLOBAL_WORDS || strings.len() > DISTINCT_STRINGS {
        return false;
    }
    if !strings_in_range(strings) || !signals_in_range(signals) || !links_in_range(links) {
        return false;
    }
    if !has_body(procedures) || !is_few(procedures.len()) || !is_few(signals.len()) {
        return false;
    }
    procedures_in_range(signals, links, procedures)
}

impl ModuleCode {
    /// The code of a module of these parts; None exactly where a count or a size is out of the range that the form of a
    /// file sets for it, and then the parts are let go.
    pub fn new(
        name: Name,
        global_words: u16,
        signals: CodeSignals,
        strings: Texts,
        links: CodeLinks,
        procedures: CodeProcedures,
    ) -> Option<ModuleCode>
        ensures { MatchOption result (KeepsRanges global_words signals strings links procedures → ⊥) (λ m. HasParts m name global_words signals strings links procedures) }
    {
        if !keeps_ranges(
            global_words,
            signals.as_slice(),
            strings.as_slice(),
            links.as_slice(),
            procedures.as_slice(),
        ) {
            return None;
        }
        Some(ModuleCode {
            name,
            global_words,
            signals,
            strings,
            links,
            procedures,
        })
    }
}
