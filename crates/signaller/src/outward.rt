//! The phrases outward of one: the first that has an arm that fits, and the search beyond.
ghost use Rattle.std.specs.Prelude.{◌≡◌, ℕ, ◌+◌, ◌<◌, ◌≤◌, ◌^◌, length, Option, IfSome, position, slice_get};
ghost use Rattle.std.specs.List.{list_any};
ghost use Rattle.signaller.specs.Search.{covers, has, same_signal, linked, meant, is_meant, is_any, is_unwind, label_fits, first_of, around, first_place, next_place, asked, beyond, search_from};
ghost use Rattle.signaller.specs.Sought.{fits, goes_outward, passed, answer, IsPlace};

use crate::place::Place;
use crate::search::{Links, Search};
use crate::signal_id::SignalId;
use code_forms::{Arm, CatchTable, Label, Phrase};

/// What an arm is sought for: a signal as an instance reads it, or the passing of a jump. A signal goes outward of
/// arms; a jump stays in a region.
#[derive(Clone, Copy)]
pub enum Sought<'a> {
    Signal(&'a Links, SignalId),
    Jump,
}

#[inline(always)]
fn same_signal(one: SignalId, other: SignalId) -> bool
    ensures { result ≡ same_signal one other }
{
    match one {
        SignalId::Own(instance, number) => match other {
            SignalId::Own(instance_2, number_2) => instance == instance_2 && number == number_2,
            _ => false,
        },
        SignalId::BoundsFault => matches!(other, SignalId::BoundsFault),
        SignalId::ZeroDivisor => matches!(other, SignalId::ZeroDivisor),
        SignalId::NoInput => matches!(other, SignalId::NoInput),
        SignalId::Unnamed => matches!(other, SignalId::Unnamed),
    }
}

// The signal to which a link is bound.
#[inline(always)]
fn linked(links: &Links, number: u32) -> Option<SignalId>
    ensures { result ≡ linked (slice_get links.now.signals number) }
{
    match links.signals.get(number as usize) {
        Some(signal) => *signal,
        None => None,
    }
}

// The signal that the label means.
#[inline(always)]
fn meant(links: &Links, label: Label) -> Option<SignalId>
    ensures { result ≡ meant links.now label }
{
    match label {
        Label::Any => None,
        Label::Unwind => None,
        Label::Own(number) => Some(SignalId::Own(links.instance, number)),
        Label::Link(number) => linked(links, number),
        Label::BoundsFault => Some(SignalId::BoundsFault),
        Label::ZeroDivisor => Some(SignalId::ZeroDivisor),
    }
}

#[inline(always)]
fn is_meant(one: Option<SignalId>, signal: SignalId) -> bool
    ensures { result ≡ is_meant one signal }
{
    match one {
        Some(one) => same_signal(one, signal),
        None => false,
    }
}

#[inline(always)]
fn is_unwind(label: Label) -> bool
    ensures { result ≡ is_unwind label }
{
    matches!(label, Label::Unwind)
}

#[inline(always)]
fn is_any(label: Label) -> bool
    ensures { result ≡ is_any label }
{
    matches!(label, Label::Any)
}

#[inline(always)]
fn label_fits(links: &Links, signal: SignalId, label: Label) -> bool
    ensures { result ≡ label_fits links.now signal label }
{
    is_any(label) || is_meant(meant(links, label), signal)
}

#[tactic(auto, using(crate::proofs::Asking::any_more, crate::proofs::Asking::any_here, crate::proofs::Asking::any_end))]
#[inline(always)]
fn any_for_signal(links: &Links, signal: SignalId, labels: &[Label]) -> bool
    ensures { result ≡ list_any (label_fits links.now signal) labels.now }
{
    for i in 0..labels.len() {
        if label_fits(links, signal, labels[i]) {
            return true;
        }
    }
    false
}

#[tactic(auto, using(crate::proofs::Asking::any_more, crate::proofs::Asking::any_here, crate::proofs::Asking::any_end))]
#[inline(always)]
fn any_unwind(labels: &[Label]) -> bool
    ensures { result ≡ list_any is_unwind labels.now }
{
    for i in 0..labels.len() {
        if is_unwind(labels[i]) {
            return true;
        }
    }
    false
}

#[inline(always)]
fn fits(sought: Sought, arm: &Arm) -> bool
    ensures { result ≡ fits sought.entry arm.now }
{
    match sought {
        Sought::Signal(links, signal) => any_for_signal(links, signal, arm.labels.as_slice()),
        Sought::Jump => any_unwind(arm.labels.as_slice()),
    }
}

#[inline(always)]
fn goes_outward(sought: Sought) -> bool
    ensures { result ≡ goes_outward sought.entry }
{
    match sought {
        Sought::Signal(_, _) => true,
        Sought::Jump => false,
    }
}

// The number of the first arm that fits.
#[tactic(auto, using(crate::proofs::Asking::first_more, crate::proofs::Asking::first_here, crate::proofs::Asking::first_end))]
#[inline(always)]
fn first_fitting(sought: Sought, arms: &[Arm]) -> Option<usize>
    ensures { result ≡ position (fits sought.entry) arms.now }
{
    for i in 0..arms.len() {
        if fits(sought, &arms[i]) {
            return Some(i);
        }
    }
    None
}

#[inline(always)]
fn covers(phrase: &Phrase, offset: u32) -> bool
    ensures { result ≡ covers phrase.now offset }
{
    phrase.from <= offset && offset < phrase.to
}

#[inline(always)]
fn has(arm: &Arm, offset: u32) -> bool
    ensures { result ≡ has arm.now offset }
{
    arm.start <= offset && offset < arm.end
}

// Whether the offset is in the region of one of the arms.
#[tactic(auto, using(crate::proofs::Asking::any_more, crate::proofs::Asking::any_here, crate::proofs::Asking::any_end))]
#[inline(always)]
fn one_has(arms: &[Arm], offset: u32) -> bool
    ensures { result ≡ list_any (λ a. has a offset) arms.now }
{
    for i in 0..arms.len() {
        if has(&arms[i], offset) {
            return true;
        }
    }
    false
}

// The offset about which the phrases before this one are asked, where it is not enabled.
#[inline(always)]
fn passed(outward: bool, phrase: &Phrase, offset: u32) -> u32
    ensures { result ≡ passed outward phrase.now offset }
{
    if outward && one_has(phrase.arms.as_slice(), offset) {
        return phrase.from;
    }
    offset
}

/// What one phrase says: an arm of it fits, or the phrases before it are asked about this offset.
#[derive(Clone, Copy)]
pub enum Asked {
    Fits(usize),
    Before(u32),
}

#[inline(always)]
fn answer(sought: Sought, phrase: &Phrase, offset: u32) -> Asked
    ensures { result ≡ answer (goes_outward sought.entry) (fits sought.entry) phrase.now offset }
{
    if !covers(phrase, offset) {
        return Asked::Before(passed(goes_outward(sought), phrase, offset));
    }
    match first_fitting(sought, phrase.arms.as_slice()) {
        Some(arm) => Asked::Fits(arm),
        None => Asked::Before(phrase.from),
    }
}

// The first place of an arm that fits in the phrases around the offset, innermost first, among so many.
#[inline(always)]
fn place_around(sought: Sought, table: &[Phrase], count: usize, offset: u32) -> Option<Place>
    requires { count ≤ length table.now }
    ensures { result ≡ first_place (fits sought.entry) table.now (around (goes_outward sought.entry) table.now count offset) }
{
    let mut about = offset;
    for back in 0..count {
        let number = count - 1 - back;
        match answer(sought, &table[number], about) {
            Asked::Fits(arm) => {
                return Some(Place {
                    phrase: number,
                    arm,
                });
            }
            Asked::Before(offset) => about = offset,
        }
    }
    None
}

// The first place of an arm that fits in the phrases from one on.
#[inline(always)]
fn place_from(sought: Sought, table: &[Phrase], number: usize) -> Option<Place>
    requires { number < length table.now }
    ensures { result ≡ first_place (fits sought.entry) table.now (asked (goes_outward sought.entry) table.now (Option.Some number)) }
{
    let phrase = &table[number];
    match first_fitting(sought, phrase.arms.as_slice()) {
        Some(arm) => Some(Place {
            phrase: number,
            arm,
        }),
        None => place_around(sought, table, number, phrase.from),
    }
}

/// The first phrase from the search on with an arm that fits, and its first such arm; None exactly where there is none.
/// It looks at each phrase of the table up to the search's once at most, and takes no memory.
#[inline(always)]
pub fn place_for(table: &CatchTable, search: Search, sought: Sought) -> Option<Place>
    requires there { IfSome search.phrase (λ n. n < length table.now) }
    ensures place { result ≡ next_place (goes_outward sought.entry) (fits sought.entry) table.now search }
    ensures there { IfSome result (IsPlace table.now) }
{
    match search.phrase {
        Some(number) => place_from(sought, table.as_slice(), number as usize),
        None => None,
    }
}

// The first of the phrases beyond one.
#[inline(always)]
fn outward_of(outward: bool, table: &[Phrase], phrase: usize) -> Option<u32>
    requires few { length table.now < 2 ^ 32 }
    requires there { phrase < length table.now }
    ensures { result ≡ first_of (beyond outward table.now phrase) }
{
    let mut about = table[phrase].from;
    for back in 0..phrase {
        let number = phrase - 1 - back;
        let earlier = &table[number];
        if covers(earlier, about) {
            return Some(number as u32);
        }
        about = passed(outward, earlier, about);
    }
    None
}

/// The search beyond a phrase, outward of arms or in its region. It looks at each phrase before it once at most, and
/// takes no memory.
#[inline(always)]
pub fn beyond(table: &CatchTable, outward: bool, phrase: usize) -> Search
    requires few { length table.now < 2 ^ 32 }
    requires there { phrase < length table.now }
    ensures { result ≡ search_from (beyond outward table.now phrase) }
{
    Search {
        phrase: outward_of(outward, table.as_slice(), phrase),
    }
}
