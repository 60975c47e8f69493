//! What an item stands for, by those who export it.

ghost use Rattle.std.specs.Prelude.{◌≡◌, ◌∷◌, [], List, ℕ, filter, Some, IfOk, MatchOption};
ghost use Rattle.std.specs.Option.{option_copied};
ghost use Rattle.mesa_types.specs.declared.faces.Export.{Export};
ghost use Rattle.config_rules.specs.Exporters.{Outlet};
ghost use Rattle.config_rules.specs.Outgoing.{export_of};
ghost use Rattle.config_rules.specs.Resolves.{Bound, among, chosen, given_for};
ghost use Rattle.import_binder.specs.Choosing.{AreOf, shown, under_by, unlike_by, is_under};
ghost use Rattle.import_binder.specs.InOrder.{IsInOrder};

use crate::numbers::given_for;
use config_rules::{Binding, Exporter, Tree};
use mesa_base::{Name, Stamp};
use mesa_types::{Export, Face};

/// What is wrong with an item that is used: with the first two exporters' instances, the first exporter's instance, or the stamp
/// that was found.
#[derive(Clone, Copy)]
pub enum Cause {
    NoExporter,
    Twice(u32, u32),
    OtherInterface(u32),
    OtherStamp(Stamp),
}

/// What an item that is used stands for, or what is wrong with it.
#[derive(Clone, Copy)]
pub enum Resolution {
    StandsFor(Binding),
    IsBad(Cause),
}

fn export_of<'a>(tree: &'a Tree, exporter: &Exporter) -> Option<&'a Export>
    ensures { option_copied result ≡ export_of tree.now exporter.now }
{
    match tree.instances.get(exporter.instance as usize) {
        Some(instance) => instance.shape.exports.get(exporter.export as usize),
        None => None,
    }
}

#[tactic(auto, unfolding(crate::specs::Choosing::under_by))]
fn is_like(face: &Face, export: &Export) -> bool
    ensures { result ≡ under_by face.now (Some export.now) }
{
    export.face.name.bytes() == face.name.bytes()
        && export.face.stamp.number() == face.stamp.number()
}

// Whether it exports under the interface's name and stamp.
#[tactic(auto, unfolding(crate::specs::Choosing::under_by))]
fn is_under(tree: &Tree, face: &Face, exporter: &Exporter) -> bool
    ensures { result ≡ is_under tree.now face.now exporter.now }
{
    match export_of(tree, exporter) {
        Some(export) => is_like(face, export),
        None => false,
    }
}

// The first who exports under the interface's name and stamp, and those after it.
fn next_under<'a>(
    tree: &Tree,
    face: &Face,
    exporters: &'a [Exporter],
) -> Option<(Exporter, &'a [Exporter])>
    ensures { MatchOption result (filter (is_under tree.now face.now) exporters.now ≡ [])
        (λ p. filter (is_under tree.now face.now) exporters.now ≡ p.0 ∷ filter (is_under tree.now face.now) p.1.now) }
{
    for (at, exporter) in exporters.iter().enumerate() {
        if is_under(tree, face, exporter) {
            return Some((*exporter, &exporters[at + 1..]));
        }
    }
    None
}

#[tactic(auto, unfolding(crate::specs::Choosing::unlike_by, crate::specs::Choosing::shown, crate::specs::Choosing::cause_shown))]
fn unlike_export(face: &Face, first: &Exporter, export: &Export) -> Resolution
    ensures { shown result ≡ unlike_by face.now first.now export.now }
{
    if export.face.name.bytes() == face.name.bytes() {
        return Resolution::IsBad(Cause::OtherStamp(export.face.stamp));
    }
    Resolution::IsBad(Cause::OtherInterface(first.instance))
}

fn unlike_first(tree: &Tree, face: &Face, first: &Exporter) -> Resolution
    ensures { (x : Export) → export_of tree.now first.now ≡ Some x → shown result ≡ unlike_by face.now first.now x }
{
    match export_of(tree, first) {
        Some(export) => unlike_export(face, first, export),
        None => Resolution::IsBad(Cause::NoExporter),
    }
}

// Where nobody exports under the interface's name and stamp.
fn unlike(tree: &Tree, face: &Face, exporters: &[Exporter]) -> Resolution
    ensures { (name : List ℕ) (all : List Outlet) → AreOf tree.now exporters.now all → shown result ≡ chosen face.now name [] all }
{
    match exporters {
        [] => Resolution::IsBad(Cause::NoExporter),
        [first, ..] => unlike_first(tree, face, first),
    }
}

fn bound_to(tree: &Tree, exporter: &Exporter, number: u32, name: &Name) -> Resolution
    requires { IsInOrder tree.now }
    ensures { (x : Export) → export_of tree.now exporter.now ≡ Some x
        → shown result ≡ Bound exporter.now.instance (given_for name.now x.face x.given) }
{
    match export_of(tree, exporter) {
        Some(export) => Resolution::StandsFor(Binding::To(
            exporter.instance,
            given_for(export, number, name),
        )),
        None => Resolution::IsBad(Cause::NoExporter),
    }
}

/// What the item of this number and name of an interface stands for, where these export an item of that name: exactly one of them under
/// the interface's name and stamp is the answer.
pub fn choose(
    tree: &Tree,
    face: &Face,
    number: u32,
    name: &Name,
    exporters: &[Exporter],
) -> Resolution
    requires { IsInOrder tree.now }
    ensures { (all : List Outlet) → AreOf tree.now exporters.now all → shown result ≡ among face.now name.now all }
{
    match next_under(tree, face, exporters) {
        None => unlike(tree, face, exporters),
        Some((first, rest)) => match next_under(tree, face, rest) {
            None => bound_to(tree, &first, number, name),
            Some((second, _)) => {
                Resolution::IsBad(Cause::Twice(first.instance, second.instance))
            }
        },
    }
}
