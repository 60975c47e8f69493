//! Modules: declaration by declaration, in the order of the text.
ghost use Rattle.std.specs.Prelude.{◌≡◌, [], ◌++◌, map, IfOk, OnOk};
ghost use Rattle.syntax_trees.specs.PlainSyntax as plain;
ghost use Rattle.check_rules.specs.Mentions as spec;
ghost use Rattle.check_mentions.specs.Gathering.{IsIndexed, Leaves};
ghost use Rattle.check_mentions.specs.Parts.{ahead};

use crate::gathered::Gathered;
use crate::parts::{Part, Parts};
use mesa_base::{Identifiers, Numbers, OutOfMemory, Texts};
use std::alloc::Global;
use syntax_trees::syntax::{
    Declaration, Declared, Defined, Exit, FieldList, Head, Inner, Labeled, ModuleKind, Statement,
};

/// What depends on the order of a module's text.
#[derive(Drop)]
pub struct Mentions {
    /// Its distinct string literals, each where it stands first.
    pub texts: Texts,
    /// The tokens at which its records and enumerations begin.
    pub origins: Numbers,
}

impl<'a> Parts<'a> {
    fn maybe_fields(&mut self, fields: &'a Option<FieldList>) -> Result<(), OutOfMemory>
        ensures { OnOk result (ahead self.new ≡ spec.of_maybe_fields (plain.maybe_fields fields.now) ++ ahead self.old) }
    {
        match fields {
            None => Ok(()),
            Some(fields) => self.fields(fields),
        }
    }

    #[tactic(auto, using(crate::proofs::ModuleForms::joins))]
    fn head(&mut self, head: &'a Head) -> Result<(), OutOfMemory>
        ensures { OnOk result (ahead self.new ≡ spec.of_head (plain.head head.now) ++ ahead self.old) }
    {
        self.maybe_fields(&head.gives)?;
        self.maybe_fields(&head.takes)
    }

    #[tactic(auto, using(crate::proofs::ModuleForms::joins))]
    fn declared(&mut self, declared: &'a Declared) -> Result<(), OutOfMemory>
        ensures { OnOk result (ahead self.new ≡ spec.of_declared (plain.declared declared.now) ++ ahead self.old) }
    {
        match declared {
            Declared::Procedure(head, block) => {
                self.block(block)?;
                self.head(head)
            }
            Declared::Signal(head) => self.head(head),
            Declared::Error(takes) => self.maybe_fields(takes),
            Declared::Data(item) => self.plain_item(item),
        }
    }

    #[tactic(auto, using(crate::proofs::ModuleForms::joins))]
    fn defined(&mut self, defined: &'a Defined) -> Result<(), OutOfMemory>
        ensures { OnOk result (ahead self.new ≡ spec.of_defined (plain.defined defined.now) ++ ahead self.old) }
    {
        match defined {
            Defined::ProcedureItem(head) | Defined::SignalItem(head) => self.head(head),
            Defined::ErrorItem(takes) => self.maybe_fields(takes),
            Defined::TypeItem(written) => self.put(Part::Written(written)),
            Defined::ConstantItem(written, value) => {
                self.put(Part::Expression(value))?;
                self.put(Part::Written(written))
            }
        }
    }

    /// What stands behind the declarations of a program.
    #[tactic(auto, using(crate::proofs::ModuleForms::joins))]
    fn body(&mut self, statements: &'a [Statement], exits: &'a [Exit]) -> Result<(), OutOfMemory>
        ensures { OnOk result (ahead self.new ≡ (spec.of_stmts (plain.statements statements.now) ++ spec.of_exits (plain.exits exits.now)) ++ ahead self.old) }
    {
        self.put(Part::Exits(exits))?;
        self.put(Part::Statements(statements))
    }
}

impl Gathered {
    fn declaration(&mut self, alloc: Global, declared: &Declared) -> Result<(), OutOfMemory>
        requires { IsIndexed self.old }
        ensures { OnOk result (Leaves self.old (spec.of_declared (plain.declared declared.now)) self.new []) }
    {
        let mut parts = Parts::new(alloc);
        parts.declared(declared)?;
        self.all(alloc, parts)
    }

    fn declarations(&mut self, alloc: Global, all: &[Declaration]) -> Result<(), OutOfMemory>
        requires { IsIndexed self.old }
        ensures { OnOk result (Leaves self.old (spec.of_declarations (map plain.declaration all.now)) self.new []) }
    {
        for one in all {
            self.declaration(alloc, &one.declared)?;
        }
        Ok(())
    }

    fn definition(&mut self, alloc: Global, defined: &Defined) -> Result<(), OutOfMemory>
        requires { IsIndexed self.old }
        ensures { OnOk result (Leaves self.old (spec.of_defined (plain.defined defined.now)) self.new []) }
    {
        let mut parts = Parts::new(alloc);
        parts.defined(defined)?;
        self.all(alloc, parts)
    }

    fn definitions(
        &mut self,
        alloc: Global,
        all: &[Labeled<Identifiers, Defined>],
    ) -> Result<(), OutOfMemory>
        requires { IsIndexed self.old }
        ensures { OnOk result (Leaves self.old (spec.of_definitions (map plain.definition all.now)) self.new []) }
    {
        for one in all {
            self.definition(alloc, &one.item)?;
        }
        Ok(())
    }

    fn enabled(&mut self, alloc: Global, inner: &Inner) -> Result<(), OutOfMemory>
        requires { IsIndexed self.old }
        ensures { OnOk result (Leaves self.old (spec.of_phrase (plain.phrase inner.now.enable)) self.new []) }
    {
        let mut parts = Parts::new(alloc);
        parts.phrase(&inner.enable)?;
        self.all(alloc, parts)
    }

    fn run(&mut self, alloc: Global, inner: &Inner) -> Result<(), OutOfMemory>
        requires { IsIndexed self.old }
        ensures { OnOk result (Leaves self.old (spec.of_stmts (plain.statements inner.now.statements) ++ spec.of_exits (plain.exits inner.now.exits)) self.new []) }
    {
        let mut parts = Parts::new(alloc);
        parts.body(inner.statements.as_slice(), inner.exits.as_slice())?;
        self.all(alloc, parts)
    }

    fn program(&mut self, alloc: Global, inner: &Inner) -> Result<(), OutOfMemory>
        requires { IsIndexed self.old }
        ensures { OnOk result (Leaves self.old (spec.of_phrase (plain.phrase inner.now.enable) ++ (spec.of_declarations (map plain.declaration inner.now.declarations) ++ (spec.of_stmts (plain.statements inner.now.statements) ++ spec.of_exits (plain.exits inner.now.exits)))) self.new []) }
    {
        self.enabled(alloc, inner)?;
        self.declarations(alloc, inner.declarations.as_slice())?;
        self.run(alloc, inner)
    }

    fn module(&mut self, alloc: Global, kind: &ModuleKind) -> Result<(), OutOfMemory>
        requires { IsIndexed self.old }
        ensures { OnOk result (Leaves self.old (spec.of_kind (plain.kind kind.now)) self.new []) }
    {
        match kind {
            ModuleKind::Program { inner, .. } => self.program(alloc, inner),
            ModuleKind::Interface { definitions, .. } => {
                self.definitions(alloc, definitions.as_slice())
            }
        }
    }
}

/// The string literals of a module, each where it stands first, and the tokens at which its records and enumerations begin. A text of
/// n mentions takes n log n steps.
pub fn mentions_of(alloc: Global, kind: &ModuleKind) -> Result<Mentions, OutOfMemory>
    ensures texts { IfOk result (λ found. found.texts ≡ spec.texts [] (spec.of_kind (plain.kind kind.now))) }
    ensures origins { IfOk result (λ found. found.origins ≡ spec.origins (spec.of_kind (plain.kind kind.now))) }
{
    let mut gathered = Gathered::new(alloc);
    gathered.module(alloc, kind)?;
    let Gathered { texts, origins, .. } = gathered;
    Ok(Mentions { texts, origins })
}
