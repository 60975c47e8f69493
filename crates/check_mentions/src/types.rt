//! Types as they are written: what each is made of, put before what stands behind it.
ghost use Rattle.std.specs.Prelude.{◌≡◌, ◌++◌, OnOk};
ghost use Rattle.syntax_trees.specs.PlainSyntax as plain;
ghost use Rattle.check_rules.specs.Mentions as spec;
ghost use Rattle.check_mentions.specs.Parts.{ahead};

use crate::parts::{Part, Parts};
use mesa_base::{Identifiers, OutOfMemory};
use syntax_trees::syntax::{FieldList, Labeled, PlainItem, TypeExp};

impl<'a> Parts<'a> {
    #[tactic(auto, using(syntax_trees::proofs::PlainForms::type_exp_forms, crate::proofs::Clauses::written_types))]
    pub fn written(&mut self, written: &'a TypeExp) -> Result<(), OutOfMemory>
        ensures { OnOk result (ahead self.new ≡ spec.of_type (plain.type_exp written.now) ++ ahead self.old) }
    {
        match written {
            TypeExp::Enumeration(place, _) => self.put(Part::Made(place.token)),
            TypeExp::Subrange(_, interval) => self.interval(interval),
            TypeExp::Array(_, index, element) => {
                self.put(Part::Written(element.get()))?;
                self.put(Part::Written(index.get()))
            }
            TypeExp::Record(place, fields) => {
                self.fields(fields)?;
                self.put(Part::Made(place.token))
            }
            TypeExp::Integer(_)
            | TypeExp::Cardinal(_)
            | TypeExp::LongInteger(_)
            | TypeExp::LongCardinal(_)
            | TypeExp::Boolean(_)
            | TypeExp::Character(_)
            | TypeExp::String(_)
            | TypeExp::Called(_) => Ok(()),
        }
    }

    #[tactic(auto, using(syntax_trees::proofs::PlainForms::field_list_forms, crate::proofs::Clauses::field_lists))]
    pub fn fields(&mut self, fields: &'a FieldList) -> Result<(), OutOfMemory>
        ensures { OnOk result (ahead self.new ≡ spec.of_fields (plain.field_list fields.now) ++ ahead self.old) }
    {
        match fields {
            FieldList::WithNames(all) => self.put(Part::Fields(all.as_slice())),
            FieldList::Unnamed(all) => self.put(Part::Types(all.as_slice())),
        }
    }

    #[tactic(auto, using(crate::proofs::Clauses::named_fields))]
    pub fn named_fields(
        &mut self,
        all: &'a [Labeled<Identifiers, TypeExp>],
    ) -> Result<(), OutOfMemory>
        ensures { OnOk result (ahead self.new ≡ spec.of_named (plain.named_fields all.now) ++ ahead self.old) }
    {
        match all.split_first() {
            None => Ok(()),
            Some((first, rest)) => {
                self.put(Part::Fields(rest))?;
                self.put(Part::Written(&first.item))
            }
        }
    }

    #[tactic(auto, using(crate::proofs::Clauses::types))]
    pub fn types(&mut self, all: &'a [TypeExp]) -> Result<(), OutOfMemory>
        ensures { OnOk result (ahead self.new ≡ spec.of_types (plain.types all.now) ++ ahead self.old) }
    {
        match all.split_first() {
            None => Ok(()),
            Some((first, rest)) => {
                self.put(Part::Types(rest))?;
                self.put(Part::Written(first))
            }
        }
    }

    #[tactic(auto, using(syntax_trees::proofs::PlainForms::plain_item_forms, crate::proofs::Clauses::plain_items))]
    pub fn plain_item(&mut self, item: &'a PlainItem) -> Result<(), OutOfMemory>
        ensures { OnOk result (ahead self.new ≡ spec.of_plain (plain.plain_item item.now) ++ ahead self.old) }
    {
        match item {
            PlainItem::TypeIs(written) | PlainItem::Variable(written) => {
                self.put(Part::Written(written))
            }
            PlainItem::Initial(written, value) | PlainItem::Constant(written, value) => {
                self.put(Part::Expression(value))?;
                self.put(Part::Written(written))
            }
        }
    }
}
