//! What an extractor takes its fields from.
ghost use Rattle.std.specs.Prelude.{◌≡◌, is_some};
ghost use Rattle.check_rules.specs.Statements as spec;
ghost use Rattle.check_state.specs.Gives.{GivesOnly};
ghost use Rattle.check_state.specs.Views as word;
ghost use Rattle.check_declared.specs.Views as view;

use check_rules::{Cause, CheckFault};
use check_state::{Gave, Typed, fields};
use held_trees::LetGo;
use mesa_base::Place;
use mesa_types::{FieldType, TypeTree, TypedExpr};

/// A record with its fields, or a call with its results.
pub struct Source {
    pub of_record: bool,
    pub value: TypedExpr,
    pub kind: TypeTree,
    pub gave: Gave,
}

impl LetGo for Source {
    fn let_go(self) {
        let Source {
            of_record: _,
            value,
            kind,
            gave: _,
        } = self;
        value.let_go();
        kind.let_go();
    }
}

fn results(gave: &Gave) -> &[FieldType]
    ensures { word.fields result.now ≡ view.or_none (word.gave gave.now) }
{
    match gave {
        Gave::NotCalled | Gave::NoResults => &[],
        Gave::ResultsOf(head) => head.get().gives.as_slice(),
    }
}

impl Source {
    /// The fields of the record, or the results.
    pub fn fields(&self) -> &[FieldType]
        ensures { word.fields result.now ≡ (view.source self.now).fields }
    {
        if self.of_record {
            match fields(&self.kind) {
                Some(fields) => fields,
                None => &[],
            }
        } else {
            results(&self.gave)
        }
    }
}

fn is_one(gave: &Gave) -> bool
    ensures { result ≡ spec.is_one (word.gave gave.now) }
{
    match gave {
        Gave::NotCalled => true,
        Gave::NoResults => false,
        Gave::ResultsOf(head) => match head.get().gives.as_slice() {
            [_] => true,
            _ => false,
        },
    }
}

fn is_called(gave: &Gave) -> bool
    ensures { result ≡ is_some (word.gave gave.now) }
{
    match gave {
        Gave::NotCalled => false,
        Gave::NoResults | Gave::ResultsOf(_) => true,
    }
}

/// What an extractor takes from: for one result that is a record its fields, else the results.
#[tactic(auto, unfolding(check_rules::specs::Statements::source))]
pub fn source_of(place: Place, from: Typed) -> Result<Source, CheckFault>
    ensures { GivesOnly view.source (spec.source place (word.typed from)) result }
{
    let of_record = is_one(&from.gave) && fields(&from.kind).is_some();
    if !of_record && !is_called(&from.gave) {
        from.let_go();
        return Err(CheckFault::At(Cause::TypeMismatch, place));
    }
    let Typed {
        value,
        kind,
        literal: _,
        gave,
    } = from;
    Ok(Source {
        of_record,
        value,
        kind,
        gave,
    })
}
