//! Values of expressions with their types, and what a value is for.
ghost use Rattle.std.specs.Prelude.{◌≡◌};
ghost use Rattle.mesa_types.specs.Plain.{expr};
ghost use Rattle.interface_records.specs.PlainTypes.{plain};
ghost use Rattle.check_rules.specs.Ranges as spec;
ghost use Rattle.check_state.specs.Views as view;

use mesa_types::held_trees::LetGo;
use mesa_types::mesa_base::{Place, Shared};
use mesa_types::{Item, TypeTree, TypedExpr};

/// What an expression gave where it is a call or raise: nothing, or the results of this head.
#[derive(Drop)]
pub enum Gave {
    NotCalled,
    NoResults,
    ResultsOf(Shared<Item>),
}

/// An expression's value and type, whether it is a number literal that takes the type of another operand, and what it gave where
/// it is a call or raise. It is not `Drop`: one that is lost is refused, and says `let_go` or `both` in its place.
pub struct Typed {
    pub value: TypedExpr,
    pub kind: TypeTree,
    pub literal: bool,
    pub gave: Gave,
}

impl LetGo for Typed {
    fn let_go(self) {
        let Typed {
            value,
            kind,
            literal: _,
            gave: _,
        } = self;
        value.let_go();
        kind.let_go();
    }
}

impl Typed {
    /// The value alone.
    pub fn into_value(self) -> TypedExpr
        ensures { result ≡ self.value }
    {
        let Typed {
            value,
            kind,
            literal: _,
            gave: _,
        } = self;
        kind.let_go();
        value
    }
}

/// What a value is for, and where it begins as it is written, its parentheses included: it stands free; or goes to a target of
/// this type; or to an extractor, which takes what a call gives, one result or more or none.
#[derive(Clone, Copy)]
pub enum Aim<'a> {
    Free(Place),
    Into(&'a TypeTree, Place),
    Several(Place),
}

pub fn of_kind(kind: TypeTree, value: TypedExpr) -> Typed
    ensures { view.typed result ≡ spec.typed (plain kind) (expr value) }
{
    Typed {
        value,
        kind,
        literal: false,
        gave: Gave::NotCalled,
    }
}
