//! What stands around a place of a text. It is handed inward by reference, and each place makes its own of that around it.
ghost use Rattle.std.specs.Prelude.{◌≡◌, option_map, IfOk};
ghost use Rattle.check_rules.specs.Around as spec;
ghost use Rattle.check_state.specs.Views as view;

use crate::counts::next;
use crate::known::Known;
use crate::meaning::Meaning;
use interface_records::check_scopes::Names;
use mesa_types::mesa_base::{OutOfMemory, Place, Shared};
use mesa_types::{FieldType, Item, Raised};

/// A label, with the number of arms around it.
#[derive(Clone, Copy)]
pub struct Seen {
    pub number: u32,
    pub arms: u32,
}

/// What an arm is for.
#[derive(Drop)]
pub enum ArmLabel {
    ForAny,
    ForUnwind,
    ForSignal(Raised, Shared<Item>),
}

/// The innermost arm, with the statement of its phrase.
#[derive(Clone, Copy)]
pub enum ArmHere<'a> {
    NoArm,
    InArm(u32, &'a [ArmLabel]),
}

/// The labels of a block or loop, and those around it.
#[derive(Drop)]
pub struct Labels<'a> {
    pub names: Names<Seen>,
    pub around: Option<&'a Labels<'a>>,
}

impl<'a> Labels<'a> {
    /// The label of this name, innermost first.
    #[tactic(auto, unfolding(crate::specs::Views::labels_in))]
    pub fn find(&self, name: &[u8]) -> Option<Seen>
        ensures { option_map view.seen result ≡ view.labels_in self.now name.now }
    {
        match self.names.get(name) {
            Some(seen) => Some(*seen),
            None => match self.around {
                Some(around) => around.find(name),
                None => None,
            },
        }
    }
}

#[derive(Clone, Copy)]
pub struct Around<'a> {
    pub known: &'a Known,
    /// Whether this is a declaration of the module itself.
    pub is_outermost: bool,
    /// Where the constant or bound begins that this is a part of.
    pub constant: Option<Place>,
    /// The procedures, signals and errors of the module whose heads stand further on, each as if its head were checked.
    pub further: Option<&'a Names<Meaning>>,
    pub takes: &'a [FieldType],
    pub gives: &'a [FieldType],
    /// The statement to which a phrase belongs, and how many marked statements stand around.
    pub statement: u32,
    pub marked: u32,
    pub labels: Option<&'a Labels<'a>>,
    pub labelled: u32,
    pub repeated: Option<Seen>,
    /// The arms around, and how many they are up to the innermost UNWIND arm, that one included.
    pub arms: u32,
    pub unwinding: u32,
    pub arm: ArmHere<'a>,
}

impl<'a> Around<'a> {
    /// In a statement that has a number.
    #[tactic(auto, unfolding(crate::specs::Views::around))]
    pub fn in_statement(&self) -> Result<Around<'a>, OutOfMemory>
        ensures { IfOk result (λ inner. view.around inner ≡ spec.in_statement (view.around self.now)) }
    {
        let marked = next(self.marked)?;
        Ok(Around {
            statement: self.marked,
            marked,
            ..*self
        })
    }

    /// Not in a declaration of the module itself.
    #[tactic(auto, unfolding(crate::specs::Views::around))]
    pub fn inside(&self) -> Around<'a>
        ensures { view.around result ≡ spec.inside (view.around self.now) }
    {
        Around {
            is_outermost: false,
            ..*self
        }
    }

    #[tactic(auto, unfolding(crate::specs::Views::around))]
    pub fn in_constant(&self, start: Place) -> Around<'a>
        ensures { view.around result ≡ spec.in_constant start (view.around self.now) }
    {
        Around {
            constant: Some(start),
            ..*self
        }
    }
}
