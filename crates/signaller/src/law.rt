//! The laws of searches for an arm, and of the innermost phrase at an offset.
ghost use Rattle.signaller.specs.Laws.{TablesOfValid, AsksEnabled, BeginsInnermost, FindsEnabled, GoesOutward, StaysInside, FindsInnermost, FindsNone, AsksAll, LeavesTheRest, FindsFirst, NumbersArms};

/// The phrases of each procedure of valid code are a table as the calls ask for it.
pub fn tables_of_valid()
    ensures { TablesOfValid }
{}

/// The phrases to ask about an offset of valid code are those that are enabled there, innermost first; then, for a
/// search that goes outward of arms, those beyond the phrase that holds the arm in whose region the offset is.
pub fn asks_enabled()
    ensures { AsksEnabled }
{}

/// A search that begins at an offset of valid code begins with the innermost phrase, or, where there is none, with the
/// phrases beyond the one that holds the arm in whose region the offset is, if it goes outward.
pub fn begins_innermost()
    ensures { BeginsInnermost }
{}

/// A search that begins at an offset of valid code finds the first fitting arm of the phrases that are enabled there,
/// innermost first, and then, if it goes outward, of those beyond the phrase that holds the arm.
pub fn finds_enabled()
    ensures { FindsEnabled }
{}

/// Beyond a phrase of valid code are those before it that are enabled where it begins, innermost first; then, for a
/// search that goes outward of arms, those beyond the phrase that holds the arm in whose region it is.
pub fn goes_outward()
    ensures { GoesOutward }
{}

/// A phrase of valid code is enabled in one region alone, so a search in a region never leaves it.
pub fn stays_inside()
    ensures { StaysInside }
{}

/// The innermost phrase at an offset of valid code is enabled there, and lies in each that is.
pub fn finds_innermost()
    ensures { FindsInnermost }
{}

/// There is no innermost phrase exactly where none is enabled.
pub fn finds_none()
    ensures { FindsNone }
{}

/// A search that begins with the first of the phrases around an offset asks all of them in their order.
pub fn asks_all()
    ensures { AsksAll }
{}

/// The number of an arm over a table is its place among all the arms of the table in order.
pub fn numbers_arms()
    ensures { NumbersArms }
{}

/// Beyond a phrase that is asked are exactly those that are asked after it.
pub fn leaves_the_rest()
    ensures { LeavesTheRest }
{}

/// What is found is the first fitting arm of the first of the phrases that has one; nothing exactly where none has.
pub fn finds_first()
    ensures { FindsFirst }
{}
