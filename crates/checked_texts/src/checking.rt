//! From the tree of a text, with the interfaces that it asks for, to its module or its interface.
ghost use Rattle.std.specs.Prelude.{◌≡◌, ◌≢◌, ℕ, List as Items, IfErr, IfOk};
ghost use Rattle.check_rules.specs.CheckedModule as rule;
ghost use Rattle.module_checker.specs.check_state.specs.Gives.{GivesOnly};
ghost use Rattle.mesa_types.specs.Plain.{plain};
ghost use Rattle.syntax_trees.specs.PlainSyntax.{syntax};
ghost use Rattle.checked_texts.specs.Texts.{Begins, Defines, HasCheckFault, OneForEach, Reads};

use crate::purpose::Purpose;
use crate::text_fault::TextFault;
use check_rules::CheckFault;
use held_trees::boxed;
use interface_records::Interface;
use mesa_base::{Boxed, Stamp};
use mesa_types::TypedModule;
use module_checker::{check, check_definitions};
use std::alloc::Global;
use syntax_trees::Module;

fn checked(
    alloc: Global,
    tree: &Module,
    interfaces: &[Interface],
) -> Result<Boxed<TypedModule>, CheckFault>
    ensures { GivesOnly plain (rule.checked (syntax tree.now) interfaces.now) result }
{
    let typed = check(alloc, tree, interfaces)?;
    Ok(boxed(alloc, typed)?)
}

/// The module of a text that is begun as a program, with an interface for each item of its DIRECTORY in order, or the first fault of
/// checking.
pub fn checked_program(
    alloc: Global,
    tree: &Module,
    interfaces: &[Interface],
) -> Result<Boxed<TypedModule>, TextFault>
    requires { OneForEach interfaces.now tree.now }
    ensures reads { (text : Items ℕ) → Begins text Purpose.Program tree.now → IfOk result (λ m. Reads text interfaces.now (plain m)) }
    ensures fault { (text : Items ℕ) → Begins text Purpose.Program tree.now
        → IfErr result (λ why. why ≢ TextFault.Memory → HasCheckFault text Purpose.Program interfaces.now why) }
{
    Ok(checked(alloc, tree, interfaces)?)
}

/// The interface of a text that is begun as one under this stamp, with an interface for each item of its DIRECTORY in order, or the first
/// fault of checking.
pub fn checked_interface(
    alloc: Global,
    tree: &Module,
    stamp: Stamp,
    interfaces: &[Interface],
) -> Result<Interface, TextFault>
    requires { OneForEach interfaces.now tree.now }
    ensures defines { (text : Items ℕ) → Begins text (Purpose.Interface stamp) tree.now → IfOk result (λ made. Defines text stamp interfaces.now made) }
    ensures fault { (text : Items ℕ) → Begins text (Purpose.Interface stamp) tree.now
        → IfErr result (λ why. why ≢ TextFault.Memory → HasCheckFault text (Purpose.Interface stamp) interfaces.now why) }
{
    Ok(check_definitions(alloc, tree, stamp, interfaces)?)
}
