//! The links of a module: one for each item of its imports that it uses.
ghost use Rattle.std.specs.Prelude.{◌≡◌, ◌++◌, ◌∷◌, [], map, All, IfOk, OnOk};
ghost use Rattle.mesa_types.specs.Links.{items_used, links_of};
ghost use Rattle.mesa_types.specs.Sound.{HeadIn, ImportIn};
ghost use Rattle.code_rules.specs.Modules.{link_code};

use crate::signals::kind_of;
use crate::words::all_words;
use code_forms::{CodeLink, CodeLinks};
use mesa_base::{List, OutOfMemory};
use mesa_types::{Import, Item};
use std::alloc::Global;

fn link_of(item: &Item) -> Result<CodeLink, OutOfMemory>
    requires { HeadIn item.now }
    ensures { IfOk result (λ made. made ≡ link_code item.now) }
{
    Ok(CodeLink {
        kind: kind_of(item.kind),
        args: all_words(item.takes.as_slice())?,
        results: all_words(item.gives.as_slice())?,
    })
}

fn put_link(item: &Item, links: &mut CodeLinks) -> Result<(), OutOfMemory>
    requires { HeadIn item.now }
    ensures { OnOk result (links.new ≡ links.old ++ link_code item.now ∷ []) }
{
    let link = link_of(item)?;
    links.push(link)?;
    Ok(())
}

/// Those of one import, behind the others.
fn put_used(import: &Import, links: &mut CodeLinks) -> Result<(), OutOfMemory>
    requires { ImportIn import.now }
    ensures { OnOk result (links.new ≡ links.old ++ map link_code (items_used import.now.face.items import.now.used)) }
{
    let items = import.face.items.as_slice();
    for number in import.used.as_slice() {
        put_link(&items[*number as usize], links)?;
    }
    Ok(())
}

/// The links of a module with these imports, in order.
pub fn links_of(alloc: Global, imports: &[Import]) -> Result<CodeLinks, OutOfMemory>
    requires { All ImportIn imports.now }
    ensures { IfOk result (λ made. made ≡ map link_code (links_of imports.now)) }
{
    let mut links = List::new(alloc);
    for import in imports {
        put_used(import, &mut links)?;
    }
    Ok(links)
}
