//! The files of components.
ghost use Rattle.std.specs.Prelude.{◌≡◌, IfOk, map};
ghost use Rattle.std.specs.List.{list_all};
ghost use Rattle.check_scopes.specs.Shows.{listed};
ghost use Rattle.config_rules.specs.Components as spec;
ghost use Rattle.config_templates.specs.Mentioned.{component_of, now};
ghost use Rattle.config_templates.specs.Places.{place_in, names_of_files};

use check_scopes::Index;
use cmesa_grammar::ComponentFile;
use config_rules::{Component, Components};
use mesa_base::{
    Identifier, List, Name, OutOfMemory, Place, begins_with_letter, is_letter_or_digit,
};
use std::alloc::Global;

/// The most bytes of the base of a file's name.
const FILE_BASE_BYTES: usize = 64;

fn is_file_byte(byte: u8) -> bool
    ensures { result ≡ spec.is_file_byte byte }
{
    is_letter_or_digit(byte) || (byte == b'-' || byte == b'_')
}

fn all_file_bytes(bytes: &[u8]) -> bool
    ensures { result ≡ list_all spec.is_file_byte bytes.now }
{
    bytes.iter().all(|byte| is_file_byte(*byte))
}

fn is_file_base(bytes: &[u8]) -> bool
    ensures { result ≡ spec.is_file_base bytes.now }
{
    begins_with_letter(bytes) && (all_file_bytes(bytes) && bytes.len() <= FILE_BASE_BYTES)
}

/// Where the first file text stands that is no base of a file: a letter, then letters, digits, `-` and `_`, 64 bytes at most.
pub fn no_file_base(directory: &[ComponentFile]) -> Option<Place>
    ensures { result ≡ spec.no_file_base directory.now }
{
    for item in directory {
        if !is_file_base(item.file.as_slice()) {
            return Some(item.file_place);
        }
    }
    None
}

/// Which item names a component first.
fn file_places(alloc: Global, directory: &[ComponentFile]) -> Result<Index<usize>, OutOfMemory>
    ensures { IfOk result (λ places. listed places ≡ place_in (names_of_files directory.now)) }
{
    let mut places = Index::new(alloc);
    for (at, item) in directory.iter().enumerate() {
        places.declare_first(alloc, item.name.name.bytes(), at)?;
    }
    Ok(places)
}

/// The file that the first item says for the component, else the component's own name.
fn file_of<'a>(name: &'a Name, directory: &'a [ComponentFile], places: &Index<usize>) -> &'a [u8]
    requires { listed places.now ≡ place_in (names_of_files directory.now) }
    ensures { result.now ≡ spec.file_of directory.now name.now }
{
    let Some(place) = places.get(name.bytes()).copied() else {
        return name.bytes();
    };
    match directory.get(place) {
        None => name.bytes(),
        Some(item) => item.file.as_slice(),
    }
}

fn component(
    name: &Identifier,
    alloc: Global,
    directory: &[ComponentFile],
    places: &Index<usize>,
) -> Result<Component, OutOfMemory>
    requires { listed places.now ≡ place_in (names_of_files directory.now) }
    ensures { IfOk result (λ component. component ≡ component_of directory.now name.now) }
{
    let file = List::from_slice(alloc, file_of(&name.name, directory, places))?;
    Ok(Component {
        name: name.name.copy(alloc)?,
        file,
        place: name.place,
    })
}

/// The components of these names, each with its file.
pub fn with_files(
    names: &[&Identifier],
    alloc: Global,
    directory: &[ComponentFile],
) -> Result<Components, OutOfMemory>
    ensures { IfOk result (λ all. all ≡ map (component_of directory.now) (now names.now)) }
{
    let places = file_places(alloc, directory)?;
    let mut all = List::new(alloc);
    for name in names {
        all.push(component(name, alloc, directory, &places)?)?;
    }
    Ok(all)
}
