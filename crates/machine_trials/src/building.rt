//! Images, written short: jumps, ranges and arms name instructions by their numbers, of which offsets are made here.

use crate::ordering::is_in_order;
use code_forms::{
    Arm, Arms, CatchTable, CodeEntries, CodeEntry, CodeKind, CodeLink, CodeLinks, CodeProcedure,
    CodeProcedures, CodeSignal, CodeSignals, Instruction, Label, Labels, ModuleCode, Phrase,
    ValidCode, validate,
};
use held_trees::LetGo;
use interface_records::{Wanted, Wanteds, io_face};
use machine_ready::{Machine, ReadyFault, ready};
use mesa_base::{Bytes, List, Name, OutOfMemory, Path, Texts};
use mesa_types::{Face, Item, Shape};
use object_files::{Image, Instance, Link, LinkTable, Object, Objects};
use std::alloc::{AllocFailed, Global};
use std::mem::drop;
use std::test::Fail;

/// The links of the host's procedures, which each module has first.
pub const PUT: Instruction = Instruction::CallLink { link: 0 };

pub const PUT_TEXT: Instruction = Instruction::CallLink { link: 1 };

pub const PUT_NUMBER: Instruction = Instruction::CallLink { link: 2 };

pub const GET: Instruction = Instruction::CallLink { link: 3 };

pub const AT_END: Instruction = Instruction::CallLink { link: 4 };

/// The words of each frame, and of each operand stack.
const WORDS: u16 = 4;

/// An arm: its labels, the slot and the number of its words, and the numbers of its first instruction and of the one behind it.
#[derive(Clone, Copy)]
pub struct On<'a>(pub &'a [Label], pub u16, pub u16, pub u32, pub u32);

/// A phrase, enabled from one instruction up to another, with its arms.
#[derive(Clone, Copy)]
pub struct Catch<'a>(pub u32, pub u32, pub &'a [On<'a>]);

/// A procedure: the words of its arguments and results, its instructions and its phrases.
#[derive(Clone, Copy)]
pub struct Own<'a>(pub u16, pub u16, pub &'a [Instruction], pub &'a [Catch<'a>]);

/// A signal or error with the words of its arguments and results.
#[derive(Clone, Copy)]
pub struct Sign(pub CodeKind, pub u16, pub u16);

/// A module. Its links stand behind the host's six.
#[derive(Clone, Copy)]
pub struct Module<'a> {
    pub globals: u16,
    pub signals: &'a [Sign],
    pub strings: &'a [&'a str],
    pub links: &'a [CodeLink],
    pub procedures: &'a [Own<'a>],
}

/// Modules, instances by the numbers of their modules, the links of each behind the host's, and the instances to start.
#[derive(Clone, Copy)]
pub struct Program<'a> {
    pub modules: &'a [Module<'a>],
    pub instances: &'a [u32],
    pub links: &'a [&'a [Link]],
    pub control: &'a [u32],
}

// A literal takes references of one lifetime alone, so these are made by calls.

/// A procedure that takes and gives nothing.
pub fn doing<'a>(code: &'a [Instruction], catches: &'a [Catch<'a>]) -> Own<'a> {
    Own(0, 0, code, catches)
}

/// One without phrases.
pub fn working<'a>(code: &'a [Instruction]) -> Own<'a> {
    Own(0, 0, code, &[])
}

pub fn pair<'a>(first: Own<'a>, second: Own<'a>) -> [Own<'a>; 2] {
    [first, second]
}

/// One instance of one module, which is started.
pub fn alone<'a>(modules: &'a [Module<'a>; 1]) -> Program<'a> {
    Program {
        modules,
        instances: &[0],
        links: &[&[]],
        control: &[0],
    }
}

/// Two errors; a signal without words, one that gives a word, and one that takes and gives a word.
const SIGNS: [Sign; 5] = [
    Sign(CodeKind::Error, 0, 0),
    Sign(CodeKind::Error, 0, 0),
    Sign(CodeKind::Signal, 0, 0),
    Sign(CodeKind::Signal, 0, 1),
    Sign(CodeKind::Signal, 1, 1),
];

pub const E: u32 = 0;

pub const T: u32 = 1;

pub const S: u32 = 2;

pub const GIVES: u32 = 3;

pub const ASKS: u32 = 4;

/// A module of one global with these signals.
pub fn signalling<'a>(procedures: &'a [Own<'a>]) -> Module<'a> {
    Module {
        globals: 1,
        signals: &SIGNS,
        strings: &[],
        links: &[],
        procedures,
    }
}

fn named(alloc: Global, text: &[u8]) -> Result<Name, Fail> {
    match Name::new(alloc, text)? {
        Some(name) => Ok(name),
        None => Err(Fail::new("no name")),
    }
}

// Where the instruction of this number begins.
fn offset_of(code: &[Instruction], number: u32) -> u32 {
    let mut at: u32 = 0;
    for place in 0..code.len() {
        if place < number as usize {
            at = at.saturating_add(code[place].bytes());
        }
    }
    at
}

// The instruction with the offset of its target.
fn aimed(code: &[Instruction], instruction: Instruction) -> Instruction {
    match instruction {
        Instruction::Jump { target } => Instruction::Jump {
            target: offset_of(code, target),
        },
        Instruction::JumpIf { target } => Instruction::JumpIf {
            target: offset_of(code, target),
        },
        Instruction::JumpIfNot { target } => Instruction::JumpIfNot {
            target: offset_of(code, target),
        },
        Instruction::JumpBack { target } => Instruction::JumpBack {
            target: offset_of(code, target),
        },
        Instruction::Leave { arms, target } => Instruction::Leave {
            arms,
            target: offset_of(code, target),
        },
        other => other,
    }
}

fn entries_of(alloc: Global, code: &[Instruction]) -> Result<CodeEntries, OutOfMemory> {
    let mut entries = List::new(alloc);
    let mut at: u32 = 0;
    for instruction in code {
        entries.push(CodeEntry {
            at,
            depth: 0,
            instruction: aimed(code, *instruction),
        })?;
        at = at.saturating_add(instruction.bytes());
    }
    Ok(entries)
}

fn arms_of(alloc: Global, code: &[Instruction], handlers: &[On<'_>]) -> Result<Arms, OutOfMemory> {
    let mut arms = List::new(alloc);
    for On(labels, slot, words, start, end) in handlers {
        let labels: Labels = List::from_slice(alloc, labels)?;
        arms.push(Arm {
            labels,
            slot: *slot,
            words: *words,
            start: offset_of(code, *start),
            end: offset_of(code, *end),
        })?;
    }
    Ok(arms)
}

fn phrases_of(
    alloc: Global,
    code: &[Instruction],
    catches: &[Catch<'_>],
) -> Result<CatchTable, OutOfMemory> {
    let mut phrases = List::new(alloc);
    for Catch(from, to, arms) in catches {
        phrases.push(Phrase {
            from: offset_of(code, *from),
            to: offset_of(code, *to),
            arms: arms_of(alloc, code, arms)?,
        })?;
    }
    Ok(phrases)
}

fn procedure_of(alloc: Global, own: &Own<'_>) -> Result<CodeProcedure, Fail> {
    let Own(args, results, code, catches) = *own;
    Ok(CodeProcedure {
        name: named(alloc, b"P")?,
        args,
        results,
        frame: WORDS,
        depth: u32::from(WORDS),
        code: entries_of(alloc, code)?,
        phrases: phrases_of(alloc, code, catches)?,
    })
}

fn procedures_of(alloc: Global, all: &[Own<'_>]) -> Result<CodeProcedures, Fail> {
    let mut procedures = CodeProcedures::new(alloc);
    for own in all {
        procedures.push(procedure_of(alloc, own)?)?;
    }
    Ok(procedures)
}

fn signals_of(alloc: Global, signs: &[Sign]) -> Result<CodeSignals, Fail> {
    let mut signals = List::new(alloc);
    for Sign(kind, args, results) in signs {
        signals.push(CodeSignal {
            kind: *kind,
            name: named(alloc, b"E")?,
            args: *args,
            results: *results,
        })?;
    }
    Ok(signals)
}

fn strings_of(alloc: Global, texts: &[&str]) -> Result<Texts, OutOfMemory> {
    let mut strings: Texts = List::new(alloc);
    for text in texts {
        let bytes: Bytes = List::from_slice(alloc, text.as_bytes())?;
        strings.push(bytes)?;
    }
    Ok(strings)
}

fn link(kind: CodeKind, args: u64, results: u64) -> CodeLink {
    CodeLink {
        kind,
        args,
        results,
    }
}

fn links_of(alloc: Global, own: &[CodeLink]) -> Result<CodeLinks, OutOfMemory> {
    let mut links = List::from_slice(
        alloc,
        &[
            link(CodeKind::Procedure, 1, 0),
            link(CodeKind::Procedure, 2, 0),
            link(CodeKind::Procedure, 1, 0),
            link(CodeKind::Procedure, 0, 1),
            link(CodeKind::Procedure, 0, 1),
            link(CodeKind::Error, 0, 0),
        ],
    )?;
    links.extend_from_slice(own)?;
    Ok(links)
}

fn code_of(alloc: Global, module: &Module<'_>) -> Result<ModuleCode, Fail> {
    let code = ModuleCode::new(
        named(alloc, b"M")?,
        module.globals,
        signals_of(alloc, module.signals)?,
        strings_of(alloc, module.strings)?,
        links_of(alloc, module.links)?,
        procedures_of(alloc, module.procedures)?,
    );
    match code {
        Some(code) => Ok(code),
        None => Err(Fail::new("the code is out of range")),
    }
}

fn valid_code_of(alloc: Global, module: &Module<'_>) -> Result<ValidCode, Fail> {
    match validate(code_of(alloc, module)?) {
        Ok(code) => Ok(code),
        Err(_) => Err(Fail::new("the code is not valid")),
    }
}

fn let_object_go(object: Object) {
    drop(object);
}

fn put_object(objects: &mut Objects, object: Object) -> Result<(), Fail> {
    match objects.push(object) {
        Ok(()) => Ok(()),
        Err(failed) => {
            let AllocFailed { value } = failed;
            let_object_go(value);
            Err(Fail::new("no memory"))
        }
    }
}

fn put_module(alloc: Global, module: &Module<'_>, objects: &mut Objects) -> Result<(), Fail> {
    let name = named(alloc, b"M")?;
    let code = valid_code_of(alloc, module)?;
    let shape = Shape {
        name,
        imports: List::new(alloc),
        exports: List::new(alloc),
    };
    put_object(objects, Object { shape, code })
}

fn put_modules(alloc: Global, modules: &[Module<'_>], objects: &mut Objects) -> Result<(), Fail> {
    for module in modules {
        put_module(alloc, module, objects)?;
    }
    Ok(())
}

fn put_item(alloc: Global, face: &Face, item: &Item, wanted: &mut Wanteds) -> Result<(), Fail> {
    let name = face.name.copy(alloc)?;
    let entry = Wanted {
        face: name,
        stamp: face.stamp,
        item: item.copy(alloc)?,
    };
    match wanted.push(entry) {
        Ok(()) => Ok(()),
        Err(failed) => {
            let AllocFailed { value } = failed;
            let Wanted {
                face: _,
                stamp: _,
                item,
            } = value;
            item.let_go();
            Err(Fail::new("no memory"))
        }
    }
}

fn put_items(alloc: Global, face: &Face, wanted: &mut Wanteds) -> Result<(), Fail> {
    for item in face.items.as_slice() {
        put_item(alloc, face, item, wanted)?;
    }
    Ok(())
}

// All the items of the host.
fn put_host(alloc: Global, wanted: &mut Wanteds) -> Result<(), Fail> {
    let face = io_face(alloc)?;
    let answer = put_items(alloc, &face, wanted);
    face.let_go();
    answer
}

fn put_instances(alloc: Global, program: &Program<'_>, image: &mut Image) -> Result<(), Fail> {
    for module in program.instances {
        let path: Path = List::of(alloc, named(alloc, b"I")?)?;
        image.instances.push(Instance {
            path,
            module: *module,
        })?;
    }
    Ok(())
}

fn table_of(alloc: Global, own: &[Link]) -> Result<LinkTable, OutOfMemory> {
    let mut table = List::new(alloc);
    for number in 0..6u32 {
        table.push(Link::Wanted(number))?;
    }
    table.extend_from_slice(own)?;
    Ok(table)
}

fn put_tables(alloc: Global, program: &Program<'_>, image: &mut Image) -> Result<(), Fail> {
    for own in program.links {
        image.links.push(table_of(alloc, own)?)?;
    }
    Ok(())
}

fn put_program(alloc: Global, program: &Program<'_>, image: &mut Image) -> Result<(), Fail> {
    put_modules(alloc, program.modules, &mut image.modules)?;
    put_host(alloc, &mut image.wanted)?;
    put_instances(alloc, program, image)?;
    put_tables(alloc, program, image)?;
    image.control.extend_from_slice(program.control)?;
    Ok(())
}

fn let_image_go(image: Image) {
    drop(image);
}

fn image_of(alloc: Global, program: &Program<'_>) -> Result<Image, Fail> {
    let mut image = Image {
        modules: List::new(alloc),
        wanted: List::new(alloc),
        instances: List::new(alloc),
        links: List::new(alloc),
        offered: List::new(alloc),
        control: List::new(alloc),
    };
    match put_program(alloc, program, &mut image) {
        Ok(()) => Ok(image),
        Err(fail) => {
            let_image_go(image);
            Err(fail)
        }
    }
}

/// The program's image, ready to run. It fails where the code isn't valid or the image is out of order.
pub fn machine_of(alloc: Global, program: &Program<'_>) -> Result<Machine, Fail> {
    let image = image_of(alloc, program)?;
    if !is_in_order(&image) {
        let_image_go(image);
        return Err(Fail::new("the image is out of order"));
    }
    match ready(alloc, image) {
        Ok(machine) => Ok(machine),
        Err(ReadyFault::Unresolved(_)) => Err(Fail::new("an item is unresolved")),
        Err(ReadyFault::Memory) => Err(Fail::new("no memory")),
    }
}
