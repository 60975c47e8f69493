//! Codes that are valid, with the depths of their instructions, and codes with a first fault.

use crate::building::{Catch, Handler, Own, any, judged};
use code_forms::Instruction::{
    Add, AddD, ArmEnd, Call, CallLink, CheckD, Jump, JumpBack, JumpIf, Leave, LeaveReturn, LessDI,
    Lit, LoadG, NarrowC, NarrowI, NegD, Pop, Raise, RaiseHost, Return, StoreG, Str, WidenC, WidenI,
    ZeroL,
};
use code_forms::{CodeEntry, CodeFault, Instruction, Label, ValidCode};
use std::alloc::Global;
use std::test::Fail;

const LIT: Instruction = Lit { word: 1 };

const ZERO: Instruction = ZeroL { slot: 0, words: 0 };

/// A procedure that takes two words and gives one.
const OTHER: Own<'static> = Own {
    args: 2,
    results: 1,
    frame: 3,
    depth: 0,
    code: &[Return],
    catches: &[],
};

/// Valid code without phrases, with the depths of its instructions.
const VALID: [(&[Instruction], &[u32]); 14] = [
    (&[Return], &[0]),
    (&[LIT, LIT, Add, Pop { words: 1 }, Return], &[0, 1, 2, 1, 0]),
    (
        &[LIT, WidenC, NegD, CheckD, NarrowC, Pop { words: 1 }, Return],
        &[0, 1, 2, 2, 2, 1, 0],
    ),
    (
        &[LIT, LIT, WidenI, NarrowI, Pop { words: 2 }, Return],
        &[0, 1, 2, 3, 2, 0],
    ),
    (
        &[
            LIT,
            JumpIf { target: 16 },
            LIT,
            Jump { target: 19 },
            LIT,
            Pop { words: 1 },
            Return,
        ],
        &[0, 1, 0, 1, 0, 1, 0],
    ),
    (
        &[Return, LIT, Pop { words: 1 }, JumpBack { target: 1 }],
        &[0, 0, 1, 0],
    ),
    (&[LIT, JumpBack { target: 3 }], &[0, 1]),
    (
        &[LIT, LIT, Call { procedure: 1 }, Pop { words: 1 }, Return],
        &[0, 1, 2, 1, 0],
    ),
    (
        &[LIT, Raise { signal: 0 }, Pop { words: 2 }, Return],
        &[0, 1, 2, 0],
    ),
    (&[LIT, LIT, Raise { signal: 1 }], &[0, 1, 2]),
    (&[Jump { target: 5 }, Return], &[0, 0]),
    (&[ZERO, JumpBack { target: 0 }], &[0, 0]),
    (&[Str { literal: 2 }, Pop { words: 2 }, Return], &[0, 2, 0]),
    (
        &[LoadG { slot: 3, words: 1 }, Pop { words: 1 }, Return],
        &[0, 1, 0],
    ),
];

/// Code without phrases, with its first fault.
const FAULTY: [(&[Instruction], CodeFault); 28] = [
    (
        &[LIT, JumpIf { target: 11 }, LIT, Return],
        CodeFault::StackDiffers(8),
    ),
    (&[LIT, JumpBack { target: 0 }], CodeFault::StackDiffers(3)),
    (
        &[Return, LIT, JumpBack { target: 1 }],
        CodeFault::StackDiffers(4),
    ),
    (&[LIT, LIT, LIT, LIT], CodeFault::StackDiffers(9)),
    (
        &[LIT, LIT, LIT, WidenI, Pop { words: 4 }, Return],
        CodeFault::StackDiffers(9),
    ),
    (
        &[LIT, LIT, LIT, AddD, Pop { words: 2 }, Return],
        CodeFault::StackDiffers(9),
    ),
    (
        &[LIT, LIT, LIT, LessDI, Pop { words: 1 }, Return],
        CodeFault::StackDiffers(9),
    ),
    (
        &[LIT, NarrowI, Pop { words: 1 }, Return],
        CodeFault::StackDiffers(3),
    ),
    (&[Pop { words: 1 }, Return], CodeFault::StackDiffers(0)),
    (&[LIT, Return], CodeFault::StackDiffers(3)),
    (&[ZERO], CodeFault::StackDiffers(0)),
    (&[Jump { target: 0 }, Return], CodeFault::BadJump(0)),
    (&[Jump { target: 1 }, Return], CodeFault::BadJump(0)),
    (&[Jump { target: 6 }, Return], CodeFault::BadJump(0)),
    (&[Jump { target: u32::MAX }, Return], CodeFault::BadJump(0)),
    (&[Jump { target: 6 }, ZERO, Return], CodeFault::BadJump(0)),
    (&[ZERO, JumpBack { target: 4 }], CodeFault::BadJump(5)),
    (&[ZERO, JumpBack { target: 10 }], CodeFault::BadJump(5)),
    (&[JumpIf { target: 0 }, Return], CodeFault::BadJump(0)),
    (&[Leave { arms: 0, target: 0 }], CodeFault::BadJump(0)),
    (&[Leave { arms: 1, target: 0 }], CodeFault::BadJump(0)),
    (
        &[Str { literal: 0 }, Pop { words: 2 }, Return],
        CodeFault::BadOperand(0),
    ),
    (
        &[Str { literal: 3 }, Pop { words: 2 }, Return],
        CodeFault::BadOperand(0),
    ),
    (
        &[
            LoadG { slot: 3, words: 1 },
            StoreG { slot: 4, words: 1 },
            Return,
        ],
        CodeFault::BadOperand(5),
    ),
    (
        &[LIT, CallLink { link: 2 }, Return],
        CodeFault::BadOperand(3),
    ),
    (&[CallLink { link: 2 }, Return], CodeFault::StackDiffers(0)),
    (&[ArmEnd], CodeFault::BadOperand(0)),
    (&[RaiseHost { fault: 3 }], CodeFault::BadOperand(0)),
];

/// The last instruction of three arms in one another, and whether it may stand there.
const NESTED: [(Instruction, bool); 19] = [
    (ArmEnd, true),
    (
        Leave {
            arms: 1,
            target: 12,
        },
        true,
    ),
    (Leave { arms: 2, target: 6 }, true),
    (
        Leave {
            arms: 2,
            target: 11,
        },
        true,
    ),
    (Leave { arms: 3, target: 0 }, true),
    (Leave { arms: 3, target: 5 }, true),
    (
        Leave {
            arms: 0,
            target: 18,
        },
        false,
    ),
    (
        Leave {
            arms: 1,
            target: 18,
        },
        false,
    ),
    (Leave { arms: 1, target: 6 }, false),
    (Leave { arms: 2, target: 0 }, false),
    (
        Leave {
            arms: 2,
            target: 12,
        },
        false,
    ),
    (Leave { arms: 3, target: 1 }, false),
    (Leave { arms: 4, target: 0 }, false),
    (LeaveReturn { arms: 3 }, true),
    (LeaveReturn { arms: 0 }, false),
    (LeaveReturn { arms: 1 }, false),
    (LeaveReturn { arms: 2 }, false),
    (LeaveReturn { arms: 4 }, false),
    (LeaveReturn { arms: u16::MAX }, false),
];

/// The ranges of three phrases of one arm each, over code of instructions at 0, 5, 10, 11, 12 and 13, and where the range
/// of the first begins that is wrong.
const RANGES: [([(u32, u32); 3], Option<u32>); 15] = [
    ([(0, 5), (5, 10), (10, 11)], None),
    ([(0, 11), (0, 10), (5, 10)], None),
    ([(0, 5), (5, 11), (11, 12)], None),
    ([(0, 5), (11, 12), (12, 13)], None),
    ([(0, 5), (0, 10), (5, 11)], Some(0)),
    ([(0, 10), (5, 11), (10, 11)], Some(5)),
    ([(0, 10), (0, 5), (5, 11)], Some(5)),
    ([(0, 10), (5, 11), (1, 5)], Some(5)),
    ([(0, 10), (1, 5), (5, 11)], Some(1)),
    ([(5, 10), (0, 5), (5, 10)], Some(0)),
    ([(0, 5), (5, 5), (10, 11)], Some(5)),
    ([(0, 5), (5, 10), (10, 12)], Some(10)),
    ([(0, 5), (5, 10), (13, 14)], Some(13)),
    ([(0, 5), (5, 10), (11, 13)], Some(11)),
    ([(0, 5), (5, 10), (10, 15)], Some(10)),
];

/// The labels, the slot and the words of an arm, and whether they fit.
const ARMS: [(&[Label], u16, u16, bool); 13] = [
    (&[Label::Own(0)], 4, 1, true),
    (&[Label::Own(0)], 5, 1, false),
    (&[Label::Own(0)], 5, 0, true),
    (&[Label::Own(0)], 6, 0, false),
    (&[Label::Own(1), Label::Link(1)], 3, 2, true),
    (&[Label::Own(1), Label::Link(2)], 0, 2, false),
    (&[Label::Unwind, Label::Own(0), Label::Any], 0, 0, true),
    (&[Label::Unwind, Label::Own(0)], 0, 1, false),
    (&[Label::Any], 0, 0, true),
    (&[Label::Any], 0, 1, false),
    (&[Label::Unwind], 0, 1, false),
    (&[Label::BoundsFault], 0, 1, false),
    (&[Label::ZeroDivisor], 0, 1, false),
];

/// A body with a frame of 5 words and room for 3 on the operand stack.
fn body<'a>(code: &'a [Instruction], catches: &'a [Catch<'a>]) -> Own<'a> {
    Own {
        args: 0,
        results: 0,
        frame: 5,
        depth: 3,
        code,
        catches,
    }
}

/// Whether the code holds the instructions, each beginning where the one before it ends, with these depths.
fn holds(entries: &[CodeEntry], code: &[Instruction], depths: &[u32]) -> bool {
    let mut at: u32 = 0;
    for (entry, (instruction, depth)) in entries.iter().zip(code.iter().zip(depths.iter())) {
        if entry.at != at
            || entry.depth != *depth
            || entry.instruction.name() != instruction.name()
        {
            return false;
        }
        at = at.saturating_add(instruction.bytes());
    }
    entries.len() == code.len() && entries.len() == depths.len()
}

fn body_holds(valid: &ValidCode, code: &[Instruction], depths: &[u32]) -> bool {
    match valid.code().procedures.get(0) {
        Some(body) => holds(body.code.as_slice(), code, depths),
        None => false,
    }
}

/// What came of the code where it is to be valid with these depths: nothing where it is.
fn check_valid<'a>(
    alloc: Global,
    code: &'a [Instruction],
    catches: &'a [Catch<'a>],
    depths: &[u32],
) -> Result<(), Fail> {
    match judged(alloc, &[body(code, catches), OTHER])? {
        Ok(valid) => {
            if body_holds(&valid, code, depths) {
                return Ok(());
            }
            Err(Fail::new("other depths"))
        }
        Err(_) => Err(Fail::new("not valid")),
    }
}

/// The same where it is to have this fault.
fn check_fault<'a>(
    alloc: Global,
    code: &'a [Instruction],
    catches: &'a [Catch<'a>],
    fault: CodeFault,
) -> Result<(), Fail> {
    match judged(alloc, &[body(code, catches), OTHER])? {
        Ok(_) => Err(Fail::new("valid")),
        Err(bad) => {
            if bad.procedure == 0 && bad.fault == fault {
                return Ok(());
            }
            Err(Fail::new("another fault"))
        }
    }
}

#[test]
fn depths(rt: HostRuntime) -> Result<(), Fail> {
    for (code, depths) in VALID {
        check_valid(rt.alloc(), code, &[], depths)?;
    }
    Ok(())
}

#[test]
fn faults(rt: HostRuntime) -> Result<(), Fail> {
    for (code, fault) in FAULTY {
        check_fault(rt.alloc(), code, &[], fault)?;
    }
    Ok(())
}

/// A phrase of one arm for any signal.
fn catch<'a>(range: (u32, u32), arms: &'a [Handler<'a>]) -> Catch<'a> {
    let (from, to) = range;
    Catch { from, to, arms }
}

/// Three arms in one another: from 6 to 12, from 12 to 18, and from 18 to the end.
fn check_nested(alloc: Global, last: Instruction, fits: bool) -> Result<(), Fail> {
    let code = [ZERO, Return, ZERO, ArmEnd, ZERO, ArmEnd, last];
    let end = last.bytes().saturating_add(18);
    let arms = [any(6, 12), any(12, 18), any(18, end)];
    let catches = [
        catch((0, 5), &arms[..1]),
        catch((6, 11), &arms[1..2]),
        catch((12, 17), &arms[2..]),
    ];
    if fits {
        return check_valid(alloc, &code, &catches, &[0, 0, 0, 0, 0, 0, 0]);
    }
    check_fault(alloc, &code, &catches, CodeFault::BadJump(18))
}

#[test]
fn arms_in_one_another(rt: HostRuntime) -> Result<(), Fail> {
    for (last, fits) in NESTED {
        check_nested(rt.alloc(), last, fits)?;
    }
    Ok(())
}

fn check_ranges(alloc: Global, ranges: [(u32, u32); 3], fault: Option<u32>) -> Result<(), Fail> {
    let code = [ZERO, ZERO, Return, ArmEnd, ArmEnd, ArmEnd];
    let arms = [any(11, 12), any(12, 13), any(13, 14)];
    let catches = [
        catch(ranges[0], &arms[..1]),
        catch(ranges[1], &arms[1..2]),
        catch(ranges[2], &arms[2..]),
    ];
    match fault {
        None => check_valid(alloc, &code, &catches, &[0, 0, 0, 0, 0, 0]),
        Some(at) => check_fault(alloc, &code, &catches, CodeFault::CatchRange(at)),
    }
}

#[test]
fn phrases(rt: HostRuntime) -> Result<(), Fail> {
    for (ranges, fault) in RANGES {
        check_ranges(rt.alloc(), ranges, fault)?;
    }
    Ok(())
}

/// An arm from 6 to 7.
fn labelled<'a>(labels: &'a [Label], slot: u16, words: u16) -> Handler<'a> {
    Handler {
        labels,
        slot,
        words,
        start: 6,
        end: 7,
    }
}

/// One phrase with this arm.
fn check_arm<'a>(alloc: Global, arms: &'a [Handler<'a>], fits: bool) -> Result<(), Fail> {
    let code = [ZERO, Return, ArmEnd];
    let catches = [catch((0, 5), arms)];
    if fits {
        return check_valid(alloc, &code, &catches, &[0, 0, 0]);
    }
    check_fault(alloc, &code, &catches, CodeFault::BadOperand(6))
}

#[test]
fn words_of_arms(rt: HostRuntime) -> Result<(), Fail> {
    for (labels, slot, words, fits) in ARMS {
        check_arm(rt.alloc(), &[labelled(labels, slot, words)], fits)?;
    }
    Ok(())
}

const GOOD: Own<'static> = Own {
    args: 0,
    results: 0,
    frame: 0,
    depth: 0,
    code: &[Return],
    catches: &[],
};

const BAD: Own<'static> = Own {
    args: 0,
    results: 0,
    frame: 0,
    depth: 0,
    code: &[LIT],
    catches: &[],
};

/// Whether the first fault is that of this procedure.
fn is_bad_at(alloc: Global, all: &[Own<'_>], procedure: u32) -> Result<bool, Fail> {
    match judged(alloc, all)? {
        Ok(_) => Ok(false),
        Err(bad) => Ok(bad.procedure == procedure && bad.fault == CodeFault::StackDiffers(0)),
    }
}

#[test]
fn procedures(rt: HostRuntime) -> Result<(), Fail> {
    let alloc = rt.alloc();
    assert!(rt; is_bad_at(alloc, &[BAD, BAD, BAD], 0)?);
    assert!(rt; is_bad_at(alloc, &[GOOD, BAD, BAD], 1)?);
    assert!(rt; is_bad_at(alloc, &[GOOD, OTHER, BAD], 2)?);
    Ok(())
}
