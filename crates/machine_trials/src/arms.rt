//! Raises, the search for an arm, arms in arms, and what comes of them.

use crate::building::{ASKS, Catch, E, GIVES, On, Own, PUT, PUT_NUMBER, S, T, signalling};
use crate::running::{Alone, tried_alone};
use code_forms::Instruction::{
    Add, ArmEnd, Call, Eq, JumpIfNot, Leave, Lit, LoadG, LoadL, Mul, Raise, RaiseHost, Resume,
    Return, StoreG, StoreL,
};
use code_forms::Label;
use machine_rules::End;
use signaller::SignalId;
use std::test::Fail;

/// Procedures, the least turns, what is printed and the end.
pub type Row = (&'static [Own<'static>], u64, &'static str, End);

/// Procedures that do nothing but raise.
pub const RAISES_E: Own<'static> = Own(0, 0, &[Raise { signal: E }], &[]);

pub const RAISES_T: Own<'static> = Own(0, 0, &[Raise { signal: T }], &[]);

const RAISES_S: Own<'static> = Own(0, 0, &[Raise { signal: S }, Return], &[]);

/// A body that calls procedure 1 and is done.
pub const CALLS: Own<'static> = Own(0, 0, &[Call { procedure: 1 }, Return], &[]);

/// Nothing catches E; it is raised in the body itself.
const UNCAUGHT: [Own<'static>; 1] = [RAISES_E];

/// P[! S => BEGIN WriteChar['i]; RESUME END]; WriteChar['e]; P: SIGNAL S.
const RESUMES: [Own<'static>; 2] = [
    Own(
        0,
        0,
        &[
            Call { procedure: 1 },
            Lit { word: 101 },
            PUT,
            Return,
            Lit { word: 105 },
            PUT,
            Resume { words: 0 },
        ],
        &[Catch(0, 1, &[On(&[Label::Own(S)], 0, 0, 4, 7)])],
    ),
    RAISES_S,
];

/// A signal raised inside an arm is offered beyond the phrase that holds the arm.
/// R: SIGNAL S; Q: R[! S => BEGIN WriteChar['i]; SIGNAL S; WriteChar['j]; RESUME END];
/// Q[! S => BEGIN WriteChar['o]; RESUME END]; WriteChar['e].
const GOES_BEYOND: [Own<'static>; 3] = [
    Own(
        0,
        0,
        &[
            Call { procedure: 1 },
            Lit { word: 101 },
            PUT,
            Return,
            Lit { word: 111 },
            PUT,
            Resume { words: 0 },
        ],
        &[Catch(0, 1, &[On(&[Label::Own(S)], 0, 0, 4, 7)])],
    ),
    Own(
        0,
        0,
        &[
            Call { procedure: 2 },
            Return,
            Lit { word: 105 },
            PUT,
            Raise { signal: S },
            Lit { word: 106 },
            PUT,
            Resume { words: 0 },
        ],
        &[Catch(0, 1, &[On(&[Label::Own(S)], 0, 0, 2, 8)])],
    ),
    RAISES_S,
];

/// Of two phrases round one call the inner one is asked first, and rejects; then the outer one.
const REJECTS: [Own<'static>; 2] = [
    Own(
        0,
        0,
        &[
            Call { procedure: 1 },
            Return,
            Lit { word: 111 },
            PUT,
            Resume { words: 0 },
            Lit { word: 105 },
            PUT,
            ArmEnd,
        ],
        &[
            Catch(0, 1, &[On(&[Label::Own(S)], 0, 0, 2, 5)]),
            Catch(0, 1, &[On(&[Label::Own(S)], 0, 0, 5, 8)]),
        ],
    ),
    RAISES_S,
];

/// A signal that gives a word is not resumed with none: the inner arm says RESUME, the outer one RESUME[5].
const RESUMES_WORDS: [Own<'static>; 2] = [
    Own(
        0,
        0,
        &[
            Call { procedure: 1 },
            Return,
            Lit { word: 111 },
            PUT,
            Lit { word: 5 },
            Resume { words: 1 },
            Resume { words: 0 },
        ],
        &[
            Catch(0, 1, &[On(&[Label::Own(GIVES)], 0, 0, 2, 6)]),
            Catch(0, 1, &[On(&[Label::Own(GIVES)], 0, 0, 6, 7)]),
        ],
    ),
    Own(0, 0, &[Raise { signal: GIVES }, PUT_NUMBER, Return], &[]),
];

/// An error is not resumed, and nothing else catches it.
const RESUMES_ERROR: [Own<'static>; 2] = [
    Own(
        0,
        0,
        &[Call { procedure: 1 }, Return, Resume { words: 0 }],
        &[Catch(0, 1, &[On(&[Label::Own(E)], 0, 0, 2, 3)])],
    ),
    RAISES_E,
];

/// The parameter of an arm is put at its slot: S[7], with a word 3 that waits under it in the raiser, and a word 2 of the
/// catcher that stays.
const PARAMETERS: [Own<'static>; 2] = [
    Own(
        0,
        0,
        &[
            Lit { word: 2 },
            StoreL { slot: 0, words: 1 },
            Call { procedure: 1 },
            LoadL { slot: 0, words: 1 },
            PUT_NUMBER,
            Return,
            LoadL { slot: 1, words: 1 },
            PUT_NUMBER,
            LoadL { slot: 1, words: 1 },
            Lit { word: 10 },
            Mul,
            Resume { words: 1 },
        ],
        &[Catch(2, 3, &[On(&[Label::Own(ASKS)], 1, 1, 6, 12)])],
    ),
    Own(
        0,
        0,
        &[
            Lit { word: 3 },
            Lit { word: 7 },
            Raise { signal: ASKS },
            Add,
            PUT_NUMBER,
            Return,
        ],
        &[],
    ),
];

/// The first fitting arm of a phrase is run, ANY for what no arm before it names: P[! T => WriteChar['t], E, T => WriteChar['e],
/// ANY => ..] with RETRY until each was raised once, in the order T, E, the unnamed error.
const FIRST_ARM: [Own<'static>; 2] = [
    Own(
        0,
        0,
        &[
            Call { procedure: 1 },
            Return,
            Lit { word: 116 },
            PUT,
            Leave { arms: 1, target: 0 },
            Lit { word: 101 },
            PUT,
            Leave { arms: 1, target: 0 },
            Lit { word: 121 },
            PUT,
            Leave { arms: 1, target: 1 },
        ],
        &[Catch(
            0,
            1,
            &[
                On(&[Label::Own(T)], 0, 0, 2, 5),
                On(&[Label::Own(E), Label::Own(T)], 0, 0, 5, 8),
                On(&[Label::Any], 0, 0, 8, 11),
            ],
        )],
    ),
    Own(
        0,
        0,
        &[
            LoadG { slot: 0, words: 1 },
            Lit { word: 1 },
            Add,
            StoreG { slot: 0, words: 1 },
            LoadG { slot: 0, words: 1 },
            Lit { word: 1 },
            Eq,
            JumpIfNot { target: 9 },
            Raise { signal: T },
            LoadG { slot: 0, words: 1 },
            Lit { word: 2 },
            Eq,
            JumpIfNot { target: 14 },
            Raise { signal: E },
            RaiseHost { fault: 2 },
        ],
        &[],
    ),
];

/// Q: ERROR; Q[! ANY => CONTINUE]; ERROR.
const UNNAMED: [Own<'static>; 2] = [
    Own(
        0,
        0,
        &[
            Call { procedure: 1 },
            RaiseHost { fault: 2 },
            Leave { arms: 1, target: 1 },
        ],
        &[Catch(0, 1, &[On(&[Label::Any], 0, 0, 2, 3)])],
    ),
    Own(0, 0, &[RaiseHost { fault: 2 }], &[]),
];

/// Arms in arms in arms: each prints its letter and raises E again, but the innermost, which leaves all three.
const THREE_DEEP: [Own<'static>; 2] = [
    Own(
        0,
        0,
        &[
            Call { procedure: 1 },
            Lit { word: 110 },
            PUT,
            Lit { word: 120 },
            PUT,
            Return,
            Lit { word: 97 },
            PUT,
            Call { procedure: 1 },
            ArmEnd,
            Lit { word: 98 },
            PUT,
            Call { procedure: 1 },
            ArmEnd,
            Lit { word: 99 },
            PUT,
            Leave { arms: 3, target: 3 },
        ],
        &[
            Catch(0, 1, &[On(&[Label::Own(E)], 0, 0, 6, 10)]),
            Catch(8, 9, &[On(&[Label::Own(E)], 0, 0, 10, 14)]),
            Catch(12, 13, &[On(&[Label::Own(E)], 0, 0, 14, 17)]),
        ],
    ),
    RAISES_E,
];

/// An arm in an arm, each with a parameter, each resuming with a word: P: [x] RETURNS [100 + SIGNAL S[x]];
/// WriteDecimal[P[1 ! S => RESUME[P[x + 10 ! S => RESUME[x * 5]]]]].
const RESUMES_INSIDE: [Own<'static>; 2] = [
    Own(
        0,
        0,
        &[
            Lit { word: 1 },
            Call { procedure: 1 },
            PUT_NUMBER,
            Return,
            LoadL { slot: 0, words: 1 },
            Lit { word: 10 },
            Add,
            Call { procedure: 1 },
            Resume { words: 1 },
            LoadL { slot: 1, words: 1 },
            Lit { word: 5 },
            Mul,
            Resume { words: 1 },
        ],
        &[
            Catch(1, 2, &[On(&[Label::Own(ASKS)], 0, 1, 4, 9)]),
            Catch(7, 8, &[On(&[Label::Own(ASKS)], 1, 1, 9, 13)]),
        ],
    ),
    Own(
        1,
        1,
        &[
            Lit { word: 100 },
            LoadL { slot: 0, words: 1 },
            Raise { signal: ASKS },
            Add,
            StoreL { slot: 1, words: 1 },
            Return,
        ],
        &[],
    ),
];

const ROWS: [Row; 12] = [
    (&UNCAUGHT, 2, "", End::Uncaught(SignalId::Own(0, E))),
    (&RESUMES, 6, "ie", End::Done),
    (&GOES_BEYOND, 11, "ioje", End::Done),
    (&REJECTS, 7, "io", End::Done),
    (&RESUMES_WORDS, 7, "o5", End::Done),
    (&RESUMES_ERROR, 4, "", End::Uncaught(SignalId::Own(0, E))),
    (&PARAMETERS, 7, "7732", End::Done),
    (&FIRST_ARM, 13, "tey", End::Done),
    (&UNNAMED, 5, "", End::Uncaught(SignalId::Unnamed)),
    (&THREE_DEEP, 14, "abcx", End::Done),
    (&RESUMES_INSIDE, 8, "255", End::Done),
    (&CALLS_NOTHING, 2, "", End::Done),
];

const CALLS_NOTHING: [Own<'static>; 2] = [CALLS, Own(0, 0, &[Return], &[])];

#[test]
fn raises(rt: HostRuntime) -> Result<(), Fail> {
    for (procedures, turns, out, end) in ROWS {
        tried_alone(
            &rt,
            rt.alloc(),
            &Alone {
                module: signalling(procedures),
                input: "",
                turns,
                out,
                end,
            },
        )?;
    }
    Ok(())
}
