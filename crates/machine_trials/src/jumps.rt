//! Jumps out of arms, with UNWIND.

use crate::arms::{CALLS, RAISES_E, RAISES_T, Row};
use crate::building::{Catch, E, On, Own, PUT, PUT_NUMBER, T, signalling};
use crate::running::{Alone, tried_alone};
use code_forms::Instruction::{
    Add, ArmEnd, Call, JumpBack, JumpIfNot, Leave, LeaveReturn, LessI, Lit, LoadG, Raise, Resume,
    Return, StoreG, StoreL,
};
use code_forms::{Instruction, Label};
use machine_rules::End;
use std::test::Fail;

/// A: BEGIN B[! E => BEGIN WriteChar['a]; CONTINUE END]; WriteChar['d] END.
const CATCHES: [Instruction; 7] = [
    Call { procedure: 2 },
    Lit { word: 100 },
    PUT,
    Return,
    Lit { word: 97 },
    PUT,
    Leave { arms: 1, target: 1 },
];

const CATCHES_E: Own<'static> = Own(
    0,
    0,
    &CATCHES,
    &[Catch(0, 1, &[On(&[Label::Own(E)], 0, 0, 4, 7)])],
);

/// The same for T.
const CATCHES_T: Own<'static> = Own(
    0,
    0,
    &CATCHES,
    &[Catch(0, 1, &[On(&[Label::Own(T)], 0, 0, 4, 7)])],
);

/// C: BEGIN ENABLE UNWIND => WriteChar['c]; ERROR E END.
const UNWINDS_C: Own<'static> = Own(
    0,
    0,
    &[Raise { signal: E }, Return, Lit { word: 99 }, PUT, ArmEnd],
    &[Catch(0, 1, &[On(&[Label::Unwind], 0, 0, 2, 5)])],
);

/// B: BEGIN ENABLE UNWIND => WriteChar['b]; C[] END.
const UNWINDS_B: Own<'static> = Own(
    0,
    0,
    &[Call { procedure: 3 }, Return, Lit { word: 98 }, PUT, ArmEnd],
    &[Catch(0, 1, &[On(&[Label::Unwind], 0, 0, 2, 5)])],
);

/// The UNWIND arms of C and B run on the way to A.
const UNWINDS: [Own<'static>; 4] = [CALLS, CATCHES_E, UNWINDS_B, UNWINDS_C];

/// The same with an UNWIND arm within the phrase of A, which is of the target's own frame and is not run.
const UNWINDS_OWN: [Own<'static>; 4] = [
    Own(
        0,
        0,
        &[Call { procedure: 1 }, Lit { word: 100 }, PUT, Return],
        &[],
    ),
    Own(
        0,
        0,
        &[
            Call { procedure: 2 },
            Return,
            Lit { word: 97 },
            PUT,
            Leave { arms: 1, target: 1 },
            Lit { word: 120 },
            PUT,
            ArmEnd,
        ],
        &[
            Catch(0, 1, &[On(&[Label::Own(E)], 0, 0, 2, 5)]),
            Catch(0, 1, &[On(&[Label::Unwind], 0, 0, 5, 8)]),
        ],
    ),
    UNWINDS_B,
    UNWINDS_C,
];

/// P: BEGIN WriteChar['p]; ERROR E END; P[! E => BEGIN k ← k + 1; IF k < 4 THEN RETRY ELSE CONTINUE END]; WriteDecimal[k].
const RETRIES: [Own<'static>; 2] = [
    Own(
        0,
        0,
        &[
            Call { procedure: 1 },
            LoadG { slot: 0, words: 1 },
            PUT_NUMBER,
            Return,
            LoadG { slot: 0, words: 1 },
            Lit { word: 1 },
            Add,
            StoreG { slot: 0, words: 1 },
            LoadG { slot: 0, words: 1 },
            Lit { word: 4 },
            LessI,
            JumpIfNot { target: 13 },
            Leave { arms: 1, target: 0 },
            Leave { arms: 1, target: 1 },
        ],
        &[Catch(0, 1, &[On(&[Label::Own(E)], 0, 0, 4, 14)])],
    ),
    Own(0, 0, &[Lit { word: 112 }, PUT, Raise { signal: E }], &[]),
];

/// The UNWIND arm of C calls D, whose T is caught in B: the jump to B replaces the one to A.
const REPLACES: [Own<'static>; 5] = [
    CALLS,
    CATCHES_E,
    Own(
        0,
        0,
        &[
            Call { procedure: 3 },
            Lit { word: 98 },
            PUT,
            Return,
            Lit { word: 116 },
            PUT,
            Leave { arms: 1, target: 1 },
        ],
        &[Catch(0, 1, &[On(&[Label::Own(T)], 0, 0, 4, 7)])],
    ),
    Own(
        0,
        0,
        &[Raise { signal: E }, Return, Call { procedure: 4 }, ArmEnd],
        &[Catch(0, 1, &[On(&[Label::Unwind], 0, 0, 2, 4)])],
    ),
    RAISES_T,
];

/// B: BEGIN ENABLE UNWIND => WriteChar['b]; C[! E => D[]] END; D: ERROR T: B's arm is given up, then C, and B's UNWIND arm
/// runs once.
const ONCE: [Own<'static>; 5] = [
    CALLS,
    CATCHES_T,
    Own(
        0,
        0,
        &[
            Call { procedure: 3 },
            Return,
            Lit { word: 98 },
            PUT,
            ArmEnd,
            Call { procedure: 4 },
            ArmEnd,
        ],
        &[
            Catch(0, 1, &[On(&[Label::Unwind], 0, 0, 2, 5)]),
            Catch(0, 1, &[On(&[Label::Own(E)], 0, 0, 5, 7)]),
        ],
    ),
    UNWINDS_C,
    RAISES_T,
];

/// A: BEGIN BEGIN B[! E => BEGIN WriteChar['a]; GOTO d END]; WriteChar['n] EXITS d => NULL END; WriteChar['d] END.
const GOES_ON: Own<'static> = Own(
    0,
    0,
    &[
        Call { procedure: 2 },
        Lit { word: 110 },
        PUT,
        Lit { word: 100 },
        PUT,
        Return,
        Lit { word: 97 },
        PUT,
        Leave { arms: 1, target: 3 },
    ],
    &[Catch(0, 1, &[On(&[Label::Own(E)], 0, 0, 6, 9)])],
);

/// An UNWIND arm of B that jumps itself, to B: B goes on and returns to A, whose jump is over.
const JUMPS_INSIDE: [Own<'static>; 4] = [
    CALLS,
    GOES_ON,
    Own(
        0,
        0,
        &[
            Call { procedure: 3 },
            Lit { word: 98 },
            PUT,
            Return,
            Leave { arms: 1, target: 1 },
        ],
        &[Catch(0, 1, &[On(&[Label::Unwind], 0, 0, 4, 5)])],
    ),
    RAISES_E,
];

/// The same with an UNWIND arm that returns from B.
const RETURNS_INSIDE: [Own<'static>; 4] = [
    CALLS,
    GOES_ON,
    Own(
        0,
        0,
        &[Call { procedure: 3 }, Return, LeaveReturn { arms: 1 }],
        &[Catch(0, 1, &[On(&[Label::Unwind], 0, 0, 2, 3)])],
    ),
    RAISES_E,
];

/// Arms in arms: the inner one leaves both, and the UNWIND arm, which is of the target's own frame, is not run.
const LEAVES_TWO: [Own<'static>; 2] = [
    Own(
        0,
        0,
        &[
            Call { procedure: 1 },
            Lit { word: 110 },
            PUT,
            Lit { word: 120 },
            PUT,
            Return,
            Lit { word: 105 },
            PUT,
            Call { procedure: 1 },
            ArmEnd,
            Lit { word: 111 },
            PUT,
            Leave { arms: 2, target: 3 },
            Lit { word: 117 },
            PUT,
            ArmEnd,
        ],
        &[
            Catch(0, 1, &[On(&[Label::Own(E)], 0, 0, 6, 10)]),
            Catch(
                8,
                9,
                &[
                    On(&[Label::Own(E)], 0, 0, 10, 13),
                    On(&[Label::Unwind], 0, 0, 13, 16),
                ],
            ),
        ],
    ),
    RAISES_E,
];

/// The inner arm leaves itself alone, to the outer one: that one, its raiser and the frames under it stay.
const LEAVES_ONE: [Own<'static>; 2] = [
    Own(
        0,
        0,
        &[
            Call { procedure: 1 },
            Lit { word: 110 },
            PUT,
            Lit { word: 120 },
            PUT,
            Return,
            Lit { word: 105 },
            PUT,
            Call { procedure: 1 },
            ArmEnd,
            Lit { word: 107 },
            PUT,
            Leave { arms: 1, target: 3 },
            Lit { word: 111 },
            PUT,
            Leave {
                arms: 1,
                target: 10,
            },
        ],
        &[
            Catch(0, 1, &[On(&[Label::Own(E)], 0, 0, 6, 13)]),
            Catch(8, 9, &[On(&[Label::Own(E)], 0, 0, 13, 16)]),
        ],
    ),
    RAISES_E,
];

/// P: RETURNS [r] = BEGIN Q[! E => RETURN[3]]; r ← 9 END; Q: ERROR E;
/// WriteDecimal[P[]]; DO Q[! E => EXIT]; WriteChar['n] ENDLOOP; WriteChar['x].
const RETURNS_OUT: [Own<'static>; 3] = [
    Own(
        0,
        0,
        &[
            Call { procedure: 1 },
            PUT_NUMBER,
            Call { procedure: 2 },
            Lit { word: 110 },
            PUT,
            JumpBack { target: 2 },
            Lit { word: 120 },
            PUT,
            Return,
            Leave { arms: 1, target: 6 },
        ],
        &[Catch(2, 3, &[On(&[Label::Own(E)], 0, 0, 9, 10)])],
    ),
    Own(
        0,
        1,
        &[
            Call { procedure: 2 },
            Lit { word: 9 },
            StoreL { slot: 0, words: 1 },
            Return,
            Lit { word: 3 },
            StoreL { slot: 0, words: 1 },
            LeaveReturn { arms: 1 },
        ],
        &[Catch(0, 1, &[On(&[Label::Own(E)], 0, 0, 4, 7)])],
    ),
    RAISES_E,
];

/// P: RETURNS [r] = BEGIN Q[! E => Q[! E => RETURN[7]]] END; Q: BEGIN ENABLE UNWIND => WriteChar['u]; ERROR E END;
/// WriteDecimal[P[]]: the return leaves two arms, and both calls of Q.
const RETURNS_OUT_OF_TWO: [Own<'static>; 3] = [
    Own(0, 0, &[Call { procedure: 1 }, PUT_NUMBER, Return], &[]),
    Own(
        0,
        1,
        &[
            Call { procedure: 2 },
            Return,
            Call { procedure: 2 },
            ArmEnd,
            Lit { word: 7 },
            StoreL { slot: 0, words: 1 },
            LeaveReturn { arms: 2 },
        ],
        &[
            Catch(0, 1, &[On(&[Label::Own(E)], 0, 0, 2, 4)]),
            Catch(2, 3, &[On(&[Label::Own(E)], 0, 0, 4, 7)]),
        ],
    ),
    Own(
        0,
        0,
        &[Raise { signal: E }, Return, Lit { word: 117 }, PUT, ArmEnd],
        &[Catch(0, 1, &[On(&[Label::Unwind], 0, 0, 2, 5)])],
    ),
];

/// An UNWIND arm that resumes does as one that ends.
const RESUMES_INSIDE: [Own<'static>; 3] = [
    CALLS,
    CATCHES_E,
    Own(
        0,
        0,
        &[
            Raise { signal: E },
            Return,
            Lit { word: 99 },
            PUT,
            Resume { words: 0 },
        ],
        &[Catch(0, 1, &[On(&[Label::Unwind], 0, 0, 2, 5)])],
    ),
];

const ROWS: [Row; 12] = [
    (&UNWINDS, 12, "acbd", End::Done),
    (&UNWINDS_OWN, 12, "acbd", End::Done),
    (&RETRIES, 18, "pppp4", End::Done),
    (&REPLACES, 14, "atbd", End::Done),
    (&ONCE, 15, "acbd", End::Done),
    (&JUMPS_INSIDE, 11, "abnd", End::Done),
    (&RETURNS_INSIDE, 10, "and", End::Done),
    (&LEAVES_TWO, 10, "iox", End::Done),
    (&LEAVES_ONE, 11, "iokx", End::Done),
    (&RETURNS_OUT, 10, "3x", End::Done),
    (&RETURNS_OUT_OF_TWO, 13, "uu7", End::Done),
    (&RESUMES_INSIDE, 9, "acd", End::Done),
];

#[test]
fn leaves(rt: HostRuntime) -> Result<(), Fail> {
    for (procedures, turns, out, end) in ROWS {
        tried_alone(
            &rt,
            rt.alloc(),
            &Alone {
                module: signalling(procedures),
                input: "",
                turns,
                out,
                end,
            },
        )?;
    }
    Ok(())
}
