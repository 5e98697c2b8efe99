//! Answers of operations, over grids of several sides.
use crate::crews::Crew;
use cb_bases::Based;
use cb_matrix::Test;
use cb_operations::Operation;
use cb_semirings::{MinPlus, OrAnd, PlusTimes, SemiringName};
use std::alloc::Global;

const A: &[u8] = b"%%MatrixMarket matrix coordinate integer general
% 2 by 3
2 3 4
1 1 1
2 2 3

1 2 2
2 3 4
";

const B: &[u8] = b"%%MatrixMarket matrix coordinate integer general
3 2 3
1 2 1
2 1 4
3 1 2
";

const C: &[u8] = b"%%MatrixMarket matrix coordinate integer symmetric
3 3 4
1 1 5
3 1 2
3 2 7
2 2 1
";

const D: &[u8] = b"%%MatrixMarket matrix coordinate integer general
2 2 9
1 1 1
1 1 2
2 2 4
1 1 8
2 2 16
1 1 32
2 2 64
1 1 128
2 2 256
";

/// The text of an operation's answer. None if there is none.
fn answer<S: Based>(
    alloc: Global,
    semiring: SemiringName,
    side: u32,
    operation: Operation,
    texts: &[&[u8]],
) -> Option<Vec<u8>> {
    let mut crew = Crew::<S>::open(alloc, semiring, side, 1)?;
    let mut register = 0u32;
    for text in texts {
        crew.read(alloc, register, text)?;
        register = register.saturating_add(1);
    }
    crew.operate(alloc, operation)?;
    crew.text(alloc, side, 0)
}

/// Whether the answer has this text on the grids of sides 1 to 3.
fn answers<S: Based>(
    alloc: Global,
    semiring: SemiringName,
    operation: Operation,
    texts: &[&[u8]],
    wanted: &[u8],
) -> bool {
    for side in 1..4 {
        match answer::<S>(alloc, semiring, side, operation, texts) {
            Some(text) => {
                if text.as_slice() != wanted {
                    return false;
                }
            }
            None => return false,
        }
    }
    true
}

#[test]
fn a_product(rt: HostRuntime) {
    let wanted: &[u8] = b"%%MatrixMarket matrix coordinate integer general
2 2 3
1 1 8
2 1 20
1 2 1
";
    assert!(rt;
        answers::<PlusTimes>(
            rt.alloc(),
            SemiringName::PlusTimes,
            Operation::Multiply,
            &[A, B],
            wanted
        )
    );
}

#[test]
fn a_product_over_min_plus(rt: HostRuntime) {
    let wanted: &[u8] = b"%%MatrixMarket matrix coordinate integer general
2 2 3
1 1 6
2 1 6
1 2 2
";
    assert!(rt;
        answers::<MinPlus>(
            rt.alloc(),
            SemiringName::MinPlus,
            Operation::Multiply,
            &[A, B],
            wanted
        )
    );
}

#[test]
fn a_transpose_over_or_and(rt: HostRuntime) {
    let wanted: &[u8] = b"%%MatrixMarket matrix coordinate pattern general
3 2 4
1 1
2 1
2 2
3 2
";
    assert!(rt;
        answers::<OrAnd>(
            rt.alloc(),
            SemiringName::OrAnd,
            Operation::Transpose,
            &[A],
            wanted
        )
    );
}

#[test]
fn a_symmetric_text_without_small_values(rt: HostRuntime) {
    let wanted: &[u8] = b"%%MatrixMarket matrix coordinate integer general
3 3 3
1 1 5
3 2 7
2 3 7
";
    assert!(rt;
        answers::<PlusTimes>(
            rt.alloc(),
            SemiringName::PlusTimes,
            Operation::Prune(Test::Below(5)),
            &[C],
            wanted
        )
    );
}

#[test]
fn a_text_of_which_many_processes_read_one_place(rt: HostRuntime) {
    let wanted: &[u8] = b"%%MatrixMarket matrix coordinate integer general
2 2 2
1 1 171
2 2 340
";
    assert!(rt;
        answers::<PlusTimes>(
            rt.alloc(),
            SemiringName::PlusTimes,
            Operation::Transpose,
            &[D],
            wanted
        )
    );
}
