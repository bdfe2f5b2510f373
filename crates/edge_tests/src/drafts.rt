//! What a draft takes and refuses.
use crate::given::{CHARGES, outside};
use network::{Draft, Line, Network, Refusal, Terms};
use std::process::Abort;
use std::test::Fail;

/// Terms with each number at the top of its range.
const TOP: Terms = Terms {
    delay: 1_000_000,
    room: 1_000,
    charges: CHARGES,
};

/// The same, but a delay that is just out of range.
const SLOW: Terms = Terms {
    delay: 1_000_001,
    ..TOP
};

fn line(from: u32, to: u32, terms: Terms) -> Line {
    Line { from, to, terms }
}

/// A line from 0 to 1 on these terms is taken, and on the others refused with 4.
fn edge(rt: &impl Abort, draft: &mut Draft, inside: Terms, outside: Terms) {
    assert_eq!(rt; draft.add_line(line(0, 1, inside)), Ok(()));
    assert_eq!(rt;
        draft.add_line(line(0, 1, outside)),
        Err(Refusal::OutOfRange)
    );
}

#[test]
fn terms_at_their_edges(rt: HostRuntime) -> Result<(), Fail> {
    let mut draft = Draft::new(rt.alloc())?;
    edge(&rt, &mut draft, TOP, SLOW);
    let (least, none) = (Terms { room: 1, ..TOP }, Terms { room: 0, ..TOP });
    edge(&rt, &mut draft, least, none);
    edge(&rt, &mut draft, TOP, Terms { room: 1_001, ..TOP });
    for charges in outside(CHARGES) {
        edge(&rt, &mut draft, TOP, Terms { charges, ..TOP });
    }
    assert_eq!(rt; draft.seal().line_count(), 7, "a refused line is not held");
    Ok(())
}

#[test]
fn points_at_their_edges(rt: HostRuntime) -> Result<(), Fail> {
    let mut draft = Draft::new(rt.alloc())?;
    assert_eq!(rt; draft.set_points(1), Err(Refusal::OutOfRange));
    assert_eq!(rt; draft.set_points(65), Err(Refusal::OutOfRange));
    assert_eq!(rt; draft.set_points(64), Ok(()));
    assert_eq!(rt; draft.add_line(line(3, 0, TOP)), Ok(()));
    assert_eq!(rt; draft.set_points(3), Err(Refusal::NoSuchEnd));
    assert_eq!(rt;
        draft.set_points(1),
        Err(Refusal::OutOfRange),
        "4 is asked before 5"
    );
    assert_eq!(rt; draft.set_points(4), Ok(()));
    assert_eq!(rt; draft.seal().points(), 4);
    Ok(())
}

#[test]
fn ends_at_their_edges(rt: HostRuntime) -> Result<(), Fail> {
    let mut draft = Draft::new(rt.alloc())?;
    assert_eq!(rt; draft.add_line(line(1, 0, TOP)), Ok(()));
    assert_eq!(rt; draft.add_line(line(2, 0, TOP)), Err(Refusal::NoSuchEnd));
    assert_eq!(rt; draft.add_line(line(0, 2, TOP)), Err(Refusal::NoSuchEnd));
    assert_eq!(rt;
        draft.add_line(line(0, 2, SLOW)),
        Err(Refusal::OutOfRange),
        "4 is asked before 5"
    );
    Ok(())
}

#[test]
fn judging_changes_nothing(rt: HostRuntime) -> Result<(), Fail> {
    let mut draft = Draft::new(rt.alloc())?;
    assert_eq!(rt; draft.add_line(line(0, 1, TOP)), Ok(()));
    assert_eq!(rt; draft.judge_points(1), Err(Refusal::OutOfRange));
    assert_eq!(rt; draft.judge_points(2), Ok(()));
    assert_eq!(rt; draft.judge_points(64), Ok(()));
    assert_eq!(rt; draft.judge_points(4_294_967_298), Err(Refusal::OutOfRange));
    assert_eq!(rt; draft.judge_end(1), Ok(()));
    assert_eq!(rt; draft.judge_end(2), Err(Refusal::NoSuchEnd));
    assert_eq!(rt; draft.judge_end(4_294_967_296), Err(Refusal::NoSuchEnd));
    assert_eq!(rt; draft.judge_more(), Ok(()));
    let list = draft.seal();
    assert_eq!(rt; list.points(), 2);
    assert_eq!(rt; list.line_count(), 1);
    Ok(())
}

#[test]
fn lines_up_to_512(rt: HostRuntime) -> Result<(), Fail> {
    let mut draft = Draft::new(rt.alloc())?;
    for _ in 0..512 {
        assert_eq!(rt; draft.judge_more(), Ok(()));
        assert_eq!(rt; draft.add_line(line(0, 1, TOP)), Ok(()));
    }
    assert_eq!(rt; draft.judge_more(), Err(Refusal::TooManyLines));
    assert_eq!(rt; draft.add_line(line(0, 1, TOP)), Err(Refusal::TooManyLines));
    assert_eq!(rt;
        draft.add_line(line(0, 2, TOP)),
        Err(Refusal::NoSuchEnd),
        "5 is asked before 6"
    );
    assert_eq!(rt; draft.seal().line_count(), 512);
    Ok(())
}
