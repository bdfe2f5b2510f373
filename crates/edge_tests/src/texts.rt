//! Readings into drafts that hold lines already.
use network::{Draft, Network};
use std::test::Fail;
use text::{TextFault, read_list};

const TWO_LINES: &[u8] = b"(points 4)
(line 0 3 (delay 1) (rate 10) (class 0) (room 1) (jitter 0) (loss 0))
(line 3 0 (delay 2) (rate 10) (class 0) (room 1) (jitter 0) (loss 0))
(end)
";

/// What a reading answers, with the layer, number and place of its fault.
fn faulted(read: Result<(), TextFault>) -> Result<(), (u32, u32, usize)> {
    read.map_err(|f| (f.layer() as u32, f.number(), f.place()))
}

#[test]
fn lines_are_added(rt: HostRuntime) -> Result<(), Fail> {
    let mut draft = Draft::new(rt.alloc())?;
    assert_eq!(rt; faulted(read_list(TWO_LINES, &mut draft)), Ok(()));
    assert_eq!(rt; faulted(read_list(TWO_LINES, &mut draft)), Ok(()));
    let list = draft.seal();
    assert_eq!(rt; list.points(), 4);
    assert_eq!(rt; list.line_count(), 4);
    assert_eq!(rt; list.line(3).terms.delay, 2);
    Ok(())
}

#[test]
fn held_ends_bound_the_points(rt: HostRuntime) -> Result<(), Fail> {
    let mut draft = Draft::new(rt.alloc())?;
    assert_eq!(rt; faulted(read_list(TWO_LINES, &mut draft)), Ok(()));
    assert_eq!(rt;
        faulted(read_list(b"(points 3)\n(end)\n", &mut draft)),
        Err((3, 5, 8))
    );
    assert_eq!(rt;
        faulted(read_list(b"(points 1)\n(end)\n", &mut draft)),
        Err((2, 4, 8))
    );
    assert_eq!(rt;
        faulted(read_list(b"(points 5)\n(end)\n", &mut draft)),
        Ok(())
    );
    assert_eq!(rt; draft.points(), 5);
    assert_eq!(rt; draft.line_count(), 2);
    Ok(())
}

#[test]
fn a_fault_leaves_the_draft(rt: HostRuntime) -> Result<(), Fail> {
    let mut draft = Draft::new(rt.alloc())?;
    assert_eq!(rt; faulted(read_list(TWO_LINES, &mut draft)), Ok(()));
    let late =
        b"(points 9)\n(line 8 8 (delay 1) (rate 10) (class 0) (room 1) (jitter 0) (loss 0))\n(end";
    assert_eq!(rt; faulted(read_list(late, &mut draft)), Err((2, 3, 85)));
    assert_eq!(rt; draft.points(), 4);
    assert_eq!(rt; draft.line_count(), 2);
    assert_eq!(rt;
        draft.seal().line(2).terms.room,
        0,
        "the line that was read is gone"
    );
    Ok(())
}

#[test]
fn held_lines_count(rt: HostRuntime) -> Result<(), Fail> {
    let mut draft = Draft::new(rt.alloc())?;
    for _ in 0..256 {
        assert_eq!(rt; faulted(read_list(TWO_LINES, &mut draft)), Ok(()));
    }
    assert_eq!(rt; draft.line_count(), 512);
    assert_eq!(rt; faulted(read_list(TWO_LINES, &mut draft)), Err((3, 6, 12)));
    assert_eq!(rt;
        faulted(read_list(b"(points 4)\n(end)\n", &mut draft)),
        Ok(())
    );
    Ok(())
}
