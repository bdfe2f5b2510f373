//! What sealed lists, rings and loaded networks answer, and the numbers of refusals.
use crate::given::ring;
use network::{Charges, Draft, Figure, Line, Loaded, Network, Refusal, Ring, Terms};
use std::test::Fail;

fn terms(room: u32) -> Terms {
    let charges = Charges {
        rate: 4,
        class: 5,
        jitter: 7,
        loss: 8,
    };
    Terms {
        delay: 3,
        room,
        charges,
    }
}

#[test]
fn a_list_in_its_order(rt: HostRuntime) -> Result<(), Fail> {
    let mut draft = Draft::new(rt.alloc())?;
    let first = Line {
        from: 1,
        to: 0,
        terms: terms(6),
    };
    let second = Line {
        from: 0,
        to: 1,
        terms: terms(9),
    };
    assert!(rt; draft.add_line(first).is_ok());
    assert!(rt; draft.add_line(second).is_ok());
    let list = draft.seal();
    assert_eq!(rt; list.line(0), first);
    assert_eq!(rt; list.line(1), second);
    assert_eq!(rt; list.line(2), Line::none());
    assert_eq!(rt; list.line(u32::MAX), Line::none());
    Ok(())
}

/// The eight numbers of line k.
fn figures<N: Network>(network: &N, k: u32) -> [u32; 8] {
    let all = [
        Figure::From,
        Figure::To,
        Figure::Delay,
        Figure::Rate,
        Figure::Class,
        Figure::Room,
        Figure::Jitter,
        Figure::Loss,
    ];
    all.map(|which| network.figure(k, which))
}

#[test]
fn one_number_at_a_time(rt: HostRuntime) -> Result<(), Fail> {
    let ring = ring(4, terms(6))?;
    assert_eq!(rt; figures(&ring, 3), [3, 0, 3, 4, 5, 6, 7, 8]);
    assert_eq!(rt; figures(&ring, 4), [1, 0, 3, 4, 5, 6, 7, 8]);
    assert_eq!(rt; figures(&ring, 7), [0, 3, 3, 4, 5, 6, 7, 8]);
    assert_eq!(rt; figures(&ring, 8), [0; 8]);
    Ok(())
}

#[test]
fn rings_at_their_edges(rt: HostRuntime) {
    assert!(rt; Ring::new(1, terms(6)).is_err());
    assert!(rt; Ring::new(2, terms(0)).is_ok(), "a ring's room may be 0");
    assert!(rt; Ring::new(64, terms(1_000)).is_ok());
    assert!(rt; Ring::new(65, terms(6)).is_err());
    assert!(rt; Ring::new(2, terms(1_001)).is_err());
}

/// The rooms of the first five lines of a network under these loads.
fn rooms<N: Network>(under: &N, loads: &[u32]) -> [u32; 5] {
    let net = Loaded::new(under, loads);
    [0, 1, 2, 3, 4].map(|k| net.figure(k, Figure::Room))
}

#[test]
fn loads_lower_rooms(rt: HostRuntime) -> Result<(), Fail> {
    let ring = ring(2, terms(6))?;
    assert_eq!(rt; rooms(&ring, &[1, 6, 7, 0]), [5, 0, 0, 6, 0]);
    assert_eq!(rt;
        rooms(&ring, &[1, 6, 7, 0, 9]),
        [5, 0, 0, 6, 0],
        "a table past the last line"
    );
    assert_eq!(rt;
        rooms(&ring, &[2]),
        [4, 6, 6, 6, 0],
        "a table that ends early"
    );
    Ok(())
}

#[test]
fn loads_change_no_other_number(rt: HostRuntime) -> Result<(), Fail> {
    let ring = ring(2, terms(6))?;
    let loads = [1, 1, 1, 1];
    let net = Loaded::new(&ring, &loads);
    assert_eq!(rt; net.points(), 2);
    assert_eq!(rt; net.line_count(), 4);
    assert_eq!(rt; figures(&net, 3), [0, 1, 3, 4, 5, 5, 7, 8]);
    assert_eq!(rt; rooms(&net, &[2, 3, 4, 5]), [3, 2, 1, 0, 0], "loaded twice");
    Ok(())
}

#[test]
fn numbers_of_refusals(rt: HostRuntime) {
    let low = [
        Refusal::OutOfRange,
        Refusal::NoSuchEnd,
        Refusal::TooManyLines,
        Refusal::BadMargin,
        Refusal::BadWeight,
        Refusal::BadBound,
        Refusal::BadStart,
        Refusal::NoSuchPoint,
        Refusal::SamePoint,
        Refusal::BadChannels,
        Refusal::BadLimit,
    ];
    for (number, refusal) in (4..).zip(&low) {
        assert_eq!(rt; refusal.number(), number);
    }
    let high = [
        Refusal::ShortClosures,
        Refusal::ShortTable,
        Refusal::BookFull,
        Refusal::NumbersSpent,
        Refusal::NoRun,
        Refusal::NotStanding,
        Refusal::NoSuchLine,
        Refusal::NoSuchPlace,
        Refusal::NoColumn,
    ];
    for (number, refusal) in (16..).zip(&high) {
        assert_eq!(rt; refusal.number(), number);
    }
}
