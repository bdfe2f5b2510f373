//! Fastest and widest over a ring, with tables and closure lists at their edges.
use crate::given::ring;
use network::{Charges, Loaded, Refusal, Ring, Terms};
use std::test::Fail;
use sweep::{fastest, widest};

/// A ring of 4 points with delay 5 and room 3.
fn ring_of_four() -> Result<Ring, Fail> {
    let charges = Charges {
        rate: 1,
        ..Charges::default()
    };
    let terms = Terms {
        delay: 5,
        room: 3,
        charges,
    };
    ring(4, terms)
}

#[test]
fn both_ways_round(rt: HostRuntime) -> Result<(), Fail> {
    let ring = ring_of_four()?;
    let mut table = [Some(77); 5];
    assert_eq!(rt; fastest(&ring, &[0; 8], 0, 3, 3, &mut table), Ok(5));
    assert_eq!(rt;
        table,
        [Some(0), Some(5), Some(10), Some(5), Some(77)],
        "the last place is no point's"
    );
    let closures = [0, 0, 0, 0, 0, 0, 0, 1];
    assert_eq!(rt;
        fastest(&ring, &closures, 0, 3, 3, &mut table),
        Ok(15),
        "line 7 is closed"
    );
    assert_eq!(rt; widest(&ring, &closures, 0, 3, &mut table), Ok(3));
    assert_eq!(rt; table, [Some(1000), Some(3), Some(3), Some(3), Some(77)]);
    Ok(())
}

#[test]
fn questions_in_their_order(rt: HostRuntime) -> Result<(), Fail> {
    let ring = ring_of_four()?;
    let mut table = [None; 3];
    assert_eq!(rt;
        fastest(&ring, &[], 4, 4, 0, &mut table),
        Err(Refusal::NoSuchPoint)
    );
    assert_eq!(rt;
        fastest(&ring, &[], 3, 3, 0, &mut table),
        Err(Refusal::SamePoint)
    );
    assert_eq!(rt;
        fastest(&ring, &[], 0, 3, 0, &mut table),
        Err(Refusal::BadChannels)
    );
    assert_eq!(rt;
        fastest(&ring, &[], 0, 3, 1001, &mut table),
        Err(Refusal::BadChannels)
    );
    assert_eq!(rt;
        fastest(&ring, &[0; 7], 0, 3, 1000, &mut table),
        Err(Refusal::ShortClosures)
    );
    assert_eq!(rt;
        fastest(&ring, &[0; 8], 0, 3, 1000, &mut table),
        Err(Refusal::ShortTable)
    );
    assert_eq!(rt;
        widest(&ring, &[0; 7], 0, 3, &mut table),
        Err(Refusal::ShortClosures)
    );
    assert_eq!(rt;
        widest(&ring, &[0; 8], 0, 3, &mut table),
        Err(Refusal::ShortTable)
    );
    assert_eq!(rt; table, [None; 3]);
    Ok(())
}

#[test]
fn no_run_fills_the_table(rt: HostRuntime) -> Result<(), Fail> {
    let ring = ring_of_four()?;
    let mut table = [Some(77); 4];
    assert_eq!(rt;
        fastest(&ring, &[0; 8], 0, 3, 4, &mut table),
        Err(Refusal::NoRun),
        "room for 3 channels only"
    );
    assert_eq!(rt; table, [Some(0), None, None, None]);
    let loads = [3, 0, 0, 0, 0, 0, 0, 2];
    let net = Loaded::new(&ring, &loads);
    assert_eq!(rt;
        widest(&net, &[0; 8], 0, 1, &mut table),
        Ok(1),
        "round by line 7, which has 1 channel left"
    );
    assert_eq!(rt;
        fastest(&net, &[0; 8], 0, 1, 2, &mut table),
        Err(Refusal::NoRun)
    );
    Ok(())
}
