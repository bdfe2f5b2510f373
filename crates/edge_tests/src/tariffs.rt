//! Prices and settings of the tariffs.
use crate::given::{CHARGES, outside};
use network::{Charges, Refusal};
use std::process::Abort;
use std::test::Fail;
use tariff::{Balanced, Period, Rate, Tariff};

/// Each number at the top of its range, but class 6, since class 7 is free.
const TOP: Charges = Charges {
    class: 6,
    ..CHARGES
};

/// The price is 0 where one of the four numbers is above its range.
fn none_outside<T: Tariff>(rt: &impl Abort, tariff: &T) -> Result<(), Fail> {
    for charges in outside(TOP) {
        assert_eq!(rt; tariff.price(charges), 0);
    }
    Ok(())
}

#[test]
fn rates(rt: HostRuntime) -> Result<(), Fail> {
    assert_eq!(rt; Rate.price(TOP), 10_000);
    none_outside(&rt, &Rate)
}

#[test]
fn bounds_at_their_edges(rt: HostRuntime) -> Result<(), Fail> {
    assert!(rt; Balanced::new(0, 1).is_err());
    assert!(rt; Balanced::new(1, 0).is_err());
    assert!(rt; Balanced::new(1_001, 1).is_err());
    assert!(rt; Balanced::new(1, 1_001).is_err());
    assert!(rt; Balanced::new(1, 1).is_ok());
    let tariff = Balanced::new(1_000, 1).map_err(|_| Fail::new("the bounds are refused"))?;
    assert_eq!(rt; tariff.price(TOP), 1_000_000, "loss by the jitter bound");
    assert_eq!(rt;
        tariff.price(Charges { loss: 0, ..TOP }),
        1_000,
        "jitter by the loss bound"
    );
    none_outside(&rt, &tariff)
}

#[test]
fn settings_at_their_edges(rt: HostRuntime) {
    let mut tariff = Period::new();
    assert_eq!(rt; tariff.set_weight(0, 6, 101), Err(Refusal::BadWeight));
    assert_eq!(rt; tariff.set_weight(0, 6, 0), Err(Refusal::BadWeight));
    assert_eq!(rt; tariff.set_weight(0, 8, 5), Err(Refusal::BadWeight));
    assert_eq!(rt; tariff.set_weight(4, 6, 5), Err(Refusal::BadWeight));
    assert_eq!(rt; tariff.set_period(4), Err(Refusal::BadWeight));
    assert_eq!(rt; tariff.price(TOP), 10_000, "a refusal changes nothing");
    assert_eq!(rt; tariff.set_weight(0, 6, 100), Ok(()));
    assert_eq!(rt; tariff.price(TOP), 1_000_000);
    assert_eq!(rt; tariff.set_weight(3, 7, 1), Ok(()));
    assert_eq!(rt; tariff.set_period(3), Ok(()));
    assert_eq!(rt; tariff.price(TOP), 10_000);
}

#[test]
fn free_lines(rt: HostRuntime) -> Result<(), Fail> {
    let mut tariff = Period::new();
    assert_eq!(rt; tariff.price(Charges { class: 7, ..TOP }), 0);
    assert_eq!(rt; tariff.price(Charges { rate: 0, ..TOP }), 0);
    assert_eq!(rt; tariff.set_period(3), Ok(()));
    assert_eq!(rt; tariff.price(Charges { class: 7, ..TOP }), 1);
    assert_eq!(rt; tariff.price(Charges { rate: 0, ..TOP }), 1);
    none_outside(&rt, &tariff)
}
