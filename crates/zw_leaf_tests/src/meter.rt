ghost use Rattle.std.specs.Prelude.{◌≡◌, ◌<◌};

use std::marker::Brand;
use std::sync::ledger::{Blank, Ledger};
use std::test::Fail;
use zw_meter::{Meter, Steps};

#[test]
fn steps_run_out(rt: HostRuntime) -> Result<(), Fail> {
    let mut meter = Meter { left: 3, depth: 0 };
    for (cost, paid, left) in [
        (2, true, 1),
        (2, false, 1),
        (1, true, 0),
        (0, true, 0),
        (1, false, 0),
    ] {
        assert_eq!(rt; meter.tick(cost), paid, "at {cost}");
        assert_eq!(rt; meter.left, left, "at {cost}");
    }
    Ok(())
}

#[test]
fn levels_end_at_2_000(rt: HostRuntime) -> Result<(), Fail> {
    let mut meter = Meter {
        left: 0,
        depth: 1_999,
    };
    meter.leave();
    for (entered, depth) in [(true, 1_999), (true, 2_000), (false, 2_000)] {
        assert_eq!(rt; meter.enter(), entered, "at {depth}");
        assert_eq!(rt; meter.depth, depth, "at {depth}");
    }
    Ok(())
}

// Two visits, on any ledger.
fn visit_twice<L: Ledger>(blank: Blank) -> usize
    requires name { blank.name ≡ L.name }
    requires parts { blank.parts ≡ L.parts }
    requires some { 0 < blank.parts }
{
    let mut steps = Steps::<L>::new(blank);
    steps.visit();
    steps.visit();
    size_of::<Steps<L>>()
}

#[test]
fn visits_take_no_bytes(rt: HostRuntime) -> Result<(), Fail> {
    assert_eq!(rt; visit_twice::<Brand>(Blank::new(1)), 0);
    Ok(())
}
