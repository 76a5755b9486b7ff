//! Lattices of modules and classes: the ancestors of the last one made are itself; then its includes, the last one first,
//! each with its own ancestors and without those already listed or in the superclass's list; then the superclass's list.

use crate::plan::{last_of, letters_of, made_by};
use std::alloc::Global;
use std::process::Abort;
use std::test::Fail;
use zw_consts::ancestors;

fn try_plan(rt: &impl Abort, alloc: Global, plan: &str, wanted: &str) -> Result<(), Fail> {
    let made = made_by(rt, alloc, plan)?;
    let line = ancestors(alloc, &made.heap, last_of(rt, &made))?;
    let told = letters_of(alloc, &made, &line)?;
    assert!(rt; told.as_str() == wanted, "at {plan}");
    Ok(())
}

const IN_ORDER: [(&str, &str); 12] = [
    ("cA-", "AOK"),
    ("cAO", "AOK"),
    ("mM-", "M"),
    ("mM- cA-M", "AMOK"),
    ("mM- mN- cA-MN", "ANMOK"),
    ("mM- mN- cA-NM", "AMNOK"),
    ("mP- mQ- mR- mS-PQR", "SRQP"),
    ("mN- mM-N cA-M", "AMNOK"),
    ("mW- mX-W mY-X mZ-Y", "ZYXW"),
    ("mM-K", "MK"),
    ("mM-K cA-M", "AMOK"),
    ("cA-K", "AOK"),
];

#[test]
fn includes_come_last_first(rt: HostRuntime) -> Result<(), Fail> {
    for (plan, wanted) in IN_ORDER {
        try_plan(&rt, rt.alloc(), plan, wanted)?;
    }
    Ok(())
}

const ONCE: [(&str, &str); 12] = [
    ("mT- mL-T mR-T cA-LR", "ARTLOK"),
    ("mT- mL-T mR-T cA-RL", "ALTROK"),
    ("mT- mL-T mR-T mB-LR", "BRTL"),
    ("mT- mL-T cA-LT", "ATLOK"),
    ("mT- mL-T cA-TL", "ALTOK"),
    ("mX- mY-X mZ-XY", "ZYX"),
    ("mX- mY-X mZ-YX", "ZXY"),
    ("mT- mL-T mR-T mB-LR mU- mV-BU", "VUBRTL"),
    ("mT- mL-T mR-T mB-LR mV-BR", "VRTBL"),
    ("mT- mL-T mR-T mB-LR mV-RB", "VBRTL"),
    ("mA- mB-A mC-AB mD-BC mE-CD", "EDCBA"),
    ("mA- mB-A mC-BA mD-CB mE-DC", "ECABD"),
];

#[test]
fn each_is_listed_once(rt: HostRuntime) -> Result<(), Fail> {
    for (plan, wanted) in ONCE {
        try_plan(&rt, rt.alloc(), plan, wanted)?;
    }
    Ok(())
}

const ABOVE: [(&str, &str); 11] = [
    ("mN- mM-N cB-N cABM", "AMBNOK"),
    ("mM- cB-M cABM", "ABMOK"),
    ("cC- cBC cAB", "ABCOK"),
    ("mM- mN- cC-M cBCN cAB", "ABNCMOK"),
    ("mM- cC- cBC cABM", "AMBCOK"),
    ("mM- cC-M cBCM cABM", "ABCMOK"),
    ("mW- mX-W mY-X cA-Y cBA", "BAYXWOK"),
    ("mT- mL-T mR-T cB-L cABR", "ARBLTOK"),
    ("mT- mL-T mR-T cB-T cABLR", "ARLBTOK"),
    ("mA- mB- mC-A mD-B cE-CD cFEAB", "FEDBCAOK"),
    ("mA- mB-A cC-A cDCB cED", "EDBCAOK"),
];

#[test]
fn what_is_above_is_not_listed_below(rt: HostRuntime) -> Result<(), Fail> {
    for (plan, wanted) in ABOVE {
        try_plan(&rt, rt.alloc(), plan, wanted)?;
    }
    Ok(())
}

const NOW: [(&str, &str); 5] = [
    ("mN- mM- cA-M +M-N cBA", "BAMNOK"),
    ("mN- mM- cA-NM +M-N cBA", "BAMNOK"),
    ("mN- mM- cA-MN +M-N cBA", "BANMOK"),
    ("mM- cB- cABM +B-M cCA", "CABMOK"),
    ("mM- cA-MM", "AMOK"),
];

#[test]
fn includes_are_those_of_now(rt: HostRuntime) -> Result<(), Fail> {
    for (plan, wanted) in NOW {
        try_plan(&rt, rt.alloc(), plan, wanted)?;
    }
    Ok(())
}
