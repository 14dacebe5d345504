use crate::*;
use file::{FileFault, RowFault};
use space::{ClipFault, PlanFault};
use std::test::Fail;

#[test]
fn row_and_place_reach_the_top(rt: HostRuntime) {
    let fault = ClipFault::Letter(2);
    let refusal = Refusal::File(FileFault::Row(RowFault { row: 3, fault }));
    assert_eq!(rt; refusal.number(), 9);
    assert_eq!(rt; refusal.place(), 2);
    assert_eq!(rt; refusal.row(), 3);
    assert_eq!(rt; refusal.layer().number(), 3);
}

#[test]
fn numbers_at_the_edges(rt: HostRuntime) {
    let plan = Refusal::Fit(FitFault::Plan(PlanFault::Size(4)));
    assert_eq!(rt; plan.number(), 1);
    assert_eq!(rt; plan.place(), 4);
    assert_eq!(rt; Refusal::Fit(FitFault::Table).number(), 3);
    assert_eq!(rt; Refusal::Fit(FitFault::Table).layer().number(), 1);
    assert_eq!(rt; Refusal::File(FileFault::Long).number(), 6);
    assert_eq!(rt; Refusal::File(FileFault::Long).layer().number(), 2);
    assert_eq!(rt; Refusal::State(StateFault::Void).number(), 20);
    assert_eq!(rt; Refusal::State(StateFault::Output).number(), 27);
    assert_eq!(rt; Refusal::State(StateFault::Output).layer().number(), 5);
}

#[test]
fn text_tells_number_row_and_dimension(rt: HostRuntime) -> Result<(), Fail> {
    let fault = ClipFault::Letter(2);
    let refusal = Refusal::File(FileFault::Row(RowFault { row: 3, fault }));
    let text = refusal.to_string(rt.alloc())?;
    assert!(rt; text.as_str() == "refused 9, row 3, dimension 2");
    let text = Refusal::State(StateFault::Full).to_string(rt.alloc())?;
    assert!(rt; text.as_str() == "refused 23");
    Ok(())
}
