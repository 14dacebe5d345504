// A void catalogue and an open one, through each of the calls.
use crate::*;
use measures::Count;
use refusals::{FitFault, Refusal, StateFault};
use std::alloc::Global;
use std::test::Fail;
use tree::Table;

const VOID: Refusal = Refusal::State(StateFault::Void);

// A catalogue with room for two clips.
fn start(alloc: Global, plan: &[u8]) -> Result<Catalogue, Fail> {
    Ok(Catalogue::start(plan, 2, Table::new(alloc, 2)?))
}

#[test]
fn void_refuses_each_call(rt: HostRuntime) -> Result<(), Fail> {
    let mut void = start(rt.alloc(), &[])?;
    assert!(rt; void.index.is_none());
    assert_eq!(rt; void.enter(7, &[1]), Err(VOID));
    let mut words = [5; 3];
    assert_eq!(rt; void.withdraw(7, &mut words), Err(VOID));
    assert_eq!(rt; words, [0; 3]);
    assert_eq!(rt; void.load(&[]), Err(VOID));
    let mut bytes = [9; 3];
    assert_eq!(rt; void.save(&mut bytes), Err(VOID));
    assert_eq!(rt; bytes, [9; 3]);
    Ok(())
}

#[test]
fn what_is_saved_loads(rt: HostRuntime) -> Result<(), Fail> {
    let mut open = start(rt.alloc(), &[2, 3])?;
    assert_eq!(rt; open.enter(7, &[1, 2]), Ok(()));
    assert_eq!(rt; open.enter(3, &[0, 1]), Ok(()));
    assert_eq!(rt;
        open.enter(9, &[0, 0]),
        Err(Refusal::State(StateFault::Full))
    );
    let mut file = [0; 17];
    assert_eq!(rt; open.save(&mut file), Ok(17));
    let mut other = start(rt.alloc(), &[2, 3])?;
    assert_eq!(rt; other.load(&file), Ok(2));
    let mut words = [5; 4];
    assert_eq!(rt; other.withdraw(7, &mut words), Ok(()));
    assert_eq!(rt; words, [0; 4]);
    assert_eq!(rt;
        other.withdraw(7, &mut words),
        Err(Refusal::State(StateFault::Missing))
    );
    Ok(())
}

#[test]
fn calls_as_far_as_there_is_room(rt: HostRuntime) -> Result<(), Fail> {
    let mut open = start(rt.alloc(), &[2])?;
    let calls = [
        Call::Withdraw { number: 7 },
        Call::Enter {
            number: 7,
            letters: [1].to_vec(rt.alloc())?,
        },
        Call::Withdraw { number: 7 },
    ];
    let mut answers = [None; 2];
    let mut words = [5; 2];
    assert_eq!(rt; open.replay(&calls, &mut answers, &mut words), 2);
    assert_eq!(rt; answers, [Some(Refusal::State(StateFault::Missing)), None]);
    assert_eq!(rt; words, [0; 2]);
    let mut count = Count::fresh();
    assert_eq!(rt; open.count(&mut count), Ok(()));
    assert_eq!(rt; count.number(0, 1), 1);
    Ok(())
}
