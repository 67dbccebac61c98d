// Projects at the limits of the check: brackets open, and calls nested. It knows nothing of how they are walked.
use crate::samples::{opened, program, write};
use awl::names::{BlockKind, BlockName};
use checker::check::check as judge;
use std::alloc::{AllocError, Global};
use std::process::Abort;
use std::test::Fail;
use store::store::Store;
use walk::places::Place;

const OB_1: BlockName = BlockName {
    kind: BlockKind::Organisation,
    number: 1,
};

// Whether this is the verdict on the store: a pass, or the first fault by block, statement and number.
fn judges(
    heap: Global,
    store: &Store,
    expected: Result<(), (BlockName, u8, u8)>,
) -> Result<bool, Fail> {
    let blank = Place {
        statement: 0,
        brackets: 0,
    };
    let mut places = vec![in heap; blank; 1530]?;
    let Ok(verdict) = judge(store, places.as_mut_slice()) else {
        return Err(Fail::new("refused"));
    };
    let told = verdict.map_err(|f| (f.block, f.statement, f.fault.number()));
    Ok(told == expected)
}

// Brackets opened one in another, a query, and the brackets closed.
fn brackets(heap: Global, count: u8) -> Result<String, AllocError> {
    let mut text = String::new(heap);
    for _ in 0..count {
        text.push_str(":U(\n")?;
    }
    text.push_str(":U E 0.0\n")?;
    for _ in 0..count {
        text.push_str(":)\n")?;
    }
    text.push_str(":BE\n")?;
    Ok(text)
}

// OB 1 calls PB 1, that PB 2, and so on: so many calls nested.
fn nested(rt: &impl Abort, heap: Global, store: &mut Store, calls: u8) -> Result<(), Fail> {
    assert_eq!(rt; write(store, OB_1, b":SPA PB 1\n:BE"), Ok(()));
    for i in 1..calls {
        let next = i.saturating_add(1);
        let text = format!(in heap; ":SPA PB {next}\n:BE")?;
        assert_eq!(rt; write(store, program(i), text.as_bytes()), Ok(()));
    }
    assert_eq!(rt; write(store, program(calls), b":BE"), Ok(()));
    Ok(())
}

#[test]
fn five_brackets_and_ten_calls_pass(rt: HostRuntime) -> Result<(), Fail> {
    let heap = rt.alloc();
    let mut store = opened(heap, 7, 0)?;
    assert!(rt; judges(heap, &store, Err((OB_1, 0, 9)))?, "no OB 1");
    assert_eq!(rt;
        write(&mut store, OB_1, brackets(heap, 5)?.as_bytes()),
        Ok(())
    );
    assert!(rt; judges(heap, &store, Ok(()))?, "five brackets");
    assert_eq!(rt;
        write(&mut store, OB_1, brackets(heap, 6)?.as_bytes()),
        Ok(())
    );
    assert!(rt; judges(heap, &store, Err((OB_1, 6, 3)))?, "six brackets");
    nested(&rt, heap, &mut store, 10)?;
    assert!(rt; judges(heap, &store, Ok(()))?, "ten calls");
    nested(&rt, heap, &mut store, 11)?;
    assert!(rt;
        judges(heap, &store, Err((program(10), 1, 8)))?,
        "eleven calls"
    );
    Ok(())
}
