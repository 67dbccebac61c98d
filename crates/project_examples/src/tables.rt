// A store by its rules: what is granted, what is refused and with which number, and what is held then.
use crate::samples::{opened, program, write};
use awl::refusals::Refusal;
use std::test::Fail;
use store::store::Store;

// Answers as they are told by the numbers by which users know refusals.
fn told(answer: Result<(), Refusal>) -> Result<(), u8> {
    answer.map_err(|refusal| refusal.number())
}

fn size(store: &Store, number: u8) -> usize {
    store
        .block(program(number))
        .map_or(0, |statements| statements.len())
}

// Writes blocks of one statement under the first numbers, and says whether each is granted.
fn fill(store: &mut Store, count: u8) -> bool {
    let mut granted = true;
    for number in 0..count {
        granted = write(store, program(number), b":BE\n").is_ok() && granted;
    }
    granted
}

#[test]
fn blocks_come_and_go(rt: HostRuntime) -> Result<(), Fail> {
    let mut store = opened(rt.alloc(), 3, 7)?;
    assert!(rt; store.number() == 3 && write(&mut store, program(1), b":BE\n") == Ok(()));
    assert!(rt; write(&mut store, program(2), b":O\n:O\n:BE\n") == Ok(()));
    assert!(rt;
        write(&mut store, program(1), b":O\n:BE\n") == Ok(()),
        "in place of the first"
    );
    assert!(rt; size(&store, 1) == 2 && store.block_count() == 2);
    assert!(rt;
        write(&mut store, program(1), b":BE\n:U X 0.0\n") == Err(3),
        "its second line"
    );
    assert!(rt; size(&store, 1) == 2, "a refused write keeps the block");
    assert!(rt;
        told(store.erase(program(1))) == Ok(()) && told(store.erase(program(1))) == Err(13)
    );
    assert!(rt;
        !store.holds(program(1)) && size(&store, 2) == 3,
        "the other block stays"
    );
    Ok(())
}

#[test]
fn thirty_two_blocks_have_a_place(rt: HostRuntime) -> Result<(), Fail> {
    let mut store = opened(rt.alloc(), 3, 7)?;
    assert!(rt; fill(&mut store, 32) && write(&mut store, program(32), b":BE\n") == Err(12));
    assert!(rt;
        write(&mut store, program(31), b":O\n:BE\n") == Ok(()),
        "a held block is replaced"
    );
    assert!(rt;
        told(store.erase(program(7))) == Ok(())
            && write(&mut store, program(32), b":O\n:O\n:BE\n") == Ok(())
    );
    assert!(rt;
        size(&store, 6) == 1 && size(&store, 8) == 1,
        "its neighbours stay"
    );
    assert!(rt; size(&store, 31) == 2 && size(&store, 32) == 3 && store.block_count() == 32);
    Ok(())
}

// Lays data blocks of 256 words from number 1 on, and says whether each is granted.
fn lay_some(store: &mut Store, count: u8) -> bool {
    let mut granted = true;
    for number in 1..count {
        granted = told(store.lay(number, 256)) == Ok(()) && granted;
    }
    granted
}

#[test]
fn sixteen_data_blocks_have_a_place(rt: HostRuntime) -> Result<(), Fail> {
    let mut store = opened(rt.alloc(), 3, 7)?;
    assert!(rt; told(store.lay(0, 0)) == Err(7) && told(store.lay(0, 257)) == Err(7));
    assert!(rt; told(store.lay(0, 1)) == Ok(()) && told(store.lay(0, 2)) == Err(14));
    assert!(rt;
        lay_some(&mut store, 16) && told(store.lay(15, 1)) == Err(14),
        "14 before 12"
    );
    assert!(rt; told(store.lay(16, 1)) == Err(12) && store.lays(15) && !store.lays(16));
    assert_eq!(rt; store.word(0, 0), Some(0));
    assert_eq!(rt; store.word(0, 1), None);
    assert_eq!(rt; store.word(15, 255), Some(0));
    assert_eq!(rt; store.word(16, 0), None);
    Ok(())
}
