// What the examples begin with. It knows nothing of what they try.
use awl::names::{BlockKind, BlockName};
use awl::statements::Statement;
use std::alloc::Global;
use std::test::Fail;
use store::store::Store;

// A store of a number over tables of the least length, whose words are all this one at first.
pub(crate) fn opened(heap: Global, number: u32, word: u16) -> Result<Store, Fail> {
    let statements = vec![in heap; Statement::Stop; 8160]?;
    let words = vec![in heap; word; 4096]?;
    let Ok(store) = Store::open(number, statements, words) else {
        return Err(Fail::new("tables of the least length are taken"));
    };
    Ok(store)
}

pub(crate) fn program(number: u8) -> BlockName {
    BlockName {
        kind: BlockKind::Program,
        number,
    }
}

// Writes the text under the name; a refusal is told by the number by which users know it.
pub(crate) fn write(store: &mut Store, name: BlockName, text: &[u8]) -> Result<(), u8> {
    store
        .write(name, text)
        .map_err(|refused| refused.refusal().number())
}
