use lists_and_answers::Items;
use std::alloc::{AllocError, Global};
use std::test::*;

fn numbers(alloc: Global) -> Result<Items<u32>, AllocError> {
    let mut numbers = Items::new(alloc);
    for number in [3u32, 1, 2] {
        numbers.push(number)?;
    }
    Ok(numbers)
}

// Whether a list has 3, 1 and 2.
fn has_numbers(numbers: &Items<u32>) -> bool {
    !numbers.is_empty()
        && numbers.len() == 3
        && numbers.as_slice() == [3u32, 1, 2].as_slice()
        && numbers.as_slice().get(1) == Some(&1)
}

fn keeps_numbers(alloc: Global) -> bool {
    match numbers(alloc) {
        Ok(numbers) => has_numbers(&numbers),
        Err(_) => false,
    }
}

fn begins_empty(alloc: Global) -> bool {
    let numbers: Items<u32> = Items::new(alloc);
    numbers.is_empty()
}

#[test]
fn numbers_in_order(rt: HostRuntime) {
    assert!(rt; begins_empty(rt.alloc()) && keeps_numbers(rt.alloc()));
}

// Whether a list of one text has that text.
fn has_text(alloc: Global) -> Result<bool, AllocError> {
    let mut texts: Items<String> = Items::new(alloc);
    texts.push(String::from_str(alloc, "a")?)?;
    Ok(texts.len() == 1 && texts.get(0).as_str() == "a")
}

#[test]
fn an_item_at_a_place(rt: HostRuntime) -> Result<(), Fail> {
    assert!(rt; has_text(rt.alloc())?);
    Ok(())
}
