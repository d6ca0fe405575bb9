use grove_names::Name;
use numbers_by_name::*;
use std::alloc::Global;
use std::test::Fail;

fn name(author: u32, counter: u64) -> Name {
    Name { author, counter }
}

#[test]
fn numbers_stand_in_the_order_in_which_they_were_added(rt: HostRuntime) -> Result<(), Fail> {
    let mut numbers = NumbersByName::new(rt.alloc());
    assert!(rt; numbers.with_name(name(1, 5)) == [].as_slice());
    numbers.add(name(1, 5), 9)?;
    numbers.add(name(2, 5), 4)?;
    numbers.add(name(1, 5), 3)?;
    assert!(rt; numbers.with_name(name(1, 5)) == [9, 3].as_slice());
    assert!(rt; numbers.with_name(name(2, 5)) == [4].as_slice());
    assert!(rt; numbers.with_name(name(1, 4)) == [].as_slice());
    assert!(rt; numbers.with_name(name(1, 6)) == [].as_slice());
    Ok(())
}

#[test]
fn the_last_counter_of_an_author_is_found(rt: HostRuntime) -> Result<(), Fail> {
    let mut numbers = NumbersByName::new(rt.alloc());
    for (at, number) in [
        (name(3, 7), 0),
        (name(3, 2), 1),
        (name(u32::MAX, 1), 2),
        (name(3, 7), 3),
    ] {
        numbers.add(at, number)?;
    }
    assert!(rt; numbers.last_before(3, None) == Some((7, [0, 3].as_slice())));
    assert!(rt; numbers.last_before(3, Some(8)) == Some((7, [0, 3].as_slice())));
    assert!(rt; numbers.last_before(3, Some(7)) == Some((2, [1].as_slice())));
    assert!(rt; numbers.last_before(3, Some(2)) == None);
    assert!(rt; numbers.last_before(4, None) == None);
    assert!(rt; numbers.last_before(u32::MAX, None) == Some((1, [2].as_slice())));
    assert!(rt; numbers.last_before(0, None) == None);
    Ok(())
}

#[test]
fn all_numbers_stand_in_the_order_of_their_names(rt: HostRuntime) -> Result<(), Fail> {
    let alloc = rt.alloc();
    let mut numbers = NumbersByName::new(alloc);
    for (at, number) in [
        (name(2, 1), 5),
        (name(1, 9), 6),
        (name(1, 2), 7),
        (name(1, 9), 0),
    ] {
        numbers.add(at, number)?;
    }
    assert!(rt; numbers.in_order(alloc)?.as_slice() == [7, 6, 0, 5].as_slice());
    Ok(())
}

#[test]
fn counters_of_two_authors_ascend_side_by_side(rt: HostRuntime) -> Result<(), Fail> {
    let alloc = rt.alloc();
    let mut numbers = NumbersByName::new(alloc);
    for (at, number) in [
        (name(1, 1), 0),
        (name(2, 1), 1),
        (name(1, 2), 2),
        (name(2, 2), 3),
    ] {
        numbers.add(at, number)?;
    }
    assert!(rt; numbers.with_name(name(1, 2)) == [2].as_slice());
    assert!(rt; numbers.with_name(name(2, 1)) == [1].as_slice());
    assert!(rt; numbers.in_order(alloc)?.as_slice() == [0, 2, 1, 3].as_slice());
    Ok(())
}

// Counters 2 and 6 come after a greater one.
fn out_of_order(alloc: Global) -> Result<NumbersByName, NoMemory> {
    let mut numbers = NumbersByName::new(alloc);
    for (at, number) in [
        (name(1, 4), 0),
        (name(1, 8), 1),
        (name(1, 2), 2),
        (name(1, 6), 3),
    ] {
        numbers.add(at, number)?;
    }
    Ok(numbers)
}

#[test]
fn a_counter_that_comes_late_is_found(rt: HostRuntime) -> Result<(), Fail> {
    let numbers = out_of_order(rt.alloc())?;
    assert!(rt; numbers.with_name(name(1, 2)) == [2].as_slice());
    assert!(rt; numbers.with_name(name(1, 4)) == [0].as_slice());
    assert!(rt; numbers.with_name(name(1, 6)) == [3].as_slice());
    assert!(rt; numbers.with_name(name(1, 7)) == [].as_slice());
    assert!(rt; numbers.with_name(name(1, 9)) == [].as_slice());
    Ok(())
}

#[test]
fn a_second_number_stands_behind_the_first(rt: HostRuntime) -> Result<(), Fail> {
    let mut numbers = out_of_order(rt.alloc())?;
    numbers.add(name(1, 4), 7)?;
    numbers.add(name(1, 6), 9)?;
    assert!(rt; numbers.with_name(name(1, 4)) == [0, 7].as_slice());
    assert!(rt; numbers.with_name(name(1, 6)) == [3, 9].as_slice());
    Ok(())
}

#[test]
fn counters_that_come_late_stand_in_order(rt: HostRuntime) -> Result<(), Fail> {
    let alloc = rt.alloc();
    let numbers = out_of_order(alloc)?;
    assert!(rt; numbers.in_order(alloc)?.as_slice() == [2, 0, 3, 1].as_slice());
    Ok(())
}

#[test]
fn the_last_counter_before_a_bound_may_have_come_late(rt: HostRuntime) -> Result<(), Fail> {
    let numbers = out_of_order(rt.alloc())?;
    assert!(rt; numbers.last_before(1, None) == Some((8, [1].as_slice())));
    assert!(rt; numbers.last_before(1, Some(7)) == Some((6, [3].as_slice())));
    assert!(rt; numbers.last_before(1, Some(6)) == Some((4, [0].as_slice())));
    assert!(rt; numbers.last_before(1, Some(3)) == Some((2, [2].as_slice())));
    assert!(rt; numbers.last_before(1, Some(2)) == None);
    Ok(())
}

// Counters on one page and far apart, each after the greater ones.
fn descending(alloc: Global) -> Result<NumbersByName, NoMemory> {
    let mut numbers = NumbersByName::new(alloc);
    for (at, number) in [
        (name(7, u64::MAX), 1),
        (name(7, 1 << 40), 2),
        (name(7, 66), 3),
        (name(7, 65), 4),
        (name(7, 63), 5),
        (name(7, 0), 6),
    ] {
        numbers.add(at, number)?;
    }
    Ok(numbers)
}

#[test]
fn counters_may_come_in_any_order_and_lie_far_apart(rt: HostRuntime) -> Result<(), Fail> {
    let alloc = rt.alloc();
    let numbers = descending(alloc)?;
    assert!(rt; numbers.with_name(name(7, u64::MAX)) == [1].as_slice());
    assert!(rt; numbers.with_name(name(7, 65)) == [4].as_slice());
    assert!(rt; numbers.with_name(name(7, 64)) == [].as_slice());
    assert!(rt; numbers.with_name(name(7, 63)) == [5].as_slice());
    assert!(rt; numbers.with_name(name(8, 63)) == [].as_slice());
    assert!(rt; numbers.in_order(alloc)?.as_slice() == [6, 5, 4, 3, 2, 1].as_slice());
    Ok(())
}

#[test]
fn the_last_counter_before_a_bound_may_be_far_from_it(rt: HostRuntime) -> Result<(), Fail> {
    let numbers = descending(rt.alloc())?;
    assert!(rt; numbers.last_before(7, None) == Some((u64::MAX, [1].as_slice())));
    assert!(rt; numbers.last_before(7, Some(u64::MAX)) == Some((1 << 40, [2].as_slice())));
    assert!(rt; numbers.last_before(7, Some(65)) == Some((63, [5].as_slice())));
    assert!(rt; numbers.last_before(7, Some(63)) == Some((0, [6].as_slice())));
    assert!(rt; numbers.last_before(7, Some(0)) == None);
    Ok(())
}

#[test]
fn several_numbers_leave_their_neighbours_alone(rt: HostRuntime) -> Result<(), Fail> {
    let alloc = rt.alloc();
    let mut numbers = descending(alloc)?;
    for number in 10..16 {
        numbers.add(name(7, 65), number)?;
    }
    assert!(rt; numbers.with_name(name(7, 65)) == [4, 10, 11, 12, 13, 14, 15].as_slice());
    assert!(rt; numbers.with_name(name(7, 66)) == [3].as_slice());
    assert!(rt;
        numbers.in_order(alloc)?.as_slice() == [6, 5, 4, 10, 11, 12, 13, 14, 15, 3, 2, 1].as_slice()
    );
    Ok(())
}
