ghost use Rattle.std.specs.Prelude.{IfOk};
ghost use Rattle.type_core.specs.TypeTable.{IsTypeOf, KeepsTypes};

use std::alloc::Global;
use std::test::Fail;
use type_core::{NoMemory, TypeId, TypeTable};

// The product of a type with itself, of that product with itself, and so on.
fn doubled(table: &mut TypeTable, from: TypeId, times: u32) -> Result<TypeId, NoMemory>
    requires { IsTypeOf table.old from }
    ensures number { IfOk result (IsTypeOf table.new) }
    ensures kept { KeepsTypes table.old table.new }
{
    let mut t = from;
    for _i in 0..times {
        t = table.product(t, t)?;
    }
    Ok(t)
}

// The function from a type to numbers, from that function to numbers, and so on.
fn chain(table: &mut TypeTable, from: TypeId, times: u32) -> Result<TypeId, NoMemory>
    requires { IsTypeOf table.old from }
    ensures number { IfOk result (IsTypeOf table.new) }
    ensures kept { KeepsTypes table.old table.new }
{
    let mut t = from;
    for _i in 0..times {
        let num = table.num();
        t = table.arrow(t, num)?;
    }
    Ok(t)
}

// The type of functions of numbers, made twice.
fn arrows(table: &mut TypeTable) -> Result<[TypeId; 2], NoMemory> {
    let num = table.num();
    let first = table.arrow(num, num)?;
    let second = table.arrow(num, num)?;
    Ok([first, second])
}

#[test]
fn a_type_has_one_number(rt: HostRuntime) -> Result<(), Fail> {
    let mut table = TypeTable::new(rt.alloc())?;
    let [first, second] = arrows(&mut table)?;
    assert!(rt; second == first);
    let unknown = table.unknown();
    assert!(rt; unknown != table.num());
    Ok(())
}

// What is found of three types, in the order in which it is found.
#[derive(Clone, Copy)]
struct Found {
    meet: Option<TypeId>,
    no_meet: Option<TypeId>,
    related: bool,
    // What was found before is found again.
    related_again: bool,
    meet_again: Option<TypeId>,
}

// What is found of a type, of another that it has a meet with, and of a third that has one with that alone.
fn find_all(
    alloc: Global,
    table: &mut TypeTable,
    t: TypeId,
    u: TypeId,
    v: TypeId,
) -> Result<Found, NoMemory>
    requires t { IsTypeOf table.old t }
    requires u { IsTypeOf table.old u }
    requires v { IsTypeOf table.old v }
{
    let meet = table.meet(alloc, t, u)?;
    let no_meet = table.meet(alloc, t, v)?;
    let related = table.relate(alloc, u, v)?;
    let related_again = table.relate(alloc, t, v)?;
    let meet_again = table.meet(alloc, t, u)?;
    Ok(Found {
        meet,
        no_meet,
        related,
        related_again,
        meet_again,
    })
}

// The product of numbers that is doubled forty times, and what is found of it, of the unknown type and of truth values doubled as often.
fn find_in_doubled(alloc: Global, table: &mut TypeTable) -> Result<(TypeId, Found), NoMemory> {
    let num = table.num();
    let t = doubled(table, num, 40)?;
    let unknown = table.unknown();
    let u = doubled(table, unknown, 40)?;
    let boolean = table.boolean();
    let v = doubled(table, boolean, 40)?;
    let found = find_all(alloc, table, t, u, v)?;
    Ok((t, found))
}

#[test]
fn shared_parts_are_met_once(rt: HostRuntime) -> Result<(), Fail> {
    let mut table = TypeTable::new(rt.alloc())?;
    let (t, found) = find_in_doubled(rt.alloc(), &mut table)?;
    assert!(rt; found.meet == Some(t));
    assert!(rt; found.no_meet == None);
    assert!(rt; found.related == true);
    assert!(rt; found.related_again == false);
    assert!(rt; found.meet_again == Some(t));
    Ok(())
}

// The meet of the functions of so many steps from two types. Types of some hundred steps have landmarks among their parts.
fn meet_of_chains(
    alloc: Global,
    table: &mut TypeTable,
    from: TypeId,
    other: TypeId,
    times: u32,
) -> Result<Option<TypeId>, NoMemory>
    requires from { IsTypeOf table.old from }
    requires other { IsTypeOf table.old other }
{
    let t = chain(table, from, times)?;
    let u = chain(table, other, times)?;
    table.meet(alloc, t, u)
}

#[test]
fn long_types_are_met_from_each_of_their_ends_on(rt: HostRuntime) -> Result<(), Fail> {
    let mut table = TypeTable::new(rt.alloc())?;
    for times in 300..302 {
        let num = table.num();
        let t = chain(&mut table, num, times)?;
        let num = table.num();
        let unknown = table.unknown();
        assert!(rt; meet_of_chains(rt.alloc(), &mut table, unknown, num, times)? == Some(t));
    }
    Ok(())
}

#[test]
fn long_types_that_differ_at_their_ends_have_no_meet(rt: HostRuntime) -> Result<(), Fail> {
    let mut table = TypeTable::new(rt.alloc())?;
    for times in 300..302 {
        let num = table.num();
        let boolean = table.boolean();
        assert!(rt; meet_of_chains(rt.alloc(), &mut table, num, boolean, times)? == None);
    }
    Ok(())
}

// The parts that a type is matched by.
type Parts = Option<(TypeId, TypeId)>;

// The parts of a function from numbers to truth values, as a function and as a pair, and of a sum of truth values and numbers and of the unknown type, as sums.
fn matched_parts(table: &mut TypeTable) -> Result<[Parts; 4], NoMemory> {
    let arrow = table.arrow(table.num(), table.boolean())?;
    let sum = table.sum(table.boolean(), table.num())?;
    Ok([
        table.matched_arrow(arrow),
        table.matched_product(arrow),
        table.matched_sum(sum),
        table.matched_sum(table.unknown()),
    ])
}

#[test]
fn matched_forms_give_the_parts(rt: HostRuntime) -> Result<(), Fail> {
    let mut table = TypeTable::new(rt.alloc())?;
    let (num, boolean, unknown) = (table.num(), table.boolean(), table.unknown());
    let [arrow, product, sum, of_unknown] = matched_parts(&mut table)?;
    assert!(rt; arrow == Some((num, boolean)));
    assert!(rt; product == None);
    assert!(rt; sum == Some((boolean, num)));
    assert!(rt; of_unknown == Some((unknown, unknown)));
    Ok(())
}
