use ctx_table::{CtxId, CtxTable};
use grove_sorts::{Ident, IdentFault, Version, read_ident};
use std::alloc::Global;
use std::test::Fail;
use type_core::{NoMemory, TypeId, TypeTable};

fn name(text: &[u8]) -> Result<Ident, IdentFault> {
    read_ident(Version::Two, text)
}

fn num_and_boolean(alloc: Global) -> Result<(TypeId, TypeId), NoMemory> {
    let types = TypeTable::new(alloc)?;
    Ok((types.num(), types.boolean()))
}

// The types of x and of y in a context, and of y in the one that it stands in. That one binds x to a number, and the inner one y to a number and x to a truth value.
fn looked_up(
    table: &mut CtxTable,
    num: TypeId,
    boolean: TypeId,
) -> Result<[Option<TypeId>; 3], Fail> {
    let x = name(b"x")?;
    let y = name(b"y")?;
    let empty = table.empty();
    let outer = table.extend(empty, x, num)?;
    let middle = table.extend(outer, y, num)?;
    let inner = table.extend(middle, x, boolean)?;
    Ok([
        table.look_up(inner, &x),
        table.look_up(inner, &y),
        table.look_up(outer, &y),
    ])
}

#[test]
fn the_innermost_binding_is_found(rt: HostRuntime) -> Result<(), Fail> {
    let (num, boolean) = num_and_boolean(rt.alloc())?;
    let mut table = CtxTable::new(rt.alloc())?;
    let [x, y, y_outside] = looked_up(&mut table, num, boolean)?;
    assert!(rt; x == Some(boolean));
    assert!(rt; y == Some(num));
    assert!(rt; y_outside == None);
    Ok(())
}

// The numbers of the contexts that bind x to a number, to a truth value, and to a number again.
fn numbers(table: &mut CtxTable, num: TypeId, boolean: TypeId) -> Result<[CtxId; 3], Fail> {
    let x = name(b"x")?;
    let empty = table.empty();
    let first = table.extend(empty, x, num)?;
    let other = table.extend(empty, x, boolean)?;
    let second = table.extend(empty, x, num)?;
    Ok([first, other, second])
}

#[test]
fn a_context_has_one_number(rt: HostRuntime) -> Result<(), Fail> {
    let (num, boolean) = num_and_boolean(rt.alloc())?;
    let mut table = CtxTable::new(rt.alloc())?;
    let [first, other, second] = numbers(&mut table, num, boolean)?;
    assert!(rt; first == second);
    assert!(rt; first != other);
    Ok(())
}
