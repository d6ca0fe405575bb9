use grove_sorts::*;
use std::test::Fail;

#[test]
fn constructors_have_their_texts(rt: HostRuntime) -> Result<(), Fail> {
    let x = read_ident(Version::Two, b"x")
        .ok()
        .expect(&rt, "an identifier");
    for (ctor, text) in [
        (Ctor::Root, b"root".as_slice()),
        (Ctor::Var(x), b"var:x".as_slice()),
        (Ctor::Lam, b"lam".as_slice()),
        (Ctor::Ap, b"ap".as_slice()),
        (Ctor::Num(u64::MAX), b"num:18446744073709551615".as_slice()),
        (Ctor::Plus, b"plus".as_slice()),
        (Ctor::LitTrue, b"true".as_slice()),
        (Ctor::LitFalse, b"false".as_slice()),
        (Ctor::Choose, b"if".as_slice()),
        (Ctor::Pair, b"pair".as_slice()),
        (Ctor::Fst, b"fst".as_slice()),
        (Ctor::Snd, b"snd".as_slice()),
        (Ctor::PVar(x), b"pvar:x".as_slice()),
        (Ctor::TNum, b"tnum".as_slice()),
        (Ctor::TBool, b"tbool".as_slice()),
        (Ctor::TArrow, b"tarrow".as_slice()),
        (Ctor::TProd, b"tprod".as_slice()),
        (Ctor::Let, b"let".as_slice()),
        (Ctor::Inl, b"inl".as_slice()),
        (Ctor::Inr, b"inr".as_slice()),
        (Ctor::Case, b"case".as_slice()),
        (Ctor::TSum, b"tsum".as_slice()),
    ] {
        let mut out = Vec::new(rt.alloc());
        write_ctor(&ctor, &mut out)?;
        assert!(rt; out.as_slice() == text);
        assert!(rt; read_ctor(Version::Two, text) == Some(ctor));
    }
    Ok(())
}

#[test]
fn other_texts_are_of_no_constructor(rt: HostRuntime) {
    for text in [
        b"".as_slice(),
        b"var:".as_slice(),
        b"var:X".as_slice(),
        b"varx".as_slice(),
        b"num:".as_slice(),
        b"num:007".as_slice(),
        b"num:18446744073709551616".as_slice(),
        b"pvar:1".as_slice(),
        b"Lam".as_slice(),
        b"lam ".as_slice(),
        b"roo".as_slice(),
    ] {
        assert!(rt; read_ctor(Version::Two, text) == None);
    }
}

#[test]
fn positions_have_their_words(rt: HostRuntime) -> Result<(), Fail> {
    for (position, word) in [
        (Position::Main, b"main".as_slice()),
        (Position::Param, b"param".as_slice()),
        (Position::Annot, b"type".as_slice()),
        (Position::Def, b"def".as_slice()),
        (Position::Body, b"body".as_slice()),
        (Position::Fun, b"fun".as_slice()),
        (Position::Arg, b"arg".as_slice()),
        (Position::Left, b"left".as_slice()),
        (Position::Right, b"right".as_slice()),
        (Position::Test, b"cond".as_slice()),
        (Position::WhenTrue, b"then".as_slice()),
        (Position::WhenFalse, b"else".as_slice()),
        (Position::First, b"first".as_slice()),
        (Position::Second, b"second".as_slice()),
        (Position::Operand, b"of".as_slice()),
        (Position::Dom, b"from".as_slice()),
        (Position::Cod, b"to".as_slice()),
        (Position::On, b"on".as_slice()),
        (Position::LeftParam, b"lparam".as_slice()),
        (Position::LeftBody, b"lbody".as_slice()),
        (Position::RightParam, b"rparam".as_slice()),
        (Position::RightBody, b"rbody".as_slice()),
    ] {
        let mut out = Vec::new(rt.alloc());
        write_position(position, &mut out)?;
        assert!(rt; out.as_slice() == word);
        assert!(rt; read_position(Version::Two, word) == Some(position));
    }
    assert!(rt; read_position(Version::Two, b"Main") == None);
    Ok(())
}

#[test]
fn sorts_have_their_words(rt: HostRuntime) -> Result<(), Fail> {
    for (sort, word) in [
        (Sort::Top, b"top".as_slice()),
        (Sort::Exp, b"exp".as_slice()),
        (Sort::Pat, b"pat".as_slice()),
        (Sort::Typ, b"typ".as_slice()),
    ] {
        let mut out = Vec::new(rt.alloc());
        write_sort(sort, &mut out)?;
        assert!(rt; out.as_slice() == word);
    }
    Ok(())
}

#[test]
fn identifiers_are_as_long_as_their_version_allows(rt: HostRuntime) -> Result<(), Fail> {
    let of_32 = b"a2345678901234567890123456789_32";
    let of_33 = b"a2345678901234567890123456789_323";
    let of_64 = b"a2345678901234567890123456789_32_2345678901234567890123456789_64";
    let of_65 = b"a2345678901234567890123456789_32_2345678901234567890123456789_645";
    for (text, in_one, in_two) in [
        (b"a".as_slice(), true, true),
        (b"x_1".as_slice(), true, true),
        (of_32.as_slice(), true, true),
        (of_33.as_slice(), false, true),
        (of_64.as_slice(), false, true),
        (of_65.as_slice(), false, false),
        (b"".as_slice(), false, false),
        (b"1a".as_slice(), false, false),
        (b"_a".as_slice(), false, false),
        (b"aB".as_slice(), false, false),
        (b"a b".as_slice(), false, false),
    ] {
        assert!(rt; read_ident(Version::One, text).is_ok() == in_one);
        assert!(rt; read_ident(Version::Two, text).is_ok() == in_two);
    }
    let ident = read_ident(Version::Two, of_64)
        .ok()
        .expect(&rt, "an identifier");
    let mut out = Vec::new(rt.alloc());
    write_ident(&ident, &mut out)?;
    assert!(rt; out.as_slice() == of_64.as_slice());
    Ok(())
}

#[test]
fn version_one_has_no_let_and_no_sums(rt: HostRuntime) {
    for text in [
        b"let".as_slice(),
        b"inl".as_slice(),
        b"inr".as_slice(),
        b"case".as_slice(),
        b"tsum".as_slice(),
        b"var:a2345678901234567890123456789_323".as_slice(),
    ] {
        assert!(rt; read_ctor(Version::Two, text).is_some());
        assert!(rt; read_ctor(Version::One, text) == None);
    }
    for word in [
        b"def".as_slice(),
        b"on".as_slice(),
        b"lparam".as_slice(),
        b"lbody".as_slice(),
        b"rparam".as_slice(),
        b"rbody".as_slice(),
    ] {
        assert!(rt; read_position(Version::Two, word).is_some());
        assert!(rt; read_position(Version::One, word) == None);
    }
    assert!(rt; read_ctor(Version::One, b"tprod") == Some(Ctor::TProd));
    assert!(rt; read_position(Version::One, b"to") == Some(Position::Cod));
}

#[test]
fn rows_have_their_positions(rt: HostRuntime) {
    let lambda = Ctor::Lam;
    assert!(rt; sort_of(&lambda) == Sort::Exp);
    assert!(rt; sort_of(&Ctor::Root) == Sort::Top);
    assert!(rt; sort_of(&Ctor::TProd) == Sort::Typ);
    assert!(rt; position_count(&lambda) == 3);
    assert!(rt; position_at(&lambda, 1) == Some(Position::Annot));
    assert!(rt; position_at(&lambda, 3) == None);
    assert!(rt; position_sort(&lambda, Position::Annot) == Some(Sort::Typ));
    assert!(rt; position_sort(&lambda, Position::Left) == None);
    assert!(rt; first_position_of_sort(&Ctor::Choose, Sort::Exp) == Some(Position::Test));
    assert!(rt; first_position_of_sort(&Ctor::Choose, Sort::Pat) == None);
    assert!(rt; position_count(&Ctor::Case) == WIDEST);
    assert!(rt; position_at(&Ctor::Let, 1) == Some(Position::Def));
    assert!(rt; first_position_of_sort(&Ctor::Case, Sort::Pat) == Some(Position::LeftParam));
}

#[test]
fn constructors_are_ordered_by_number_and_then_payload(rt: HostRuntime) {
    let short = read_ident(Version::Two, b"a")
        .ok()
        .expect(&rt, "an identifier");
    let long = read_ident(Version::Two, b"ab")
        .ok()
        .expect(&rt, "an identifier");
    assert!(rt; Ctor::Root < Ctor::Var(short));
    assert!(rt; Ctor::Var(short) < Ctor::Var(long));
    assert!(rt; Ctor::Var(long) < Ctor::Lam);
    assert!(rt; Ctor::Num(9) < Ctor::Num(10));
    assert!(rt; Position::Annot < Position::Body);
}

// The constructor that a text spells, made from its spelling.
fn spelled_ctor(version: Version, text: &[u8]) -> Option<Ctor> {
    Some(read_spelled(version, text)?.ctor())
}

fn spelled_sort(text: &[u8]) -> Option<Sort> {
    Some(read_spelled(Version::Two, text)?.sort())
}

fn sort_as_read(text: &[u8]) -> Option<Sort> {
    Some(sort_of(&read_ctor(Version::Two, text)?))
}

#[test]
fn a_spelled_constructor_is_the_one_that_is_read(rt: HostRuntime) {
    for (text, sort) in [
        (b"root".as_slice(), Sort::Top),
        (b"lam".as_slice(), Sort::Exp),
        (b"tprod".as_slice(), Sort::Typ),
        (b"num:7".as_slice(), Sort::Exp),
        (b"var:x".as_slice(), Sort::Exp),
        (b"pvar:x".as_slice(), Sort::Pat),
    ] {
        assert!(rt; spelled_ctor(Version::Two, text) == read_ctor(Version::Two, text));
        assert!(rt; spelled_sort(text) == Some(sort));
        assert!(rt; sort_as_read(text) == Some(sort));
    }
    assert!(rt; spelled_ctor(Version::Two, b"num:7") == Some(Ctor::Num(7)));
}

#[test]
fn version_one_spells_neither_let_nor_long_identifiers(rt: HostRuntime) {
    for text in [
        b"let".as_slice(),
        b"var:a2345678901234567890123456789_323".as_slice(),
        b"pvar:a2345678901234567890123456789_323".as_slice(),
    ] {
        assert!(rt; read_spelled(Version::One, text).is_none());
        assert!(rt; read_spelled(Version::Two, text).is_some());
        assert!(rt; spelled_ctor(Version::Two, text) == read_ctor(Version::Two, text));
    }
}
