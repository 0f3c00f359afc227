//! The spellings of predicates and functions, and what they mean.
use crate::{FnFault, read_func, read_pair_pred, read_pred};
use arrayvec::ArrayVec;
use elem::{Elem, Word};

fn word(text: &str) -> Elem {
    match Word::new(text.as_bytes()) {
        Some(word) => Elem::Text(word),
        None => Elem::Int(0),
    }
}

#[test]
fn reads_predicates(rt: HostRuntime) {
    for (text, item, wanted) in [
        ("any", word("a"), true),
        ("any()", Elem::Int(1), true),
        ("any ( )", Elem::Int(1), true),
        ("isInt", word("a"), false),
        ("isInt()", Elem::Int(7), true),
        ("even", Elem::Int(-4), true),
        ("even", word("even"), false),
        ("odd()", Elem::Int(-3), true),
        ("lt(3)", Elem::Int(2), true),
        ("lt(3)", Elem::Int(3), false),
        ("lt( a )", Elem::Int(9), true),
        ("gt(a)", word("b"), true),
        ("gt(a)", Elem::Int(9), false),
        ("eq(b-1)", word("b-1"), true),
        ("eq(1)", Elem::Int(2), false),
        ("starts(ab)", word("abc"), true),
        ("starts(ab)", word("a"), false),
        ("starts(a)", Elem::Int(1), false),
        ("and(even, not(lt(-2)))", Elem::Int(4), true),
        ("and(even,not(lt(-2)))", Elem::Int(-4), false),
        ("or(odd, gt( 8 ))", Elem::Int(10), true),
        ("not ( any() )", Elem::Int(1), false),
    ] {
        match read_pred(text.as_bytes()) {
            Ok(pred) => assert!(rt; pred.lend().eval(item) == wanted, "{text}"),
            Err(fault) => assert!(rt; false, "{text}: {fault}"),
        }
    }
}

#[test]
fn reads_predicates_on_pairs(rt: HostRuntime) {
    for (text, wanted) in [
        ("key(even)", true),
        ("value(even)", false),
        ("and(key(even), value(starts(a)))", true),
        ("or(key(odd), value(eq(b)))", false),
        ("not(or(key(odd), value(isInt())))", true),
    ] {
        match read_pair_pred(text.as_bytes()) {
            Ok(pred) => assert!(rt;
                pred.lend().eval(Elem::Int(2), word("ab")) == wanted,
                "{text}"
            ),
            Err(fault) => assert!(rt; false, "{text}: {fault}"),
        }
    }
}

#[test]
fn reads_functions(rt: HostRuntime) {
    for (text, item, wanted) in [
        ("plus(1)", Elem::Int(4), Elem::Int(5)),
        ("plus(1)", word("a"), word("a")),
        ("times(-3)", Elem::Int(4), Elem::Int(-12)),
        ("neg", Elem::Int(4), Elem::Int(-4)),
        ("neg()", word("a"), word("a")),
        ("len", Elem::Int(-15), Elem::Int(3)),
        ("len()", word("abcd"), Elem::Int(4)),
        ("const(b-1)", Elem::Int(1), word("b-1")),
        ("prefix(x)", Elem::Int(-1), word("x-1")),
        ("then(plus(1), times(3))", Elem::Int(4), Elem::Int(15)),
        (
            "when(even, then(neg, len), const(0))",
            Elem::Int(4),
            Elem::Int(2),
        ),
        (
            "when( even ,then(neg,len), const( 0 ) )",
            Elem::Int(5),
            Elem::Int(0),
        ),
    ] {
        match read_func(text.as_bytes()) {
            Ok(func) => assert!(rt; func.lend().eval(item) == wanted, "{text}"),
            Err(fault) => assert!(rt; false, "{text}: {fault}"),
        }
    }
}

#[test]
fn refuses_what_is_not_in_the_language(rt: HostRuntime) {
    for text in [
        "",
        " ",
        "any any",
        " any",
        "any ",
        "any(1)",
        "any()()",
        "lt",
        "lt()",
        "lt(1, 2)",
        "lt(-0)",
        "lt(01)",
        "lt(any())",
        "plus(1)",
        "starts(1)",
        "starts(abcdefghijklmnopqrstuvwxy)",
        "and()",
        "and(any)",
        "and(any, any, any)",
        "and(any any)",
        "not(any",
        "not(any))",
        "key(any)",
        "Any",
        "any\t",
    ] {
        assert!(rt;
            matches!(read_pred(text.as_bytes()), Err(FnFault::NotGrammar)),
            "{text}"
        );
    }
    assert!(rt;
        matches!(read_pair_pred(b"even"), Err(FnFault::NotGrammar)),
        "a predicate on elements"
    );
    assert!(rt;
        matches!(read_func(b"then(neg, even)"), Err(FnFault::NotGrammar)),
        "a predicate in place of a function"
    );
}

fn nested(depth: usize) -> ArrayVec<u8, 1024> {
    let mut text = ArrayVec::new();
    for _ in 0..depth {
        let _ = text.try_extend_from_slice(b"not(");
    }
    let _ = text.try_extend_from_slice(b"any");
    for _ in 0..depth {
        let _ = text.try_extend_from_slice(b")");
    }
    text
}

#[test]
fn counts_the_parts(rt: HostRuntime) {
    match read_pred(nested(63).as_slice()) {
        Ok(pred) => assert!(rt; !pred.lend().eval(Elem::Int(1)), "64 parts"),
        Err(fault) => assert!(rt; false, "64 parts: {fault}"),
    }
    assert!(rt;
        matches!(read_pred(nested(64).as_slice()), Err(FnFault::TooLarge)),
        "65 parts"
    );
    assert!(rt;
        matches!(read_func(nested(64).as_slice()), Err(FnFault::NotGrammar)),
        "65 parts of no function"
    );
}
