//! Lines that are plain, and lines that are not. No clause says that a plain line is taken as one.

use read_lines::{PlainLine, Scratch};
use serde_json::Value;
use std::test::Fail;

#[test]
fn a_set_is_taken(rt: HostRuntime) -> Result<(), Fail> {
    let mut scratch = Scratch::new(rt.alloc());
    let line = PlainLine::read(rt.alloc(), "{\"set\":[\"a\",\"b\",true]}", &mut scratch)?;
    assert!(rt;
        matches!(
            line,
            Some(PlainLine::Set {
                id: "a",
                name: "b",
                value: Value::Bool(true)
            })
        )
    );
    Ok(())
}

#[test]
fn a_get_with_an_escape_is_taken(rt: HostRuntime) -> Result<(), Fail> {
    let mut scratch = Scratch::new(rt.alloc());
    let line = PlainLine::read(
        rt.alloc(),
        " { \"get\" : [ \"\\u0061\", \"b\" ] } ",
        &mut scratch,
    )?;
    assert!(rt; matches!(line, Some(PlainLine::Get { id: "a", name: "b" })));
    Ok(())
}

#[test]
fn a_release_is_taken(rt: HostRuntime) -> Result<(), Fail> {
    let mut scratch = Scratch::new(rt.alloc());
    let line = PlainLine::read(rt.alloc(), "{\"release\":\"a\"}", &mut scratch)?;
    assert!(rt; matches!(line, Some(PlainLine::Release { id: "a" })));
    Ok(())
}

#[test]
fn an_emission_is_taken(rt: HostRuntime) -> Result<(), Fail> {
    let mut scratch = Scratch::new(rt.alloc());
    let line = PlainLine::read(
        rt.alloc(),
        "{\"emit\":[\"a\",\"b\",[-1,\"c\"]]}",
        &mut scratch,
    )?;
    assert!(rt;
        matches!(
            line,
            Some(PlainLine::Emit {
                id: "a",
                name: "b",
                ..
            })
        )
    );
    Ok(())
}

#[test]
fn a_turn_is_taken(rt: HostRuntime) -> Result<(), Fail> {
    let mut scratch = Scratch::new(rt.alloc());
    let line = PlainLine::read(rt.alloc(), "{\"turn\":16}", &mut scratch)?;
    assert!(rt; matches!(line, Some(PlainLine::Turn { .. })));
    Ok(())
}

#[test]
fn other_lines_are_left(rt: HostRuntime) -> Result<(), Fail> {
    let mut scratch = Scratch::new(rt.alloc());
    for text in [
        "{\"set\":[\"a\",\"b\",[1]]}",
        "{\"set\":[\"a\",\"b\",1e999]}",
        "{\"get\":[\"a\",\"b\"],\"set\":1}",
        "{\"emit\":[\"a\",\"b\",[],\"c\"]}",
        "{\"turn\":[1]}",
        "{\"turn\":1,\"turn\":2}",
        "{\"release\":\"a\"} 1",
    ] {
        let line = PlainLine::read(rt.alloc(), text, &mut scratch)?;
        assert!(rt; line.is_none(), "{text}");
    }
    Ok(())
}
