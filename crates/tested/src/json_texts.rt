//! What no contract says of single texts.

use json_trees::{ReadFault, Value};
use std::test::Fail;

#[test]
fn the_last_of_a_key_counts(rt: HostRuntime) -> Result<(), Fail> {
    let value = Value::from_str(rt.alloc(), r#"{"b":[0,-1,2.5],"a":null,"b":[true,{}]}"#)?;
    let members = value.as_object().ok_or("object")?;
    assert_eq!(rt; members.len(), 2);
    assert!(rt; value.get("a").ok_or("a")?.is_null());
    let items = value.get("b").and_then(Value::as_array).ok_or("b")?;
    assert_eq!(rt; items.len(), 2);
    assert_eq!(rt; items.as_slice()[0].as_bool(), Some(true));
    Ok(())
}

#[test]
fn faults_differ(rt: HostRuntime) -> Result<(), Fail> {
    let fault = Value::from_str(rt.alloc(), "[1e999]").err();
    assert_eq!(rt; fault, Some(ReadFault::NotJson));
    let fault = Value::from_str(rt.alloc(), "[0]]").err();
    assert_eq!(rt; fault, Some(ReadFault::NotJson));
    Ok(())
}
