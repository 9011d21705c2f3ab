//! A call of each method of each of the three example peers.

ghost use Rattle.std.specs.Prelude.{IsTrue, map, slice_get};
ghost use Rattle.g_values.specs.View.{value_view};
ghost use Rattle.native_peers.specs.Moves.{MethodTakes};
ghost use Rattle.example_peers.specs.Bells.{bell_shape};
ghost use Rattle.example_peers.specs.Numbers.{numbers_shape};
ghost use Rattle.example_peers.specs.Texts.{texts_shape};

use example_peers::{Bell, Numbers, Texts};
use g_values::Value;
use native_peers::{Peer, PeerFault};
use std::rc::RcStr;
use std::test::Fail;

// Rings an open bell.
fn ring(bell: &mut Bell) -> Result<Value, PeerFault>
    requires open { IsTrue (⟦<Bell as Peer>⟧.state bell.now).is_open }
{
    bell.invoke(0, &[])
}

// Calls a method of open numbers.
fn ask_numbers(numbers: &mut Numbers, method: usize, args: &[Value]) -> Result<Value, PeerFault>
    requires open { IsTrue (⟦<Numbers as Peer>⟧.state numbers.now).is_open }
    requires args { MethodTakes (slice_get numbers_shape method) (map value_view args.now) }
    ensures { IsTrue (⟦<Numbers as Peer>⟧.state numbers.new).is_open }
{
    numbers.invoke(method, args)
}

// Calls a method of open texts.
fn ask_texts(texts: &mut Texts, method: usize, args: &[Value]) -> Result<Value, PeerFault>
    requires open { IsTrue (⟦<Texts as Peer>⟧.state texts.now).is_open }
    requires args { MethodTakes (slice_get texts_shape method) (map value_view args.now) }
    ensures { IsTrue (⟦<Texts as Peer>⟧.state texts.new).is_open }
{
    texts.invoke(method, args)
}

#[test]
fn a_bell_rings(rt: HostRuntime) -> Result<(), Fail> {
    let mut bell = Bell::new(rt.alloc())?;
    assert!(rt; matches!(ring(&mut bell), Ok(Value::Bool(true))));
    assert!(rt; bell.counts() == (1, 0));
    Ok(())
}

#[test]
fn numbers_divide_where_they_can(rt: HostRuntime) -> Result<(), Fail> {
    let mut numbers = Numbers::new(rt.alloc())?;
    assert!(rt;
        matches!(
            ask_numbers(&mut numbers, 0, &[Value::Int64(-7), Value::Int64(2)]),
            Ok(Value::Int64(-3))
        )
    );
    assert!(rt;
        matches!(
            ask_numbers(&mut numbers, 1, &[Value::Int64(-7), Value::Int64(2)]),
            Ok(Value::Int64(-1))
        )
    );
    assert!(rt; ask_numbers(&mut numbers, 0, &[Value::Int64(1), Value::Int64(0)]).is_err());
    assert!(rt; ask_numbers(&mut numbers, 1, &[Value::Int64(i64::MIN), Value::Int64(-1)]).is_err());
    assert!(rt; numbers.counts() == (4, 2));
    Ok(())
}

#[test]
fn texts_are_measured_and_read(rt: HostRuntime) -> Result<(), Fail> {
    let mut texts = Texts::new(rt.alloc())?;
    let price = RcStr::from_str(rt.alloc(), "-042")?;
    assert!(rt;
        matches!(
            ask_texts(&mut texts, 1, &[Value::Text(Some(price))]),
            Ok(Value::Int64(-42))
        )
    );
    assert!(rt;
        matches!(
            ask_texts(&mut texts, 0, &[Value::Text(None)]),
            Ok(Value::UInt64(0))
        )
    );
    assert!(rt; ask_texts(&mut texts, 1, &[Value::Text(None)]).is_err());
    assert!(rt; texts.counts() == (3, 1));
    Ok(())
}
