//! Calls of each method of the two kinds of peers, and additions of peers to a pool.

ghost use Rattle.std.specs.Prelude.{IsTrue, map, slice_get};
ghost use Rattle.g_values.specs.View.{value_view};
ghost use Rattle.native_peers.specs.Moves.{MethodTakes};
ghost use Rattle.host_peers.specs.Screens.{screen_shape};
ghost use Rattle.host_peers.specs.Tallies.{tally_shape};

use g_values::Value;
use host_peers::{MOST_LINE_BYTES, Screen, Tally, put};
use native_peers::{Peer, PeerFault, PeerPool};
use std::rc::RcStr;
use std::test::Fail;

// Calls a method of an open tally.
fn ask_tally(tally: &mut Tally, method: usize, args: &[Value]) -> Result<Value, PeerFault>
    requires open { IsTrue (⟦<Tally as Peer>⟧.state tally.now).is_open }
    requires args { MethodTakes (slice_get tally_shape method) (map value_view args.now) }
    ensures { IsTrue (⟦<Tally as Peer>⟧.state tally.new).is_open }
{
    tally.invoke(method, args)
}

// Calls a method of an open screen.
fn ask_screen(screen: &mut Screen, method: usize, args: &[Value]) -> Result<Value, PeerFault>
    requires open { IsTrue (⟦<Screen as Peer>⟧.state screen.now).is_open }
    requires args { MethodTakes (slice_get screen_shape method) (map value_view args.now) }
    ensures { IsTrue (⟦<Screen as Peer>⟧.state screen.new).is_open }
{
    screen.invoke(method, args)
}

#[test]
fn a_tally_adds_and_goes_round(rt: HostRuntime) -> Result<(), Fail> {
    let mut tally = Tally::new(rt.alloc())?;
    assert!(rt;
        matches!(
            ask_tally(&mut tally, 0, &[Value::Int64(i64::MAX)]),
            Ok(Value::Int64(i64::MAX))
        )
    );
    assert!(rt;
        matches!(
            ask_tally(&mut tally, 0, &[Value::Int64(1)]),
            Ok(Value::Int64(i64::MIN))
        )
    );
    assert!(rt; matches!(ask_tally(&mut tally, 1, &[]), Ok(Value::Int64(i64::MIN))));
    assert_eq!(rt; tally.counts(), (3, 0));
    Ok(())
}

#[test]
fn a_screen_keeps_lines(rt: HostRuntime) -> Result<(), Fail> {
    let mut screen = Screen::new(rt.alloc())?;
    let text = RcStr::from_str(rt.alloc(), "a line")?;
    assert!(rt;
        matches!(
            ask_screen(&mut screen, 0, &[Value::Text(Some(text))]),
            Ok(Value::UInt(1))
        )
    );
    let long = RcStr::from_string("x".repeat(rt.alloc(), MOST_LINE_BYTES + 1)?)?;
    assert!(rt; ask_screen(&mut screen, 0, &[Value::Text(Some(long))]).is_err());
    let Ok(Value::Text(Some(line))) = ask_screen(&mut screen, 1, &[Value::UInt(0)]) else {
        return Err("no line")?;
    };
    assert_eq!(rt; line.as_str(), "a line");
    assert!(rt;
        matches!(
            ask_screen(&mut screen, 1, &[Value::UInt(1)]),
            Ok(Value::Text(None))
        )
    );
    assert_eq!(rt; screen.counts(), (4, 1));
    Ok(())
}

#[test]
fn another_tally_is_new(rt: HostRuntime) -> Result<(), Fail> {
    let mut tally = Tally::new(rt.alloc())?;
    assert!(rt; ask_tally(&mut tally, 0, &[Value::Int64(5)]).is_ok());
    let mut other = tally.another()?;
    assert!(rt; matches!(ask_tally(&mut other, 1, &[]), Ok(Value::Int64(0))));
    assert_eq!(rt; other.shape().len(), 2);
    assert_eq!(rt; other.counts(), (1, 0));
    Ok(())
}

#[test]
fn another_screen_is_new(rt: HostRuntime) -> Result<(), Fail> {
    let mut screen = Screen::new(rt.alloc())?;
    assert!(rt; ask_screen(&mut screen, 0, &[Value::Text(None)]).is_ok());
    let mut other = screen.another()?;
    assert!(rt;
        matches!(
            ask_screen(&mut other, 0, &[Value::Text(None)]),
            Ok(Value::UInt(1))
        )
    );
    assert_eq!(rt; other.shape().len(), 2);
    assert_eq!(rt; screen.counts(), (1, 0));
    Ok(())
}

#[test]
fn a_closed_screen_keeps_its_counts(rt: HostRuntime) -> Result<(), Fail> {
    let mut screen = Screen::new(rt.alloc())?;
    let text = RcStr::from_str(rt.alloc(), "a line")?;
    assert!(rt; ask_screen(&mut screen, 0, &[Value::Text(Some(text))]).is_ok());
    screen.close();
    assert!(rt; !screen.is_open());
    assert_eq!(rt; screen.counts(), (1, 0));
    Ok(())
}

#[test]
fn a_pool_takes_one_of_a_name(rt: HostRuntime) -> Result<(), Fail> {
    let mut pool = PeerPool::new(rt.alloc());
    let tally = Box::new(rt.alloc(), Tally::new(rt.alloc())?)?;
    put(&mut pool, "sum", tally)?;
    let screen = Box::new(rt.alloc(), Screen::new(rt.alloc())?)?;
    put(&mut pool, "log", screen)?;
    let second = Box::new(rt.alloc(), Screen::new(rt.alloc())?)?;
    put(&mut pool, "sum", second)?;
    assert_eq!(rt; pool.left(), 2);
    assert_eq!(rt; pool.find("sum"), Some(0));
    assert_eq!(rt; pool.find("log"), Some(1));
    Ok(())
}
