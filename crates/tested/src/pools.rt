//! Pools of tallies: calls, names after one was taken, and what is needed.

ghost use Rattle.std.specs.Prelude.{◌≡◌, [], IsTrue, map, true};
ghost use Rattle.g_values.specs.View.{value_view};
ghost use Rattle.native_peers.specs.Moves.{ArgsFit};
ghost use Rattle.native_peers.specs.Pool.{entries, seen};
ghost use Rattle.native_peers.specs.Tallies.{IsTallyAt, tally_shape};

use g_values::{Kind, Value};
use host_peers::Tally;
use native_peers::{AddFault, MatchFault, Method, Need, Peer, PeerFault, PeerPool, Peers, Shape};
use std::alloc::{AllocError, Global};
use std::test::Fail;

// Calls a method of the k-th peer of a pool, which is an open tally.
fn ask(pool: &mut PeerPool, k: usize, method: usize, args: &[Value]) -> Result<Value, PeerFault>
    requires tally { IsTallyAt k (seen (λ p. (⟦<dyn Peer as Peer>⟧ p.peer.vtable).state p.peer.value) (entries pool.now)) }
    requires args { ArgsFit (record { shape = tally_shape; is_open = true; calls = 0; faults = 0; values = [] }) method (map value_view args.now) }
    ensures { IsTallyAt k (seen (λ p. (⟦<dyn Peer as Peer>⟧ p.peer.vtable).state p.peer.value) (entries pool.new)) }
{
    pool.invoke(k, method, args)
}

// Closes the k-th peer of a pool, which is an open tally.
fn shut(pool: &mut PeerPool, k: usize)
    requires { IsTallyAt k (seen (λ p. (⟦<dyn Peer as Peer>⟧ p.peer.vtable).state p.peer.value) (entries pool.now)) }
{
    pool.close(k);
}

// Adds an open tally to a pool without peers, and returns whether this succeeded.
fn add(pool: &mut PeerPool, name: &str, tally: Box<dyn Peer>) -> bool
    requires none { entries pool.now ≡ [] }
    requires shape { ((⟦<dyn Peer as Peer>⟧ tally.vtable).state tally.value).shape ≡ tally_shape }
    requires open { IsTrue ((⟦<dyn Peer as Peer>⟧ tally.vtable).state tally.value).is_open }
    ensures { IsTrue result → IsTallyAt 0 (seen (λ p. (⟦<dyn Peer as Peer>⟧ p.peer.vtable).state p.peer.value) (entries pool.new)) }
{
    pool.add(name, tally).is_ok()
}

#[test]
fn a_pool_calls_its_peers(rt: HostRuntime) -> Result<(), Fail> {
    let mut pool = PeerPool::new(rt.alloc());
    let tally = Box::new(rt.alloc(), Tally::new(rt.alloc())?)?;
    assert!(rt; add(&mut pool, "t", tally));
    assert_eq!(rt; pool.find("t"), Some(0));
    assert!(rt;
        matches!(
            ask(&mut pool, 0, 0, &[Value::Int64(5)]),
            Ok(Value::Int64(5))
        )
    );
    assert!(rt; ask(&mut pool, 0, 0, &[Value::Int64(2)]).is_ok());
    assert!(rt; matches!(ask(&mut pool, 0, 1, &[]), Ok(Value::Int64(7))));
    shut(&mut pool, 0);
    let tally = pool.take("t").ok_or("no peer")?;
    assert!(rt; !tally.is_open());
    assert_eq!(rt; tally.counts(), (3, 0));
    assert_eq!(rt; pool.left(), 0);
    Ok(())
}

#[test]
fn a_pool_finds_its_peers_after_one_was_taken(rt: HostRuntime) -> Result<(), Fail> {
    let mut pool = PeerPool::new(rt.alloc());
    let first = Box::new(rt.alloc(), Tally::new(rt.alloc())?)?;
    assert!(rt; pool.add("b", first).is_ok());
    let second = Box::new(rt.alloc(), Tally::new(rt.alloc())?)?;
    assert!(rt; pool.add("a", second).is_ok());
    let third = Box::new(rt.alloc(), Tally::new(rt.alloc())?)?;
    assert!(rt; pool.add("c", third).is_ok());
    let taken = pool.take("a").ok_or("no peer")?;
    assert_eq!(rt; pool.find("b"), Some(0));
    assert_eq!(rt; pool.find("a"), None);
    assert_eq!(rt; pool.find("c"), Some(1));
    assert!(rt; pool.add("a", taken).is_ok());
    assert_eq!(rt; pool.find("a"), Some(2));
    assert!(rt; pool.take("d").is_none());
    Ok(())
}

// Adds a method whose kinds are `Int64`, unless there is one with its name.
fn add_method(
    alloc: Global,
    shape: &mut Shape,
    name: &str,
    params: Vec<Kind>,
) -> Result<(), AllocError> {
    if shape.find(name).is_none() {
        let name = String::from_str(alloc, name)?;
        shape.add(Method {
            name,
            params,
            result: Kind::Int64,
        })?;
    }
    Ok(())
}

#[test]
fn a_pool_matches_what_is_needed(rt: HostRuntime) -> Result<(), Fail> {
    let mut pool = PeerPool::new(rt.alloc());
    let tally = Box::new(rt.alloc(), Tally::new(rt.alloc())?)?;
    assert!(rt; pool.add("t", tally).is_ok());
    let again = Box::new(rt.alloc(), Tally::new(rt.alloc())?)?;
    let refused = pool.add("t", again).err().ok_or("two peers of one name")?;
    assert!(rt; refused.fault == AddFault::DuplicatePeer);
    let mut reads = Shape::new(rt.alloc());
    add_method(rt.alloc(), &mut reads, "read", Vec::new(rt.alloc()))?;
    let mut shape = Shape::new(rt.alloc());
    add_method(
        rt.alloc(),
        &mut shape,
        "add",
        vec![in rt.alloc(); Kind::Int64]?,
    )?;
    add_method(rt.alloc(), &mut shape, "read", Vec::new(rt.alloc()))?;
    let need = Need {
        name: "t",
        shape: Some(&shape),
    };
    let other = Need {
        name: "u",
        shape: Some(&shape),
    };
    assert_eq!(rt; pool.matches(&[need]), Ok(()));
    assert_eq!(rt;
        pool.matches(&[need, other]),
        Err(MatchFault::PeerMissing("u"))
    );
    assert_eq!(rt;
        pool.matches(&[Need {
            name: "t",
            shape: Some(&reads)
        }]),
        Err(MatchFault::PeerShape("t"))
    );
    assert_eq!(rt; pool.matches(&[]), Err(MatchFault::PeerUnused("t")));
    Ok(())
}
