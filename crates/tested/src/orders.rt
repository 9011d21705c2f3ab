//! Orders of small graphs.

use std::test::Fail;
use verify_order::{Dependencies, Sorted, sort};

// Node 0 depends on 2 and 1, and node 1 on 2.
#[test]
fn puts_what_is_needed_first(rt: HostRuntime) -> Result<(), Fail> {
    let mut dependencies = Dependencies::new(rt.alloc());
    dependencies.add_node()?;
    dependencies.add_edge(2)?;
    dependencies.add_edge(1)?;
    dependencies.add_node()?;
    dependencies.add_edge(2)?;
    dependencies.add_node()?;
    match sort(rt.alloc(), &dependencies)? {
        Sorted::Order(nodes) => assert_eq!(rt; nodes.as_slice(), [2, 1, 0].as_slice()),
        Sorted::Cycle(_) => assert!(rt; false),
    }
    Ok(())
}

// Node 0 depends on 1, node 1 on 2, and node 2 on 1.
#[test]
fn finds_a_cycle(rt: HostRuntime) -> Result<(), Fail> {
    let mut dependencies = Dependencies::new(rt.alloc());
    dependencies.add_node()?;
    dependencies.add_edge(1)?;
    dependencies.add_node()?;
    dependencies.add_edge(2)?;
    dependencies.add_node()?;
    dependencies.add_edge(1)?;
    match sort(rt.alloc(), &dependencies)? {
        Sorted::Order(_) => assert!(rt; false),
        Sorted::Cycle(nodes) => assert_eq!(rt; nodes.as_slice(), [1, 2].as_slice()),
    }
    Ok(())
}
