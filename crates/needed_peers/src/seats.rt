//! The peers of a pool, as the engine knows them.

ghost use Rattle.std.specs.Prelude.{◌≡◌, IfOk, None, Some, map, option_map};
ghost use Rattle.law_peers.specs.Forgetting.{forgotten};
ghost use Rattle.law_peers.specs.Needs.{mismatch_with};
ghost use Rattle.native_peers.specs.Matching.{as_peers, need_view};
ghost use Rattle.peer_shapes.specs.MethodViews.{method_view};
ghost use Rattle.needed_peers.specs.Needing.{shape_likely, shape_needed};

use engine_world::seats::Seats;
use native_peers::{Method, Need, Peers, is_same_shape};
use peer_shapes::Shape;
use std::alloc::{AllocError, Global};
use std::rc::Rc;

// Returns the shape of the first need with this name, if it has one.
fn first_shape<'a>(needs: &[Need<'a>], name: &str) -> Option<&'a Shape>
    ensures { option_map (λ s. s.now) result ≡ shape_needed (map need_view needs.now) name.now }
{
    'needs: for need in needs {
        if need.name == name {
            return need.shape;
        }
    }
    None
}

// Returns the shape of a need with this name. Looks at the need with number `likely` first, and otherwise takes the first with the name.
fn shape_for<'a>(needs: &[Need<'a>], likely: usize, name: &str) -> Option<&'a Shape>
    ensures { option_map (λ s. s.now) result ≡ shape_likely (map need_view needs.now) likely name.now }
{
    let Some(need) = needs.get(likely) else {
        return first_shape(needs, name);
    };
    if need.name == name {
        need.shape
    } else {
        first_shape(needs, name)
    }
}

// Returns the shape of a peer with these methods, which a need with its name has. It is the last one, if that has these methods, so that
// peers of one shape share it.
fn shape_of(
    alloc: Global,
    needs: &[Need<'_>],
    likely: usize,
    name: &str,
    methods: &[Method],
    last: Option<&Rc<Shape>>,
) -> Result<Rc<Shape>, AllocError>
    requires needed { shape_likely (map need_view needs.now) likely name.now ≡ Some (map method_view methods.now) }
    ensures { IfOk result (λ shape. shape.value ≡ map method_view methods.now) }
{
    match last {
        Some(last) if is_same_shape(last.as_ref(), methods) => {
            let shared = last.clone()?;
            return Ok(shared);
        }
        _ => {}
    }
    let Some(shape) = shape_for(needs, likely, name) else {
        unreachable!()
    };
    let shape = Rc::new(alloc, shape.copied()?)?;
    Ok(shape)
}

/// Returns the seats of a pool that matches the needs, in the order of its peers: each with its name and its methods, open if the peer is
/// open, and got by no object.
///
/// # Errors
///
/// `AllocError` if memory is refused.
pub fn seats<P: Peers>(alloc: Global, pool: &P, needs: &[Need<'_>]) -> Result<Seats, AllocError>
    requires matches { mismatch_with (map need_view needs.now) (as_peers (P.seen pool.now)) ≡ None }
    ensures { IfOk result (λ seats. seats ≡ map forgotten (as_peers (P.seen pool.now))) }
{
    let mut seats = Seats::new(alloc);
    let mut last = None;
    'peers: for k in 0..pool.left() {
        let name = String::from_str(alloc, pool.name(k))?;
        let methods = pool.shape(k);
        let shape = shape_of(alloc, needs, k, name.as_str(), methods, last.as_ref())?;
        last = Some(shape.clone()?);
        seats.add(name, shape, pool.is_open(k))?;
    }
    Ok(seats)
}
