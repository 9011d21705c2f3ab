//! Programs that run with the peers that the host makes for a definition.

ghost use Rattle.std.specs.Prelude.{◌≡◌, IfOk, List, ℕ};
ghost use Rattle.ui_machine.specs.Definition as machine;
ghost use Rattle.native_peers.specs.Seen.{Relations, SameRelations, Seen};
ghost use Rattle.host_peers.specs.Stock.{stocked_pool, stocked_relations};

use crate::adding::put_new;
use crate::screens::Screen;
use crate::stock_lists::{StockKind, stock};
use crate::tallies::Tally;
use definitions::Definition;
use native_peers::{PeerPool, Peers};
use std::alloc::{AllocError, Global};

/// A program that runs a definition with any pool of peers.
pub trait PoolProgram: Drop {
    /// The definition that it runs.
    ghost runs: { Self → machine.Definition };

    /// The names and initial states that it asks of its peers.
    ghost asks: { Self → List Seen → Type 0 };

    /// What it expects that its peers do.
    ghost expects: { Self → Relations };

    /// The statuses that it may return, if its peers are as it asks and do what it expects.
    ghost answers: { Self → ℕ → Type 0 };

    /// Returns the definition that it runs.
    fn definition(&self) -> &Definition
        ensures { result.now ≡ runs self.now };

    /// Runs with the peers of a pool, and returns a status.
    fn run<Q: Peers>(self, pool: Q) -> u8
        requires asked { asks self (Q.seen pool) }
        requires expected { SameRelations (Q.relations pool) (expects self) }
        ensures { answers self result };
}

/// Makes the peers of a program's definition (see `stock`), only the first of each name, and runs the program with them. Returns the status
/// of the program.
///
/// # Errors
///
/// `AllocError` if memory is refused before the program runs.
pub fn run_with_stock<P: PoolProgram>(alloc: Global, program: P) -> Result<u8, AllocError>
    requires asked { P.asks program (stocked_pool (P.runs program)) }
    requires expected { SameRelations (stocked_relations (P.runs program)) (P.expects program) }
    ensures { IfOk result (λ status. P.answers program status) }
{
    // All screens share the methods of this one, and all tallies those of the other.
    let screen = Screen::new(alloc)?;
    let tally = Tally::new(alloc)?;
    let mut pool = PeerPool::new(alloc);
    'peers: for peer in stock(alloc, program.definition())? {
        match peer.kind {
            StockKind::Screen => {
                let screen = Box::new(alloc, screen.another()?)?;
                put_new(&mut pool, peer.name, StockKind::Screen, screen)?;
            }
            StockKind::Tally => {
                let tally = Box::new(alloc, tally.another()?)?;
                put_new(&mut pool, peer.name, StockKind::Tally, tally)?;
            }
        }
    }
    Ok(program.run(pool))
}
