//! Two kinds of peers of the host: tallies, which add up whole numbers, and screens, which keep lines of text.
//!
//! The relations `Tallies` and `Screens` say what each answers in a state and which state comes next. `stock_of` says which of them a
//! definition gets: each peer that it names is a tally or a screen, if the shape of its class has that name.
#![tactic(auto)]

mod adding;
mod line_lists;
mod screens;
mod stock_lists;
mod stocked_runs;
mod tallies;

pub use adding::put;
pub use line_lists::{MOST_LINE_BYTES, MOST_LINES};
pub use screens::Screen;
pub use stock_lists::{StockKind, StockPeer, stock};
pub use stocked_runs::{PoolProgram, run_with_stock};
pub use tallies::Tally;
