//! Worked examples: numbers of two definitions, with which these may be taken as verified.

ghost use Rattle.std.specs.Prelude.{IfOk};
ghost use Rattle.law_typing.specs.Examples.AllParts as knobs;
ghost use Rattle.law_typing.specs.Examples.MainLoop as main_loop;
ghost use Rattle.law_typing.specs.Verdict.Accepted.{Accepted};
ghost use Rattle.verified.specs.Told.{AreNumbersOf};

use std::alloc::{AllocError, Global};
use verified::{Numbers, SourceBound};

/// The numbers of a definition whose knobs follow each other: by a program, by a binding, and two of them both ways. Their class has two
/// properties and a signal, and there are three of them and a prototype. The signal of one of them is handled, and those of the others are
/// idle.
///
/// # Errors
///
/// `AllocError` where no memory is found.
pub fn knob_numbers(alloc: Global) -> Result<Numbers, AllocError>
    ensures { IfOk result (λ numbers. (a : Accepted knobs.definition) × AreNumbersOf knobs.definition numbers a) }
{
    let ranks = vec![in alloc; 0, 0, 0, 1, 0, 2, 0, 1, 0]?;
    let bounds = vec![in alloc; 13, 7, 9, 7, 7, 5, 5, 5, 5]?;
    Ok(Numbers {
        ranks,
        bounds,
        idle: 5,
        build: 8,
        sources: Vec::new(alloc),
        depth: 4,
    })
}

/// The numbers of a definition with one signal, whose program makes two sources.
///
/// # Errors
///
/// `AllocError` where no memory is found.
pub fn loop_numbers(alloc: Global) -> Result<Numbers, AllocError>
    ensures { IfOk result (λ numbers. (a : Accepted main_loop.definition) × AreNumbersOf main_loop.definition numbers a) }
{
    let ranks = vec![in alloc; 0]?;
    let bounds = vec![in alloc; 68]?;
    let tick = SourceBound {
        program: 1,
        bound: 66,
    };
    let rest = SourceBound {
        program: 2,
        bound: 66,
    };
    let sources = vec![in alloc; tick, rest]?;
    Ok(Numbers {
        ranks,
        bounds,
        idle: 65,
        build: 64,
        sources,
        depth: 2,
    })
}
