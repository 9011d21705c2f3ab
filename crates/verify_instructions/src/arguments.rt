//! Checks the arguments of emissions and calls: each is set and fits its parameter, and there are as many as parameters.

ghost use Rattle.std.specs.Prelude.{◌≡◌, map, option_map, slice_get};
ghost use Rattle.g_values.specs.View.{kind_view};
ghost use Rattle.bytecode.specs.View.{number_of};
ghost use Rattle.law_typing.specs.Rules.Typing.{arguments};
ghost use Rattle.verify_instructions.specs.Arguments.{checked};
ghost use Rattle.verify_operands.specs.Views.{Passes, kinds_of};

use bytecode::{Register, RegisterKind};
use g_values::Kind;
use verify_operands::operands::{fitting, set_in};
use verify_operands::{Lookups, Rule};

// Checks that an argument is set, and that it fits its parameter if there is one.
fn argument(
    lookups: &Lookups<'_>,
    kinds: &[RegisterKind],
    from: Register,
    param: Option<Kind>,
) -> Result<(), Rule>
    ensures { Passes (kinds_of kinds.now) result (checked lookups.now (kinds_of kinds.now) from.0 (option_map kind_view param)) }
{
    let Some(param) = param else {
        set_in(kinds, from)?;
        return Ok(());
    };
    fitting(lookups, kinds, from, &param)?;
    Ok(())
}

// Returns the parameter with this number, if there is one.
fn param_at(params: &[Kind], number: usize) -> Option<Kind>
    ensures { option_map kind_view result ≡ slice_get (map kind_view params.now) number }
{
    if number < params.len() {
        Some(params[number])
    } else {
        None
    }
}

/// Checks that each argument is set and fits its parameter, and that there are as many arguments as parameters.
///
/// # Errors
///
/// Returns the rule that the first argument from the left breaks, or `Kind` if only the number of arguments is wrong.
pub(crate) fn check_arguments(
    lookups: &Lookups<'_>,
    kinds: &[RegisterKind],
    args: &[Register],
    params: &[Kind],
) -> Result<(), Rule>
    ensures { Passes (kinds_of kinds.now) result (arguments lookups.now (kinds_of kinds.now) (map number_of args.now) (map kind_view params.now)) }
{
    for number in 0..args.len() {
        if let Err(rule) = argument(lookups, kinds, args[number], param_at(params, number)) {
            return Err(rule);
        }
    }
    if args.len() != params.len() {
        return Err(Rule::Kind);
    }
    Ok(())
}
