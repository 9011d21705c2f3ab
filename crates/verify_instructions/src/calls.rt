//! Types calls of the methods of peers.

ghost use Rattle.bytecode.specs.View.{call_view};
ghost use Rattle.ui_machine.specs.Definition.Programs as words;
ghost use Rattle.law_typing.specs.Rules.Typing.{typed};
ghost use Rattle.verify_operands.specs.Views.{Leaves, kinds_of};

use crate::arguments::check_arguments;
use bytecode::{Call, RegisterKind};
use verify_operands::operands::operand;
use verify_operands::{Lookups, Rule, TypingError, Written};

/// Types `call d o m [a..]`. Returns the register that it writes, or the first rule that it breaks.
#[tactic(auto, unfolding(law_typing::specs::Rules::Typing::calling))]
pub(crate) fn typed(
    lookups: &Lookups<'_>,
    kinds: &[RegisterKind],
    call: &Call,
) -> Result<Option<Written>, TypingError>
    ensures { (p : words.Program) → Leaves (kinds_of kinds.now) result (typed lookups.now p (kinds_of kinds.now) (call_view call.now)) }
{
    let class = operand(lookups, kinds, call.object)?;
    let Some(method) = lookups.method(class, call.method.as_str()) else {
        return Err(TypingError::Broken(Rule::Unknown));
    };
    check_arguments(lookups, kinds, call.args.as_slice(), method.params)?;
    Ok(Some(Written {
        to: call.to,
        kind: RegisterKind::Plain(method.result),
    }))
}
