//! What it says that a definition keeps within a limit.

ghost use Rattle.verified_limits.specs.Limits.{NoneCountsMore, OneIsGreater};

/// Where a definition is within a limit no dispatch counts more steps, whatever it begins with. Where it is not, one has a greater bound.
pub fn within()
    ensures all { NoneCountsMore }
    ensures some { OneIsGreater }
{}
