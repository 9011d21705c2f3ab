//! Worked examples: the links of definitions, which meet what the engine asks of those that it keeps.

ghost use Rattle.worked.specs.Links.LinkedCalls.{CallsLinked};
ghost use Rattle.worked.specs.Links.LinkedGathering.{GatheringLinked};

/// The programs of a definition whose knobs are bound both ways are linked. One names an object and a property of its class, the other a prototype;
/// of the definition's four classes one has the property.
pub fn gathering()
    ensures { GatheringLinked }
{}

/// A program that calls a method which two shapes have, and that ends the bindings of a name which two have, is linked.
pub fn calls()
    ensures { CallsLinked }
{}
