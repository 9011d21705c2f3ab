//! A bound on how often the objects of a table hold one of them, so low that no count overflows.

ghost use Rattle.std.specs.Prelude.{ℕ, ◌+◌, ◌≤◌, ◌^◌};
ghost use Rattle.ui_machine.specs.Definition as machine;
ghost use Rattle.ui_machine.specs.Seq.{total};
ghost use Rattle.ui_machine.specs.State.References.{in_object, same};

use crate::table::Table;

impl Table {
    /// States a law of all tables: their objects and the list of floating objects together hold any object at most 2^127 times. Takes
    /// constant time.
    pub fn hold_few(&self)
        ensures { (d : machine.Definition) (o : ℕ) → total (in_object d o) self.now.objects + total (same o) self.now.floating ≤ 2 ^ 127 }
    {
        // For the proof: the number of instances.
        let _lives = self.instances.len();
    }
}
