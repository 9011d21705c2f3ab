//! The refusals of event lines.

ghost use Rattle.std.specs.Prelude.{◌≡◌};
ghost use Rattle.event_lines.specs.Texts.{name_of};

use builder_defs::EventFault;

/// The reason why a line of the event file is refused. Only the first two end the run.
#[derive(Clone, Copy, Debug, PartialEq, Eq)]
pub enum LineRefusal {
    /// The line has more than `MAX_LINE_BYTES` bytes.
    TooLong,
    /// The line comes after the first `MAX_LINES`.
    TooMany,
    NotJson,
    Shape,
    Unknown,
    NotReadable,
    NotWritable,
    ConstructOnly,
    ValueFault,
    ClockBack,
    Released,
}

impl From<EventFault> for LineRefusal {
    ghost use Rattle.std.specs.Prelude.{◌≡◌};
    ghost use Rattle.builder_defs.specs.EventMeaning.{event_refusal};
    ghost use Rattle.event_lines.specs.Texts.{line_refusal};

    ghost from_gives = { λ fault refusal. refusal ≡ line_refusal (event_refusal fault) };

    fn from(fault: EventFault) -> LineRefusal {
        match fault {
            EventFault::TooLong => LineRefusal::TooLong,
            EventFault::NotJson => LineRefusal::NotJson,
            EventFault::Shape => LineRefusal::Shape,
            EventFault::Unknown(_) => LineRefusal::Unknown,
            EventFault::NotReadable => LineRefusal::NotReadable,
            EventFault::NotWritable => LineRefusal::NotWritable,
            EventFault::ConstructOnly => LineRefusal::ConstructOnly,
            EventFault::ValueFault => LineRefusal::ValueFault,
        }
    }
}

impl LineRefusal {
    /// Returns the name that is printed.
    pub fn name(self) -> &'static str
        ensures { result.now ≡ name_of self }
    {
        match self {
            LineRefusal::TooLong => "TooLong",
            LineRefusal::TooMany => "TooMany",
            LineRefusal::NotJson => "NotJson",
            LineRefusal::Shape => "Shape",
            LineRefusal::Unknown => "Unknown",
            LineRefusal::NotReadable => "NotReadable",
            LineRefusal::NotWritable => "NotWritable",
            LineRefusal::ConstructOnly => "ConstructOnly",
            LineRefusal::ValueFault => "ValueFault",
            LineRefusal::ClockBack => "ClockBack",
            LineRefusal::Released => "Released",
        }
    }
}
