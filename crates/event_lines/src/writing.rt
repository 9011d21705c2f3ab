//! The texts that are said through a gather to a writer.

ghost use Rattle.std.specs.Prelude.{◌≡◌, true, List, map, flat_map, MatchResult, string_bytes, false};
ghost use Rattle.event_lines.specs.Writing.{Puts};
ghost use Rattle.event_lines.specs.Texts.{joined, lines_text, refused_line, stopped_line};
ghost use Rattle.event_lines.specs.EventFileRun.{text_at};
ghost use Rattle.event_lines.specs.LineOutcome.{outcome_with};

use crate::devices::Writer;
use crate::line_outcome::LineOutcome;
use crate::output_buffer::Gather;
use crate::refusal::LineRefusal;
use itoa::Buffer;
use ui_machine::DeviceFault;

/// Says texts one after the other.
///
/// # Errors
///
/// `DeviceFault` if a device fails. It is not called again.
pub fn put_parts<W: Writer>(
    gather: &mut Gather,
    writer: &mut W,
    parts: &[&[u8]],
) -> Result<(), DeviceFault>
    requires works { W.failed writer.old ≡ false }
    ensures puts { Puts result (W.sent writer.old) gather.old (W.sent writer.new) gather.new (flat_map (λ part. part.now) parts.now) }
    ensures marks { MatchResult result (λ _. W.failed writer.new ≡ false) (λ _. W.failed writer.new ≡ true) }
{
    for part in parts {
        let Ok(()) = gather.put(writer, part) else {
            return Err(DeviceFault);
        };
    }
    Ok(())
}

/// Says lines, each with its LF.
///
/// # Errors
///
/// `DeviceFault` if a device fails. It is not called again.
pub fn put_lines<W: Writer>(
    gather: &mut Gather,
    writer: &mut W,
    lines: &[String],
) -> Result<(), DeviceFault>
    requires works { W.failed writer.old ≡ false }
    ensures puts { Puts result (W.sent writer.old) gather.old (W.sent writer.new) gather.new (lines_text (map string_bytes lines.now)) }
    ensures marks { MatchResult result (λ _. W.failed writer.new ≡ false) (λ _. W.failed writer.new ≡ true) }
{
    for line in lines {
        let Ok(()) = put_parts(gather, writer, &[line.as_bytes(), b"\n"]) else {
            return Err(DeviceFault);
        };
    }
    Ok(())
}

fn put_refused<W: Writer>(
    gather: &mut Gather,
    writer: &mut W,
    number: u64,
    refusal: LineRefusal,
) -> Result<(), DeviceFault>
    requires works { W.failed writer.old ≡ false }
    ensures puts { Puts result (W.sent writer.old) gather.old (W.sent writer.new) gather.new (refused_line number refusal) }
    ensures marks { MatchResult result (λ _. W.failed writer.new ≡ false) (λ _. W.failed writer.new ≡ true) }
{
    let mut digits = Buffer::new();
    let number = digits.format(number).as_bytes();
    put_parts(
        gather,
        writer,
        &[
            b"line ",
            number,
            b" refused: ",
            refusal.name().as_bytes(),
            b"\n",
        ],
    )
}

/// Says that a line stopped for want of memory.
///
/// # Errors
///
/// `DeviceFault` if a device fails. It is not called again.
pub fn put_stopped<W: Writer>(
    gather: &mut Gather,
    writer: &mut W,
    number: u64,
) -> Result<(), DeviceFault>
    requires works { W.failed writer.old ≡ false }
    ensures puts { Puts result (W.sent writer.old) gather.old (W.sent writer.new) gather.new (stopped_line number) }
    ensures marks { MatchResult result (λ _. W.failed writer.new ≡ false) (λ _. W.failed writer.new ≡ true) }
{
    let mut digits = Buffer::new();
    let number = digits.format(number).as_bytes();
    put_parts(
        gather,
        writer,
        &[b"line ", number, b" stopped: OutOfMemory\n"],
    )
}

/// Says the outcome of a line, with the lines that were said with it.
///
/// # Errors
///
/// `DeviceFault` if a device fails. It is not called again.
pub fn put_outcome<W: Writer>(
    gather: &mut Gather,
    writer: &mut W,
    number: u64,
    outcome: LineOutcome,
    lines: &[String],
) -> Result<(), DeviceFault>
    requires works { W.failed writer.old ≡ false }
    ensures puts { Puts result (W.sent writer.old) gather.old (W.sent writer.new) gather.new (text_at number (outcome_with outcome (map string_bytes lines.now))) }
    ensures marks { MatchResult result (λ _. W.failed writer.new ≡ false) (λ _. W.failed writer.new ≡ true) }
{
    match outcome {
        LineOutcome::Said => put_lines(gather, writer, lines),
        LineOutcome::Refused(refusal) => put_refused(gather, writer, number, refusal),
        LineOutcome::CutOff(refusal) => put_refused(gather, writer, number, refusal),
        LineOutcome::Stopped => {
            let Ok(()) = put_lines(gather, writer, lines) else {
                return Err(DeviceFault);
            };
            put_stopped(gather, writer, number)
        }
    }
}
