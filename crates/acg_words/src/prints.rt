//! Pieces of text that a sink gets, each by one write.

ghost use Rattle.std.specs.Prelude.{◌≡◌, ◌≤◌, [], ◌∷◌, length, map, OnOk, OnErr};
ghost use Rattle.std.specs.List.{flat_map};
ghost use Rattle.acg_base.specs.Outside.{counted};
ghost use Rattle.acg_words.specs.Lines.{numbered_line, header_line, message_line, named_line, named_pieces, rule_line, uncovered_line, uncovered_pieces, cause_name, trapped_line};
ghost use Rattle.acg_words.specs.Prints.{Printed, PiecesBroke, writes_behind};

use crate::buffer::Buffer;
use acg_base::{Sink, SinkError};
use rv_code::Cause;

/// Prints the text, by one write.
pub(crate) fn print<K: Sink>(out: &mut K, text: &[u8]) -> Result<(), SinkError>
    ensures printed { Printed K.Sink text.now out.old out.new result }
    ensures once { K.writes out.new ≡ counted (K.writes out.old) }
    ensures broken { OnErr result (PiecesBroke K.Sink (text.now ∷ []) out.old out.new) }
{
    out.write(text)
}

/// Prints the pieces, each by one write.
pub(crate) fn print_all<K: Sink>(out: &mut K, pieces: &[&[u8]]) -> Result<(), SinkError>
    ensures printed { Printed K.Sink (flat_map (λ piece. piece.now) pieces.now)
        out.old out.new result }
    ensures each { OnOk result
        (K.writes out.new ≡ writes_behind (length pieces.now) (K.writes out.old)) }
    ensures broken { OnErr result
        (PiecesBroke K.Sink (map (λ piece. piece.now) pieces.now) out.old out.new) }
{
    for piece in pieces {
        print(out, piece)?;
    }
    Ok(())
}

/// Prints a text, a number in decimal and a line feed, by one write.
pub(crate) fn print_numbered<K: Sink>(
    out: &mut K,
    text: &[u8],
    number: u32,
) -> Result<(), SinkError>
    requires { length text.now ≤ 40 }
    ensures printed { Printed K.Sink (numbered_line text.now number) out.old out.new result }
    ensures once { K.writes out.new ≡ counted (K.writes out.old) }
    ensures broken { OnErr result
        (PiecesBroke K.Sink (numbered_line text.now number ∷ []) out.old out.new) }
{
    let mut line = Buffer::new();
    line.put(text);
    line.put_unsigned(u64::from(number));
    line.put(b"\n");
    print(out, line.as_slice())
}

/// Prints a text, a name of any length and a line feed, by three writes.
pub(crate) fn print_named<K: Sink>(out: &mut K, text: &[u8], name: &[u8]) -> Result<(), SinkError>
    ensures printed { Printed K.Sink (named_line text.now name.now) out.old out.new result }
    ensures three { OnOk result (K.writes out.new ≡ writes_behind 3 (K.writes out.old)) }
    ensures broken { OnErr result (PiecesBroke K.Sink
        (named_pieces text.now name.now) out.old out.new) }
{
    print_all(out, &[text, name, b"\n".as_slice()])
}

/// Prints that a description breaks a rule at an item, by one write.
pub(crate) fn print_rule<K: Sink>(out: &mut K, rule: u8, item: u32) -> Result<(), SinkError>
    ensures printed { Printed K.Sink (rule_line rule item) out.old out.new result }
    ensures once { K.writes out.new ≡ counted (K.writes out.old) }
    ensures broken { OnErr result
        (PiecesBroke K.Sink (rule_line rule item ∷ []) out.old out.new) }
{
    let mut line = Buffer::new();
    line.put(b"description rule ");
    line.put_unsigned(u64::from(rule));
    line.put(b" item ");
    line.put_unsigned(u64::from(item));
    line.put(b"\n");
    print(out, line.as_slice())
}

/// Prints that a function has no equation for an alternative of a production, with their names, of
/// any length, by five writes.
pub(crate) fn print_uncovered<K: Sink>(
    out: &mut K,
    function: &[u8],
    production: &[u8],
    alternative: u32,
) -> Result<(), SinkError>
    ensures printed { Printed K.Sink (uncovered_line function.now production.now alternative)
        out.old out.new result }
    ensures five { OnOk result (K.writes out.new ≡ writes_behind 5 (K.writes out.old)) }
    ensures broken { OnErr result (PiecesBroke K.Sink
        (uncovered_pieces function.now production.now alternative) out.old out.new) }
{
    let mut end = Buffer::new();
    end.put(b" ");
    end.put_unsigned(u64::from(alternative));
    end.put(b"\n");
    print_all(
        out,
        &[
            b"uncovered ".as_slice(),
            function,
            b" ".as_slice(),
            production,
            end.as_slice(),
        ],
    )
}

// The name of the cause of a trap.
fn cause_name(cause: Cause) -> &'static str
    ensures named { result.now ≡ cause_name cause }
    ensures short { length result.now ≤ 9 }
{
    match cause {
        Cause::Fetch => "fetch",
        Cause::Undefined => "undefined",
        Cause::Load => "load",
        Cause::Store => "store",
        Cause::Target => "target",
        Cause::Ebreak => "ebreak",
        Cause::Call => "call",
        Cause::Buffer => "buffer",
    }
}

/// Prints that the machine trapped at an address, by one write.
pub(crate) fn print_trapped<K: Sink>(out: &mut K, cause: Cause, pc: u64) -> Result<(), SinkError>
    ensures printed { Printed K.Sink (trapped_line cause pc) out.old out.new result }
    ensures once { K.writes out.new ≡ counted (K.writes out.old) }
    ensures broken { OnErr result
        (PiecesBroke K.Sink (trapped_line cause pc ∷ []) out.old out.new) }
{
    let mut line = Buffer::new();
    line.put(b"trapped ");
    line.put(cause_name(cause).as_bytes());
    line.put(b" ");
    line.put_unsigned(pc);
    line.put(b"\n");
    print(out, line.as_slice())
}

/// Prints the header of a run: the words of the stack, the units, and the factor. It is one write.
///
/// Answers `Failed` where the sink fails: it has a front of the line then.
pub fn print_header<K: Sink>(
    out: &mut K,
    stack: u64,
    units: u64,
    factor: u64,
) -> Result<(), SinkError>
    ensures printed { Printed K.Sink (header_line stack units factor) out.old out.new result }
    ensures once { K.writes out.new ≡ counted (K.writes out.old) }
{
    let mut line = Buffer::new();
    line.put(b"stack ");
    line.put_unsigned(stack);
    line.put(b" units ");
    line.put_unsigned(units);
    line.put(b" factor ");
    line.put_unsigned(factor);
    line.put(b"\n");
    print(out, line.as_slice())
}

/// Prints a message: an integer in decimal and a line feed. It is one write.
///
/// Answers `Failed` where the sink fails: it has a front of the line then.
pub fn print_message<K: Sink>(out: &mut K, value: i64) -> Result<(), SinkError>
    ensures printed { Printed K.Sink (message_line value) out.old out.new result }
    ensures once { K.writes out.new ≡ counted (K.writes out.old) }
{
    let mut line = Buffer::new();
    line.put_signed(value);
    line.put(b"\n");
    print(out, line.as_slice())
}
