//! Appends lines, and the parts of lines.

ghost use Rattle.std.specs.Prelude.{◌≡◌, ◌++◌, OnOk, OnErr, take, vec_len, decimal};
ghost use Rattle.sheet_print.specs.Replies.{line_of};

use cell_values::{Memory, Name};
use itoa::Buffer;

/// Appends bytes.
pub(crate) fn push(bytes: &[u8], out: &mut Vec<u8>) -> Result<(), Memory>
    ensures ok { OnOk result (out.new.items ≡ out.old.items ++ bytes.now) }
    ensures err { OnErr result (out.new.items ≡ out.old.items) }
{
    match out.extend_from_slice(bytes) {
        Ok(()) => Ok(()),
        Err(_) => Err(Memory),
    }
}

/// Appends a number in decimal digits.
pub(crate) fn push_number(number: u64, out: &mut Vec<u8>) -> Result<(), Memory>
    ensures ok { OnOk result (out.new.items ≡ out.old.items ++ decimal number) }
    ensures err { OnErr result (out.new.items ≡ out.old.items) }
{
    push(Buffer::new().format(number).as_bytes(), out)
}

/// Appends a text and LF.
pub(crate) fn push_line(text: &[u8], out: &mut Vec<u8>) -> Result<(), Memory>
    ensures ok { OnOk result (out.new.items ≡ out.old.items ++ line_of text.now) }
    ensures kept { take (vec_len out.old) out.new.items ≡ out.old.items }
{
    push(text, out)?;
    push(b"\n", out)
}

/// Appends a line of words and a number.
pub(crate) fn push_numbered(words: &[u8], number: u64, out: &mut Vec<u8>) -> Result<(), Memory>
    ensures ok { OnOk result (out.new.items ≡ out.old.items
        ++ line_of (words.now ++ decimal number)) }
    ensures kept { take (vec_len out.old) out.new.items ≡ out.old.items }
{
    push(words, out)?;
    push_number(number, out)?;
    push(b"\n", out)
}

/// Appends a line of words, the number of a recalculation, more words and a count.
pub(crate) fn push_counted(
    words: &[u8],
    round: u64,
    counted: &[u8],
    count: u64,
    out: &mut Vec<u8>,
) -> Result<(), Memory>
    ensures ok { OnOk result (out.new.items ≡ out.old.items
        ++ line_of (words.now ++ decimal round ++ counted.now ++ decimal count)) }
    ensures kept { take (vec_len out.old) out.new.items ≡ out.old.items }
{
    push(words, out)?;
    push_number(round, out)?;
    push(counted, out)?;
    push_number(count, out)?;
    push(b"\n", out)
}

/// Appends a line of words and a name.
pub(crate) fn push_named(words: &[u8], name: &Name, out: &mut Vec<u8>) -> Result<(), Memory>
    ensures ok { OnOk result (out.new.items ≡ out.old.items ++ line_of (words.now ++ name.now)) }
    ensures kept { take (vec_len out.old) out.new.items ≡ out.old.items }
{
    push(words, out)?;
    push(name.as_str().as_bytes(), out)?;
    push(b"\n", out)
}
