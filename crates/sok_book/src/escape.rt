//! A text whose control characters are seen, so that it can't look like another line or move the
//! cursor.

ghost use Rattle.std.specs.Prelude.{◌≡◌, ◌++◌, ◌<◌, OnOk};
ghost use Rattle.sok_book.specs.Escapes.{escape, escaped, held_lead, hex_digit, shown_behind};

use std::alloc::AllocError;

/// The first byte in UTF-8 of the control characters from U+0080 on. The second is their code.
const LEAD: u8 = 0xc2;

/// Returns how a control character is shown: as `\x1b` is.
pub fn escape(code: u8) -> [u8; 4]
    ensures { result ≡ escape code }
{
    [b'\\', b'x', hex_digit(code / 16), hex_digit(code % 16)]
}

fn hex_digit(n: u8) -> u8
    requires { n < 16 }
    ensures { result ≡ hex_digit n }
{
    if n < 10 { b'0' + n } else { b'a' - 10 + n }
}

/// Appends the bytes of a text, with each control character as `escape` shows it.
pub(crate) fn push_escaped(text: &mut Vec<u8>, bytes: &[u8]) -> Result<(), AllocError>
    ensures { OnOk result (text.new.items ≡ text.old.items ++ escaped bytes.now) }
{
    let mut held = false;
    for byte in bytes {
        push_byte(text, held, *byte)?;
        held = *byte == LEAD;
    }
    push_lead(text, held)
}

/// Appends a byte. `held` is set if it follows a lead, which is then not appended yet.
fn push_byte(text: &mut Vec<u8>, held: bool, byte: u8) -> Result<(), AllocError>
    ensures { OnOk result (text.new.items ≡ text.old.items ++ shown_behind held byte) }
{
    if held && 128 <= byte && byte <= 159 {
        return text.extend_from_slice(&escape(byte));
    }
    push_lead(text, held)?;
    if byte == LEAD {
        Ok(())
    } else if byte.is_ascii_control() {
        text.extend_from_slice(&escape(byte))
    } else {
        Ok(text.push(byte)?)
    }
}

/// Appends a lead that was held back.
fn push_lead(text: &mut Vec<u8>, held: bool) -> Result<(), AllocError>
    ensures { OnOk result (text.new.items ≡ text.old.items ++ held_lead held) }
{
    if held {
        text.push(LEAD)?;
    }
    Ok(())
}
