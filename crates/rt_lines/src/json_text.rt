ghost use Rattle.std.specs.Prelude.{◌≡◌, ◌++◌, ◌<◌, false, OnOk, flat_map, encode_utf8, string_bytes};
ghost use Rattle.std.specs.Fmt.{digit_glyph};
ghost use Rattle.rt_lines.specs.Answer.{control_text, escaped, json_text};

use std::alloc::AllocError;

/// Adds a JSON text.
#[tactic(auto, using(crate::proofs::JsonTexts::one_more))]
pub(crate) fn write_text(out: &mut String, text: &str) -> Result<(), AllocError>
    ensures { OnOk result (string_bytes out.new ≡ string_bytes out.old ++ json_text text.now) }
{
    out.push('"')?;
    for c in text.chars() {
        write_char(out, c)?;
    }
    out.push('"')
}

// A character of a JSON text.
#[tactic(auto, using(crate::proofs::JsonTexts::plain_character))]
fn write_char(out: &mut String, c: char) -> Result<(), AllocError>
    ensures { OnOk result (string_bytes out.new ≡ string_bytes out.old ++ flat_map escaped (encode_utf8 c)) }
{
    match c {
        '"' => out.push_str("\\\""),
        '\\' => out.push_str("\\\\"),
        '\u{8}' => out.push_str("\\b"),
        '\t' => out.push_str("\\t"),
        '\n' => out.push_str("\\n"),
        '\u{c}' => out.push_str("\\f"),
        '\r' => out.push_str("\\r"),
        c if c < ' ' => write_control(out, c as u32),
        c => out.push(c),
    }
}

// The escape of a control character by its code.
fn write_control(out: &mut String, code: u32) -> Result<(), AllocError>
    requires { code < 32 }
    ensures { OnOk result (string_bytes out.new ≡ string_bytes out.old ++ control_text code) }
{
    out.push_str("\\u00")?;
    out.push(hex_digit(code / 16))?;
    out.push(hex_digit(code % 16))
}

// A hexadecimal digit, in lower case.
fn hex_digit(digit: u32) -> char
    requires { digit < 16 }
    ensures { (result ≡ digit_glyph false digit) × (result < 128) }
{
    match char::from_digit(digit, 16) {
        Some(c) => c,
        None => unreachable!(),
    }
}
