// Lines of an answer that end with bytes, in hex of lower case.
ghost use Rattle.std.specs.Prelude.{◌≡◌, ◌++◌, ◌∷◌, ◌*◌, ◌/◌, ◌%◌, ◌<◌, [], IfOk, OnOk, length, slice_index, string_bytes};
ghost use Rattle.hex.specs.Hex.{encode_lower, lower_digits};

use std::alloc::{AllocError, Global};

// The words, the bytes behind them and the line's end.
pub fn line(words: &str, bytes: &[u8], to: &mut String) -> Result<(), AllocError>
    ensures { OnOk result (string_bytes to.new ≡ string_bytes to.old ++ words.now ++ encode_lower bytes.now ++ 10 ∷ []) }
{
    let digits = digits_of(bytes, *to.allocator())?;
    to.push_str(words)?;
    to.push_str(&digits)?;
    to.push('\n')
}

// With `-` where there are no bytes.
pub fn line_or_dash(words: &str, bytes: &[u8], to: &mut String) -> Result<(), AllocError>
    ensures none { length bytes.now ≡ 0 → OnOk result (string_bytes to.new ≡ string_bytes to.old ++ words.now ++ 45 ∷ 10 ∷ []) }
    ensures some { 0 < length bytes.now → OnOk result (string_bytes to.new ≡ string_bytes to.old ++ words.now ++ encode_lower bytes.now ++ 10 ∷ []) }
{
    if bytes.is_empty() {
        return writeln!(to, "{words}-");
    }
    line(words, bytes, to)
}

// As `hex::encode`, which takes some three times as long: it looks each digit up in a table.
fn digits_of(bytes: &[u8], alloc: Global) -> Result<String, AllocError>
    ensures { IfOk result (λ digits. string_bytes digits ≡ encode_lower bytes.now) }
{
    let mut digits = Vec::with_capacity(alloc, 2 * bytes.len())?;
    'bytes: for i in 0..bytes.len() {
        let pair = pair_of(bytes[i]);
        digits.push_reserved(pair[0]);
        digits.push_reserved(pair[1]);
    }
    Ok(String::from_utf8(digits).unwrap())
}

// The two digits of a byte. They are made as one number, whose halves each hold four bits: the compiler then makes those of several bytes at once.
fn pair_of(byte: u8) -> [u8; 2]
    ensures { result ≡ slice_index lower_digits (byte / 16) ∷ slice_index lower_digits (byte % 16) ∷ [] }
{
    let halves = (byte >> 4) as u16 + (byte & 15) as u16 * 0x100;
    // 1 in each half that is above 9, and so a letter.
    let letters = (halves + 0x0606) >> 4 & 0x0101;
    let apart = (b'a' - b'0' - 10) as u16;
    (halves + 0x3030 + letters * apart).to_le_bytes()
}
