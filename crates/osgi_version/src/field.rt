ghost use Rattle.std.specs.Prelude.{◌≡◌, ◌++◌, ◌<◌, OnOk, IsOk};
ghost use Rattle.std.specs.List.{flat_map};
ghost use Rattle.std.specs.Fmt.{decimal};
ghost use Rattle.osgi_version.specs.Field.{field, field_byte, hex_digit};

use crate::memory::NoMemory;

/// Adds a text to a line as one field: bytes outside 0x21 to 0x7E and `%` stand as `%` and two upper-case
/// hexadecimal digits, and the empty text as `%-`. After an `Err` the line is of no use.
pub fn push_field(line: &mut Vec<u8>, text: &[u8]) -> Result<(), NoMemory>
    ensures { OnOk result (line.new.items ≡ line.old.items ++ field text.now) }
{
    match text {
        [] => {
            line.extend_from_slice(b"%-")?;
            Ok(())
        }
        [_, ..] => push_bytes(line, text),
    }
}

/// Adds a number to a line in decimal digits. After an `Err` the line is of no use.
pub fn push_number(line: &mut Vec<u8>, number: u32) -> Result<(), NoMemory>
    ensures { OnOk result (line.new.items ≡ line.old.items ++ decimal number) }
{
    let digits = number.to_string(*line.allocator())?;
    line.extend_from_slice(digits.as_bytes())?;
    Ok(())
}

fn push_bytes(line: &mut Vec<u8>, text: &[u8]) -> Result<(), NoMemory>
    ensures { OnOk result (line.new.items ≡ line.old.items ++ flat_map field_byte text.now) }
{
    for byte in text {
        push_byte(line, *byte)?;
    }
    Ok(())
}

fn push_byte(line: &mut Vec<u8>, byte: u8) -> Result<(), NoMemory>
    ensures { OnOk result (line.new.items ≡ line.old.items ++ field_byte byte) }
{
    match byte {
        b'%' | 0..=0x20 | 0x7F..=0xFF => {
            let escaped = [b'%', digit(byte / 16), digit(byte % 16)];
            line.extend_from_slice(&escaped)?;
        }
        _ => line.push(byte)?,
    }
    Ok(())
}

fn digit(value: u8) -> u8
    requires { value < 16 }
    ensures { result ≡ hex_digit value }
{
    if value < 10 {
        b'0' + value
    } else {
        b'A' - 10 + value
    }
}
