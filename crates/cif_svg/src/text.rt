//! Texts in a picture.

use lay_point::NoMemory;
use std::io::Write;

/// Appends bytes of the CIF text, a question mark for each that isn't a printed ASCII letter.
pub(crate) fn put_escaped(lines: &mut Vec<u8>, bytes: &[u8]) -> Result<(), NoMemory> {
    for byte in bytes {
        put_byte(lines, *byte)?;
    }
    Ok(())
}

/// Appends a byte as XML has it.
fn put_byte(lines: &mut Vec<u8>, byte: u8) -> Result<(), NoMemory> {
    match byte {
        b'&' => lines.extend_from_slice(b"&amp;")?,
        b'<' => lines.extend_from_slice(b"&lt;")?,
        b'>' => lines.extend_from_slice(b"&gt;")?,
        b' '..=b'~' => lines.push(byte)?,
        _ => lines.push(b'?')?,
    }
    Ok(())
}

/// Appends so many database units in micrometres.
pub(crate) fn put_micrometres(lines: &mut Vec<u8>, units: i64) -> Result<(), NoMemory> {
    let (whole, thousandths) = (units / 200, (units % 200).saturating_mul(5));
    write!(lines, "{whole}").map_err(|_| NoMemory)?;
    if thousandths % 10 != 0 {
        write!(lines, ".{thousandths:03}").map_err(|_| NoMemory)?;
    } else if thousandths % 100 != 0 {
        let hundredths = thousandths / 10;
        write!(lines, ".{hundredths:02}").map_err(|_| NoMemory)?;
    } else if thousandths != 0 {
        let tenths = thousandths / 100;
        write!(lines, ".{tenths}").map_err(|_| NoMemory)?;
    }
    Ok(())
}
