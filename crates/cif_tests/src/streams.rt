//! Tests of what no clause says: that calls succeed, and that devices in memory keep to their limits.

use byte_io::*;
use std::alloc::Global;
use std::test::*;

// Could catch a contract that no device meets, one under which nothing is ever written, and a device that
// takes more than it has room for.
#[test]
fn a_full_output_has_a_prefix_of_the_bytes(rt: HostRuntime) {
    let whole: &[u8] = b"DS 1 1 2;\nDF;\n";
    let rows: [(usize, usize, Failing, Result<(), OutFault>, &[u8]); 6] = [
        (1000, 4, Failing::ByErr, Err(OutFault), b"DS 1"),
        (3, 4, Failing::ByZero, Err(OutFault), b"DS 1"),
        (1, 1000, Failing::ByErr, Ok(()), whole),
        (7, whole.len(), Failing::ByZero, Ok(()), whole),
        (1000, 0, Failing::ByZero, Err(OutFault), b""),
        (0, 1000, Failing::ByErr, Err(OutFault), b""),
    ];
    for (bite, room, failing, want, written) in rows {
        let mut out = MemoryOut::new(rt.alloc(), bite, room, failing);
        assert_eq!(rt; put_all(&mut out, whole), want, "bite {bite}, room {room}");
        assert_eq!(rt; out.written(), written, "bite {bite}, room {room}");
    }
}

// Could catch bytes that are lost or change places where the buffer runs full or a piece is longer
// than it, a device that is asked again after it failed, and a number that isn't put in digits.
#[test]
fn a_buffered_text_is_written_in_order(rt: HostRuntime) -> Result<(), Fail> {
    let long = [b'x'; 5000];
    let rows: [(usize, bool, usize); 4] = [
        (usize::MAX, true, 10_000),
        (4_999, false, 4_999),
        (3, false, 3),
        (0, false, 0),
    ];
    for (room, want, written) in rows {
        let mut out = MemoryOut::new(rt.alloc(), 1000, room, Failing::ByErr);
        let mut buffer = OutBuffer::new();
        let mut text = Vec::new(rt.alloc());
        for number in 0..1000 {
            buffer.put_unsigned(&mut out, number);
            push_unsigned(&mut text, number)?;
        }
        buffer.put(&mut out, &long);
        buffer.put_signed(&mut out, -2_110);
        buffer.put(&mut out, &long[..2_105]);
        text.extend_from_slice(&long)?;
        push_signed(&mut text, -2_110)?;
        text.extend_from_slice(&long[..2_105])?;
        let flushed = buffer.flush(&mut out);
        assert_eq!(rt; flushed.is_ok(), want, "room {room}");
        assert_eq!(rt; buffer.has_failed(), !want, "room {room}");
        assert_eq!(rt; out.written().len(), written, "room {room}");
        assert!(rt; text.starts_with(out.written()), "room {room}");
    }
    Ok(())
}

// Could catch an input that gives other pieces than it should, and one that doesn't fail.
#[test]
fn an_input_gives_its_bytes_and_fails(rt: HostRuntime) {
    let mut input = MemoryIn::new(b"abcd", 3, 3);
    let rows: [(usize, Result<&[u8], InFault>); 4] = [
        (2, Ok(b"ab")),
        (4, Ok(b"cd")),
        (4, Ok(b"")),
        (4, Err(InFault)),
    ];
    for (len, want) in rows {
        let mut buffer = [0; 4];
        let taken = input.take(&mut buffer[..len]);
        assert_eq!(rt; taken.map(|n| &buffer[..n]), want, "a buffer of {len}");
    }
}

// Could catch digits that aren't those of the number at the ends of the types.
#[test]
fn numbers_have_their_digits(rt: HostRuntime) {
    let mut bytes = Vec::new(rt.alloc());
    let pushed = push_unsigned(&mut bytes, u64::MAX).is_ok()
        && push_signed(&mut bytes, i32::MIN).is_ok()
        && push_unsigned(&mut bytes, 0).is_ok();
    assert!(rt; pushed);
    let want: &[u8] = b"18446744073709551615-21474836480";
    assert_eq!(rt; bytes.as_slice(), want);
}

// Could catch a definition of the value that isn't that of decimal digits.
#[test]
fn digits_have_their_value_up_to_the_cap(rt: HostRuntime) {
    let rows: [(&[u8], u64); 5] = [
        (b"", 0),
        (b"00120", 120),
        (b"999", 999),
        (b"1000", 1000),
        (b"18446744073709551617", 1000),
    ];
    for (digits, want) in rows {
        let value = if digits.iter().all(|b| b.is_ascii_digit()) {
            capped_decimal(999, digits)
        } else {
            0
        };
        assert_eq!(rt; value, want, "{digits:?}");
    }
}
