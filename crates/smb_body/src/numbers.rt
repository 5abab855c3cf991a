//! Numbers of several widths, added one behind the other.

ghost use Rattle.std.specs.Prelude.{◌≡◌, ◌++◌, length, take, flat_map, OnOk, OnErr};
ghost use Rattle.smb_body.specs.Numbers.{number_bytes};

use smb_wire::{WireFault, put_u8, put_u16, put_u32, put_u64};

/// A number of the fixed part of a request, by its width.
#[derive(Clone, Copy)]
pub(crate) enum Number {
    U8(u8),
    U16(u16),
    U32(u32),
    U64(u64),
}

/// Adds a number. After an error `out` is as it was.
fn put_number(number: Number, out: &mut Vec<u8>) -> Result<(), WireFault>
    ensures ok { OnOk result (out.new.items ≡ out.old.items ++ number_bytes number) }
    ensures err { OnErr result (out.new.items ≡ out.old.items) }
{
    match number {
        Number::U8(value) => put_u8(out, value),
        Number::U16(value) => put_u16(out, value),
        Number::U32(value) => put_u32(out, value),
        Number::U64(value) => put_u64(out, value),
    }
}

/// Adds numbers, one behind the other. After an error some of them stand there.
pub(crate) fn put_numbers(numbers: &[Number], out: &mut Vec<u8>) -> Result<(), WireFault>
    ensures ok { OnOk result (out.new.items ≡ out.old.items ++ flat_map number_bytes numbers.now) }
    ensures kept { take (length out.old.items) out.new.items ≡ out.old.items }
{
    for number in numbers {
        put_number(*number, out)?;
    }
    Ok(())
}
