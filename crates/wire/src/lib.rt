// Numbers and doubles as little-endian bytes: where they stand in a record, which no call fails to take or to give; taken from a reader and given to a writer.
#![tactic(auto)]

ghost use Rattle.std.specs.Prelude.{◌≡◌, ◌+◌, ◌*◌, ◌≤◌, [], ◌∷◌, ◌++◌, length, drop, IfOk, OnOk};
ghost use Rattle.std.specs.Float.{binary64};
ghost use Rattle.std.specs.Float.Ieee.{of_bits, to_bits};
ghost use Rattle.std.specs.Io.KnownBytes.{Appends};
ghost use Rattle.wire.specs.Wire.{Takes, word16, word64, HoldsDoubles, blank, put32, put64, doubles_bytes};

use std::io;
use std::io::{Read, Write};
use std::num::{f64_from_bits_with_nan, f64_to_bits_with_nan};

// The 16-bit number that begins at place i.
pub fn u16_at(b: &[u8], i: usize) -> u16
    requires { i + 2 ≤ length b.now }
    ensures { result ≡ word16 b.now i }
{
    u16::from_le_bytes(*b[i..i + 2].as_array().unwrap())
}

// The double that begins at place i; every NaN's pattern is a NaN.
pub fn f64_at(b: &[u8], i: usize) -> f64
    requires { i + 8 ≤ length b.now }
    ensures { result ≡ of_bits binary64 (word64 b.now i) }
{
    f64_from_bits_with_nan(u64::from_le_bytes(*b[i..i + 8].as_array().unwrap()))
}

// As many doubles as x has places, which stand one after another from the first byte on.
pub fn doubles_in(b: &[u8], x: &mut [f64])
    requires { 8 * length x.old ≤ length b.now }
    ensures { HoldsDoubles x.new b.now }
{
    for (k, y) in x.iter_mut().enumerate() {
        *y = f64_at(b, 8 * k);
    }
}

// The four bytes of x.
pub fn u32_bytes(x: u32) -> [u8; 4]
    ensures { result ≡ put32 (blank 4) 0 x }
{
    u32::to_le_bytes(x)
}

// The eight bytes of x.
pub fn u64_bytes(x: u64) -> [u8; 8]
    ensures { result ≡ put64 (blank 8) 0 x }
{
    u64::to_le_bytes(x)
}

// The bytes of a double's pattern; a NaN's is 0x7ff8000000000000.
pub fn f64_bytes(x: f64) -> [u8; 8]
    ensures { result ≡ put64 (blank 8) 0 (to_bits binary64 x) }
{
    u64_bytes(f64_to_bits_with_nan(x))
}

// The bytes of all of x, one double after another, from the first byte on.
pub fn set_doubles(b: &mut [u8], x: &[f64])
    requires { 8 * length x.now ≤ length b.old }
    ensures { b.new ≡ doubles_bytes x.now ++ drop (8 * length x.now) b.old }
{
    for (k, y) in x.iter().enumerate() {
        b[8 * k..8 * k + 8].copy_from_slice(&f64_bytes(*y));
    }
}

// The next byte.
pub fn get_u8<R: Read>(input: &mut R) -> io::Result<u8>
    ensures { IfOk result (λ x. Takes 1 (λ b. b ≡ x ∷ []) (R.remaining input.old) (R.remaining input.new)) }
{
    let mut b = [0u8; 1];
    input.read_exact(&mut b)?;
    Ok(b[0])
}

// The 16-bit number that comes next.
pub fn get_u16<R: Read>(input: &mut R) -> io::Result<u16>
    ensures { IfOk result (λ x. Takes 2 (λ b. x ≡ word16 b 0) (R.remaining input.old) (R.remaining input.new)) }
{
    let mut b = [0u8; 2];
    input.read_exact(&mut b)?;
    Ok(u16::from_le_bytes(b))
}

// The double that comes next; every NaN's pattern is a NaN.
pub fn get_f64<R: Read>(input: &mut R) -> io::Result<f64>
    ensures { IfOk result (λ x. Takes 8 (λ b. x ≡ of_bits binary64 (word64 b 0)) (R.remaining input.old) (R.remaining input.new)) }
{
    let mut b = [0u8; 8];
    input.read_exact(&mut b)?;
    Ok(f64_from_bits_with_nan(u64::from_le_bytes(b)))
}

// As many doubles as x has places, one after another.
pub fn get_doubles<R: Read>(input: &mut R, x: &mut [f64]) -> io::Result<()>
    ensures { OnOk result (Takes (8 * length x.new) (HoldsDoubles x.new) (R.remaining input.old) (R.remaining input.new)) }
{
    for y in x.iter_mut() {
        *y = get_f64(input)?;
    }
    Ok(())
}

// The four bytes of x, after what the writer had.
pub fn put_u32<W: Write>(output: &mut W, x: u32) -> io::Result<()>
    ensures { OnOk result (Appends (W.contents output.old) (W.contents output.new) (put32 (blank 4) 0 x)) }
{
    output.write_all(&u32_bytes(x))
}

// The bytes of x's pattern, after what the writer had; a NaN's is 0x7ff8000000000000.
pub fn put_f64<W: Write>(output: &mut W, x: f64) -> io::Result<()>
    ensures { OnOk result (Appends (W.contents output.old) (W.contents output.new) (put64 (blank 8) 0 (to_bits binary64 x))) }
{
    output.write_all(&f64_bytes(x))
}

// The bytes of all of x, one double after another.
pub fn put_doubles<W: Write>(output: &mut W, x: &[f64]) -> io::Result<()>
    ensures { OnOk result (Appends (W.contents output.old) (W.contents output.new) (doubles_bytes x.now)) }
{
    for y in x {
        put_f64(output, *y)?;
    }
    Ok(())
}

#[cfg(test)]
mod tests {
    use super::*;
    use std::test::Fail;

    // What is written is read back, and then the input has ended.
    #[test]
    fn round_trip(rt: HostRuntime) -> Result<(), Fail> {
        let mut bytes = Vec::new(rt.alloc());
        bytes.write_all(&[7, 2, 1])?;
        put_u32(&mut bytes, 3)?;
        put_f64(&mut bytes, 1.5)?;
        put_doubles(&mut bytes, &[2.5, -0.5])?;
        let mut input = bytes.as_slice();
        assert_eq!(rt; get_u8(&mut input)?, 7);
        assert_eq!(rt; get_u16(&mut input)?, 0x0102);
        assert_eq!(rt; get_u16(&mut input)?, 3);
        assert_eq!(rt; get_u16(&mut input)?, 0);
        assert_eq!(rt; get_f64(&mut input)?, 1.5);
        let mut x = [0.0; 2];
        get_doubles(&mut input, &mut x)?;
        assert_eq!(rt; x, [2.5, -0.5]);
        assert!(rt; get_u8(&mut input).is_err());
        Ok(())
    }
}
