//! Numbers in the bytes of a buffer, least byte first.

ghost use Rattle.std.specs.Prelude.{◌≡◌, ◌+◌, ◌*◌, ◌<◌, ◌≤◌, ◌^◌, length};
ghost use Rattle.nir_mean.specs.State.{is_inside, loaded, number_of, store_all, stored};

use nir_host::Bytes;

/// The number that bytes make.
fn number(bytes: &[u8]) -> u64
    requires { length bytes.now ≤ 8 }
    ensures value { result ≡ number_of bytes.now }
    ensures small { result < 256 ^ length bytes.now }
{
    let mut number: u64 = 0;
    let mut at = bytes.len();
    while at > 0 {
        at -= 1;
        let byte = bytes[at];
        number = number * 256 + byte as u64;
    }
    number
}

/// A component of so many bytes at a place, 0 where it is not wholly inside.
pub(crate) fn loaded(bytes: &[u8], size: usize, place: u64) -> u64
    requires few { size ≤ 8 }
    requires low { place < 2 ^ 34 }
    ensures value { result ≡ loaded bytes.now size place }
    ensures small { result < 256 ^ size }
{
    if place + size as u64 > bytes.len() as u64 {
        return 0;
    }
    number(&bytes[place as usize..place as usize + size])
}

/// Puts a component of so many bytes at a place; drops it where it is not wholly inside.
fn put(bytes: &mut Bytes, comp: u64, size: usize, place: u64)
    requires few { size ≤ 8 }
    requires low { place < 2 ^ 34 }
    ensures { bytes.new ≡ stored comp bytes.old size place }
{
    if place + size as u64 > bytes.len() as u64 {
        return;
    }
    let mut left = comp;
    for at in 0..size {
        *bytes.at_mut(place as usize + at) = (left % 256) as u8;
        left /= 256;
    }
}

/// Puts components one behind another, from the offset on.
pub(crate) fn put_all(bytes: &mut Bytes, comps: &[u64], size: usize, offset: u32)
    requires few { size ≤ 8 }
    requires short { length comps.now ≤ 16 }
    ensures { bytes.new ≡ store_all comps.now bytes.old size offset }
{
    let mut place = offset as u64;
    for comp in comps {
        put(bytes, *comp, size, place);
        place += size as u64;
    }
}
