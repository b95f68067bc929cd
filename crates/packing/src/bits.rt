// Fields of a record, written most significant bit first.
ghost use Rattle.std.specs.Prelude.{◌<◌, [], ◌∷◌, length};
ghost use Rattle.house.specs.Fields.{field};
ghost use Rattle.packing.specs.Filling.{Puts, Space};

use house::low_bits;

// Writes a field behind the bits that are taken of the first byte lent. These are written again with the field's first bits, and the bits
// behind the field in its last byte become 0: of what stood there nothing shines through.
fn put_behind(out: &mut [u8], taken: usize, width: usize, value: u64)
    requires { (taken < 8) × Space taken width (length out.old) }
    ensures { Puts (field width value ∷ []) taken out.old out.new }
{
    let bits = taken + width;
    let bytes = (bits + 7) / 8;
    let begun = (out[0] as u64) >> (8 - taken);
    let n = ((begun << width) + low_bits(value, width)) << (8 * bytes - bits);
    for i in 0..bytes {
        let below = bytes - 1 - i;
        out[i] = ((n >> (8 * below)) % 256) as u8;
    }
}

// Writes a field at bits into a record: what is lent on is the output from the byte in which the field before it ended.
pub(crate) fn put(out: &mut [u8], at: usize, width: usize, value: u64)
    requires { Space at width (length out.old) }
    ensures { Puts (field width value ∷ []) at out.old out.new }
{
    put_behind(&mut out[at / 8..], at % 8, width, value);
}
