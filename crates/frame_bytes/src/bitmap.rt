// The bit map of a frame, worked on as eight bytes whichever n is given and passed by value between the reader and the writer:
// built from a frame's front or from multipliers, put, asked and counted.
ghost use Rattle.std.specs.Prelude.{◌≡◌, ◌<◌, ◌≤◌, length, take};
ghost use Rattle.algebra.specs.Answers.{Tells};
ghost use Rattle.checks.specs.Largest.{largest};
ghost use Rattle.codec.specs.Placed.{placed};
ghost use Rattle.frame.specs.Bitmap.{bit_at, standing, ClearFrom, map_from, map_of, map_bits};

// The bits of a map: one for every record that there can be.
const BITS: usize = 64;

// The map of the first len bytes; the bytes after them are 0.
pub fn from_bytes(bytes: &[u8], len: usize) -> [u8; 8]
    requires { (len ≤ 8) × (len ≤ length bytes.now) }
    ensures { result ≡ map_from len bytes.now }
{
    let mut map = [0u8; 8];
    codec::put_bytes(&mut map, 0, &bytes[..len]);
    map
}

// The map of up to 64 multipliers: record j owns bit j mod 8 of byte j/8, and it stands where the multiplier is not 0.
pub fn of(multipliers: &[u32]) -> [u8; 8]
    requires { length multipliers.now ≤ largest }
    ensures { result ≡ map_of multipliers.now }
{
    let mut map = [0u8; 8];
    for (j, x) in multipliers.iter().enumerate() {
        if *x != 0 {
            map[j / 8] += 1 << (j % 8);
        }
    }
    map
}

// Puts the first len bytes of the map at the front.
pub fn put(map: [u8; 8], len: usize, bytes: &mut [u8])
    requires { (len ≤ 8) × (len ≤ length bytes.old) }
    ensures { bytes.new ≡ placed 0 (take len map) bytes.old }
{
    codec::put_bytes(bytes, 0, &map[..len]);
}

// Whether bit j stands.
pub fn stands(map: [u8; 8], j: usize) -> bool
    requires { j < largest }
    ensures { result ≡ bit_at map j }
{
    (map[j / 8] >> (j % 8)) % 2 == 1
}

// The number of standing bits.
pub fn standing(map: [u8; 8]) -> usize
    ensures { result ≡ standing (map_bits map) }
{
    let mut total: usize = 0;
    for b in &map {
        total += b.count_ones() as usize;
    }
    total
}

// Whether no bit stands at n or above.
pub fn unpadded(map: [u8; 8], n: usize) -> bool
    ensures { Tells result (ClearFrom n largest map) }
{
    for j in n..BITS {
        if stands(map, j) {
            return false;
        }
    }
    true
}
