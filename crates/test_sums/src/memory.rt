// The numbers that are summed up. Only their length is given, so that no goal holds them.
ghost use Rattle.std.specs.Prelude.{◌≡◌, length};

// How many there are.
pub const COUNT: usize = 100100;

// The largest number of 32 bits, everywhere.
pub fn largest() -> [u32; COUNT]
    ensures { length result ≡ 100100 }
{
    [4294967295; COUNT]
}

// Numbers of all sizes, the first of them the largest: number i is 2^32 - 1 less i × 2654435761, modulo 2^32.
pub fn mixed() -> [u32; COUNT]
    ensures { length result ≡ 100100 }
{
    let mut numbers = largest();
    for (i, number) in numbers.iter_mut().enumerate() {
        *number = 4294967295 - (i as u64 * 2654435761 % 4294967296) as u32;
    }
    numbers
}
