// What stands in words and in numbers that are as they were: modulo 7 no residue and no record.
pub const WORD: u32 = 9;

pub const NUMBER: i32 = -9;
