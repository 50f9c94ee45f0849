// The room for the largest log, 64 frames of 64 multipliers and 16 values, and two words more.
pub const LARGEST_LOG: usize = 5122;
