// The bytes of frames: how they are read and written, once modulus and sizes are known to be right. What they are to be stands in
// `frame`, the calls stand in `frame_calls`.
#![tactic(auto)]

mod bitmap;
pub mod reading;
pub mod records;
mod width;
pub mod writer;
