// Frames, as the console sends them, theory only: see specs/ for 01's definitions and proofs/ for what holds of them. The bytes are read
// and written in `frame_bytes`, the calls stand in `frame_calls`.
#![tactic(auto)]
