// Compiled reading rounds: the images of the C sources in examples/.
#![tactic(auto)]

pub mod eight_channel_scan;
pub mod piezometer_pair;
pub mod vnotch_weir;
