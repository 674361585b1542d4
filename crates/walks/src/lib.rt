// Walks: what a round can do on one charge, and when an image is accepted at a
// budget. The functions here carry the theorems of that theory.
#![tactic(auto)]

pub mod certified;
pub mod charge;
pub mod image_graph;
pub mod order;
pub mod placing;
pub mod worth;
