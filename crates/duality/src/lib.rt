//! What cuts prove of plans and of histories: the laws over the definitions of `water_model`.
#![tactic(auto)]

pub mod laws;
