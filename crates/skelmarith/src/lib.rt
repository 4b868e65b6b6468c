// The floor link for C and Rust: the functions that the static library exports. link/skelmarith.h declares them.
#![tactic(auto)]

mod floor;
mod packets;
mod point;
mod whole_script;
