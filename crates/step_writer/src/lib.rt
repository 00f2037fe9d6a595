// The parts of a trail in shortest form into a lent output, one after the other: time and jump steps by their labels, walks, regions.
#![tactic(auto)]

mod label;
mod put;

pub use label::{least_label, walk_label};
pub use put::{put_label, put_region, put_walk};
