// What `or` and `and` make of two lists.

#![tactic(auto)]

pub mod and; // the product of two lists
pub mod or; // two lists as one
