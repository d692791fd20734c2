// What the trial programs share: tables read and told of, their lines and the numbers in them, vehicles and jobs as lines give them, sample rigs, and places measured.
#![tactic(auto)]

pub mod arguments;
pub mod counts;
pub mod digits;
pub mod places;
pub mod reading;
pub mod rigs;
pub mod tables;
pub mod trials;
