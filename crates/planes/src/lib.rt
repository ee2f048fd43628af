// What a plane's section shows: its polygons with their values, statistics, integrals, and the
// cell under a point.
#![tactic(auto)]

pub mod codes;
