// One sample of a plane's section: its measure and its values, and what each answer keeps of it.
#![tactic(auto)]

use arith::Vec2;
use reading::Values;

pub mod keep;
pub mod measures;
mod write;

// The running sums of `section_statistics_csv`.
#[derive(Clone, Copy)]
pub struct Sums {
    pub used: u64,
    pub area: f64,
    pub least: f64,
    pub most: f64,
    pub integral: f64,
    pub flux: f64,
    pub positive: f64,
    pub negative: f64,
    pub weighted: f64,
}

// The running sums of `plane_integrals::sample`.
#[derive(Clone, Copy)]
pub struct Integral {
    pub area: f64,
    pub pressure: f64,
    pub speed: f64,
    pub flux: f64,
}

// What is kept of the samples: how many polygons were written and where the next one goes;
// the sums of a field; the integrals; the sample over a point.
#[derive(Clone, Copy)]
pub enum Accumulator {
    Section(usize, usize),
    Statistics(u64, Option<Sums>),
    Integrals(Option<Integral>),
    Probe(Vec2, Option<(usize, Values)>),
}
