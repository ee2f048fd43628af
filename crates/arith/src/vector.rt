// Vectors of three floats, by value: each sum and product rounded once, in the Rust's order.
ghost use Rattle.std.specs.Prelude.{◌≡◌};
ghost use Rattle.arith.specs.Vec as Vec;
ghost use Rattle.arith.specs.F64.{finite, within};

use crate::{Vec3, float};

impl Vec3 {
    pub fn new(x: f64, y: f64, z: f64) -> Vec3
        ensures { result ≡ Vec.vec x y z }
    {
        Vec3 { x, y, z }
    }

    // self + other
    pub fn add(self, other: Vec3) -> Vec3
        ensures { result ≡ Vec.plus self other }
    {
        Vec3 {
            x: self.x + other.x,
            y: self.y + other.y,
            z: self.z + other.z,
        }
    }

    // self - other
    pub fn sub(self, other: Vec3) -> Vec3
        ensures { result ≡ Vec.minus self other }
    {
        Vec3 {
            x: self.x - other.x,
            y: self.y - other.y,
            z: self.z - other.z,
        }
    }

    // self * k
    pub fn scale(self, k: f64) -> Vec3
        ensures { result ≡ Vec.times self k }
    {
        Vec3 {
            x: self.x * k,
            y: self.y * k,
            z: self.z * k,
        }
    }

    // self / k
    pub fn div(self, k: f64) -> Vec3
        ensures { result ≡ Vec.over self k }
    {
        Vec3 {
            x: self.x / k,
            y: self.y / k,
            z: self.z / k,
        }
    }

    pub fn dot(self, other: Vec3) -> f64
        ensures { result ≡ Vec.dot self other }
    {
        self.x * other.x + self.y * other.y + self.z * other.z
    }

    pub fn cross(self, other: Vec3) -> Vec3
        ensures { result ≡ Vec.cross self other }
    {
        Vec3 {
            x: self.y * other.z - self.z * other.y,
            y: self.z * other.x - self.x * other.z,
            z: self.x * other.y - self.y * other.x,
        }
    }

    pub fn norm_squared(self) -> f64
        ensures { result ≡ Vec.norm_squared self }
    {
        self.dot(self)
    }

    pub fn norm(self) -> f64
        ensures { result ≡ Vec.norm self }
    {
        arith_root::sqrt(self.norm_squared())
    }

    // All three coordinates are finite.
    pub fn is_finite(self) -> bool
        ensures { result ≡ Vec.each3 finite self }
    {
        float::is_finite(self.x) && float::is_finite(self.y) && float::is_finite(self.z)
    }

    // No coordinate is beyond 1,048,576 in size.
    pub fn is_within(self) -> bool
        ensures { result ≡ Vec.each3 within self }
    {
        float::within(self.x) && float::within(self.y) && float::within(self.z)
    }
}
