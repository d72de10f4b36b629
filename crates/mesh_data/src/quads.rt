//! Sums of squared planes.

ghost use Rattle.mesh_data.specs.Planes.{AreBounded};

/// The quadric of some planes n·p + d = 0: how many they are, and the sums over them of the products of their
/// coefficients a, b, c (the parts of n) and d. Each sum is within its bound by the number of planes, `dd` is not
/// negative, and there are at most 3 · 2^24 planes.
#[derive(Clone, Copy, Debug, PartialEq, Eq)]
pub struct Quad {
    pub planes: u32,
    pub aa: i128,
    pub ab: i128,
    pub ac: i128,
    pub ad: i128,
    pub bb: i128,
    pub bc: i128,
    pub bd: i128,
    pub cc: i128,
    pub cd: i128,
    pub dd: i128,
    pub ghost bounded: { AreBounded (record { planes = planes; aa = aa; ab = ab; ac = ac; ad = ad; bb = bb; bc = bc; bd = bd; cc = cc; cd = cd; dd = dd }) },
}
