// Inertias of bodies as 6×6 matrices, angular first (`forward_dynamics.rs`).
#![tactic(auto)]

ghost use Rattle.std.specs.Prelude.{◌≡◌, ◌+◌, ◌≤◌, ◌<◌};
ghost use Rattle.spatial.specs.Wrench.{vector_of};
ghost use Rattle.inertia.specs.Inertia.{block_of, from_blocks, rigid_of, inertia_apply, row_part, columns_of, signed_column, unit, along_of, inertia_apply_joint, subspace_of, moved_of, inertia_to_parent, reduce_of, average_of};

use arm::joint::Motion;
use numbers::mat3::Mat3;
use numbers::vec3::Vec3;
use numbers::{double, mat3};
use spatial::frame::Frame;
use spatial::twist::Twist;
use spatial::wrench::Wrench;

// The block whose first entry is (i, j).
fn block(m: &[f64; 36], i: usize, j: usize) -> Mat3
    requires { (i ≤ 3) × (j ≤ 3) }
    ensures { result ≡ block_of m.now i j }
{
    let a = i * 6 + j;
    let b = (i + 1) * 6 + j;
    let c = (i + 2) * 6 + j;
    Mat3 {
        r0: Vec3 {
            x: m[a],
            y: m[a + 1],
            z: m[a + 2],
        },
        r1: Vec3 {
            x: m[b],
            y: m[b + 1],
            z: m[b + 2],
        },
        r2: Vec3 {
            x: m[c],
            y: m[c + 1],
            z: m[c + 2],
        },
    }
}

// a b above c d.
#[tactic(auto, unfolding(crate::specs::Inertia::from_blocks))]
fn from_blocks(a: Mat3, b: Mat3, c: Mat3, d: Mat3) -> [f64; 36]
    ensures { result ≡ from_blocks a b c d }
{
    [
        a.r0.x, a.r0.y, a.r0.z, b.r0.x, b.r0.y, b.r0.z, a.r1.x, a.r1.y, a.r1.z, b.r1.x, b.r1.y, b
            .r1
            .z, a.r2.x, a.r2.y, a.r2.z, b.r2.x, b.r2.y, b.r2.z, c.r0.x, c.r0.y, c.r0.z, d.r0.x, d
            .r0
            .y, d.r0.z, c.r1.x, c.r1.y, c.r1.z, d.r1.x, d.r1.y, d.r1.z, c.r2.x, c.r2.y, c.r2.z, d
            .r2
            .x, d.r2.y, d.r2.z,
    ]
}

#[tactic(auto, unfolding(crate::specs::Inertia::rigid_of))]
pub fn rigid_body_inertia(mass: f64, moment: Vec3, inertia: Mat3) -> [f64; 36]
    ensures { result ≡ rigid_of mass moment inertia }
{
    let moment_cross = mat3::cross_matrix(moment);
    from_blocks(
        inertia,
        moment_cross,
        moment_cross.negated(),
        mat3::identity_by(mass),
    )
}

#[tactic(auto, unfolding(crate::specs::Inertia::inertia_apply))]
pub fn inertia_apply(m: &[f64; 36], motion: Twist) -> Wrench
    ensures { result ≡ inertia_apply m.now motion }
{
    let v = motion.to_vector();
    let w = mat6::apply(m, &v);
    Wrench::from_vector(&w)
}

// Row i of the three columns from o, times the axis.
#[tactic(auto, unfolding(crate::specs::Inertia::row_part))]
fn part(m: &[f64; 36], i: usize, o: usize, a: Vec3) -> f64
    requires { (i < 6) × (o ≤ 3) }
    ensures { result ≡ row_part m.now i o a }
{
    m[i * 6 + o] * a.x + m[i * 6 + (o + 1)] * a.y + m[i * 6 + (o + 2)] * a.z
}

#[tactic(auto, unfolding(crate::specs::Inertia::columns_of))]
fn columns(m: &[f64; 36], o: usize, a: Vec3) -> Wrench
    requires { o ≤ 3 }
    ensures { result ≡ columns_of m.now o a }
{
    let torque = Vec3 {
        x: part(m, 0, o, a),
        y: part(m, 1, o, a),
        z: part(m, 2, o, a),
    };
    let force = Vec3 {
        x: part(m, 3, o, a),
        y: part(m, 4, o, a),
        z: part(m, 5, o, a),
    };
    Wrench { torque, force }
}

// Column j, times the sign.
#[tactic(auto, unfolding(crate::specs::Inertia::signed_column))]
fn column(m: &[f64; 36], j: usize, s: f64) -> Wrench
    requires { j < 6 }
    ensures { result ≡ signed_column m.now j s }
{
    let torque = Vec3 {
        x: m[j] * s,
        y: m[6 + j] * s,
        z: m[12 + j] * s,
    };
    let force = Vec3 {
        x: m[18 + j] * s,
        y: m[24 + j] * s,
        z: m[30 + j] * s,
    };
    Wrench { torque, force }
}

// s is exactly 1 or -1, and the others are zeros.
#[tactic(auto, unfolding(crate::specs::Inertia::unit))]
fn is_unit(s: f64, a: f64, b: f64) -> bool
    ensures { result ≡ unit s a b }
{
    double::abs(s) == 1.0 && a == 0.0 && b == 0.0
}

// The three columns from o times the axis. Only an exact cardinal axis takes one column alone.
#[tactic(auto, unfolding(crate::specs::Inertia::along_of))]
fn along(m: &[f64; 36], o: usize, a: Vec3) -> Wrench
    requires { o ≤ 3 }
    ensures { result ≡ along_of m.now o a }
{
    if is_unit(a.x, a.y, a.z) {
        return column(m, o, a.x);
    }
    if is_unit(a.y, a.x, a.z) {
        return column(m, o + 1, a.y);
    }
    if is_unit(a.z, a.x, a.y) {
        return column(m, o + 2, a.z);
    }
    columns(m, o, a)
}

#[tactic(auto, unfolding(crate::specs::Inertia::inertia_apply_joint))]
pub fn inertia_apply_joint(m: &[f64; 36], motion: Motion) -> Wrench
    ensures { result ≡ inertia_apply_joint m.now motion }
{
    match motion {
        Motion::Turn(axis) => along(m, 0, axis),
        Motion::Slide(axis) => along(m, 3, axis),
        Motion::Fixed => Wrench::zeros(),
    }
}

#[tactic(auto, unfolding(crate::specs::Inertia::subspace_of))]
pub fn joint_motion_subspace(motion: Motion) -> Twist
    ensures { result ≡ subspace_of motion }
{
    let zero = Vec3 {
        x: 0.0,
        y: 0.0,
        z: 0.0,
    };
    match motion {
        Motion::Turn(axis) => Twist {
            angular: axis,
            linear: zero,
        },
        Motion::Slide(axis) => Twist {
            angular: zero,
            linear: axis,
        },
        Motion::Fixed => Twist {
            angular: zero,
            linear: zero,
        },
    }
}

// The blocks, turned already, moved by the translation whose cross matrix is p.
#[tactic(auto, unfolding(crate::specs::Inertia::moved_of))]
fn moved(p: Mat3, angular: Mat3, coupling: Mat3, linear: Mat3) -> [f64; 36]
    ensures { result ≡ moved_of p angular coupling linear }
{
    let translated_coupling = coupling.plus(p.times(linear));
    let translated_angular = angular
        .plus(p.times(coupling.transpose()))
        .minus(translated_coupling.times(p));
    from_blocks(
        translated_angular,
        translated_coupling,
        translated_coupling.transpose(),
        linear,
    )
}

#[tactic(auto, unfolding(crate::specs::Inertia::inertia_to_parent, numbers::specs::Mat3::turned_of))]
pub fn transform_inertia_to_parent(frame: Frame, m: &[f64; 36]) -> [f64; 36]
    ensures { result ≡ inertia_to_parent frame m.now }
{
    let rotation = frame.rotation.matrix();
    let back = rotation.transpose();
    let angular = rotation.times(block(m, 0, 0)).times(back);
    let coupling = rotation.times(block(m, 0, 3)).times(back);
    let linear = rotation.times(block(m, 3, 3)).times(back);
    moved(
        mat3::cross_matrix(frame.translation),
        angular,
        coupling,
        linear,
    )
}

// m - (u uᵀ) / d.
pub fn reduce(m: &[f64; 36], u: Wrench, d: f64) -> [f64; 36]
    ensures { result ≡ reduce_of m.now (vector_of u) d }
{
    let v = u.to_vector();
    let mut n = [0.0; 36];
    for i in 0..6 {
        for j in 0..6 {
            let t = i * 6 + j;
            n[t] = m[t] - (v[i] * v[j]) / d;
        }
    }
    n
}

// m * 0.5 + mᵀ * 0.5.
pub fn average(m: &[f64; 36]) -> [f64; 36]
    ensures { result ≡ average_of m.now }
{
    let mut n = [0.0; 36];
    for i in 0..6 {
        for j in 0..6 {
            let t = i * 6 + j;
            n[t] = m[t] * 0.5 + m[j * 6 + i] * 0.5;
        }
    }
    n
}
