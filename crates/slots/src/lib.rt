// Struct-sized reads and writes in a lent slice of numbers, at an offset, and the test of a part. Every store to a workspace is made here.
#![tactic(auto)]

ghost use Rattle.std.specs.Prelude.{◌≡◌, ◌+◌, ◌≤◌, ◌<◌, length, get_or, set, take, drop};
ghost use Rattle.std.specs.Float.{nan};
ghost use Rattle.numbers.specs.Double.{all_finite};
ghost use Rattle.slots.specs.Slots.{vec3_at, put_vec3, mat3_at, put_mat3, mat6_at, put_mat6, twist_at, put_twist, wrench_at, put_wrench, frame_at, put_frame, zero_to, cleared, part_of};

use numbers::double;
use numbers::mat3::Mat3;
use numbers::quaternion::Quaternion;
use numbers::vec3::Vec3;
use spatial::frame::Frame;
use spatial::twist::Twist;
use spatial::wrench::Wrench;

pub fn number_at(s: &[f64], at: usize) -> f64
    requires { at < length s.now }
    ensures { result ≡ get_or s.now at nan }
{
    s[at]
}

// Whether `count` numbers from `at` on are finite.
pub fn finite_part(s: &[f64], at: usize, count: usize) -> bool
    requires { at + count ≤ length s.now }
    ensures { result ≡ all_finite (take count (drop at s.now)) }
{
    double::all_finite(&s[at..at + count])
}

pub fn put_number(s: &mut [f64], at: usize, x: f64)
    requires { at < length s.old }
    ensures { s.new ≡ set s.old at x }
{
    s[at] = x;
}

pub fn vec3_at(s: &[f64], at: usize) -> Vec3
    requires { at + 3 ≤ length s.now }
    ensures { result ≡ vec3_at s.now at }
{
    Vec3 {
        x: s[at],
        y: s[at + 1],
        z: s[at + 2],
    }
}

#[tactic(auto, unfolding(crate::specs::Slots::put_vec3))]
pub fn put_vec3(s: &mut [f64], at: usize, v: Vec3)
    requires { at + 3 ≤ length s.old }
    ensures { s.new ≡ put_vec3 s.old at v }
{
    s[at] = v.x;
    s[at + 1] = v.y;
    s[at + 2] = v.z;
}

#[tactic(auto, unfolding(crate::specs::Slots::mat3_at))]
pub fn mat3_at(s: &[f64], at: usize) -> Mat3
    requires { at + 9 ≤ length s.now }
    ensures { result ≡ mat3_at s.now at }
{
    let r0 = vec3_at(s, at);
    let r1 = vec3_at(s, at + 3);
    let r2 = vec3_at(s, at + 6);
    Mat3 { r0, r1, r2 }
}

#[tactic(auto, unfolding(crate::specs::Slots::put_mat3))]
pub fn put_mat3(s: &mut [f64], at: usize, m: Mat3)
    requires { at + 9 ≤ length s.old }
    ensures { s.new ≡ put_mat3 s.old at m }
{
    let r0 = m.r0;
    let r1 = m.r1;
    let r2 = m.r2;
    put_vec3(s, at, r0);
    put_vec3(s, at + 3, r1);
    put_vec3(s, at + 6, r2);
}

pub fn mat6_at(s: &[f64], at: usize) -> [f64; 36]
    requires { at + 36 ≤ length s.now }
    ensures { result ≡ mat6_at s.now at }
{
    std::array::from_fn(|t| s[at + t])
}

#[tactic(auto, using(crate::proofs::Slices::put_is))]
pub fn put_mat6(s: &mut [f64], at: usize, m: &[f64; 36])
    requires { at + 36 ≤ length s.old }
    ensures { s.new ≡ put_mat6 s.old at m.now }
{
    s[at..at + 36].copy_from_slice(m);
}

#[tactic(auto, unfolding(crate::specs::Slots::twist_at))]
pub fn twist_at(s: &[f64], at: usize) -> Twist
    requires { at + 6 ≤ length s.now }
    ensures { result ≡ twist_at s.now at }
{
    let angular = vec3_at(s, at);
    let linear = vec3_at(s, at + 3);
    Twist { angular, linear }
}

#[tactic(auto, unfolding(crate::specs::Slots::put_twist))]
pub fn put_twist(s: &mut [f64], at: usize, v: Twist)
    requires { at + 6 ≤ length s.old }
    ensures { s.new ≡ put_twist s.old at v }
{
    let angular = v.angular;
    let linear = v.linear;
    put_vec3(s, at, angular);
    put_vec3(s, at + 3, linear);
}

#[tactic(auto, unfolding(crate::specs::Slots::wrench_at))]
pub fn wrench_at(s: &[f64], at: usize) -> Wrench
    requires { at + 6 ≤ length s.now }
    ensures { result ≡ wrench_at s.now at }
{
    let torque = vec3_at(s, at);
    let force = vec3_at(s, at + 3);
    Wrench { torque, force }
}

#[tactic(auto, unfolding(crate::specs::Slots::put_wrench))]
pub fn put_wrench(s: &mut [f64], at: usize, w: Wrench)
    requires { at + 6 ≤ length s.old }
    ensures { s.new ≡ put_wrench s.old at w }
{
    let torque = w.torque;
    let force = w.force;
    put_vec3(s, at, torque);
    put_vec3(s, at + 3, force);
}

#[tactic(auto, unfolding(crate::specs::Slots::frame_at))]
pub fn frame_at(s: &[f64], at: usize) -> Frame
    requires { at + 7 ≤ length s.now }
    ensures { result ≡ frame_at s.now at }
{
    let w = number_at(s, at);
    let u = vec3_at(s, at + 1);
    let translation = vec3_at(s, at + 4);
    Frame {
        rotation: Quaternion { w, u },
        translation,
    }
}

#[tactic(auto, unfolding(crate::specs::Slots::put_frame))]
pub fn put_frame(s: &mut [f64], at: usize, f: Frame)
    requires { at + 7 ≤ length s.old }
    ensures { s.new ≡ put_frame s.old at f }
{
    let q = f.rotation;
    let w = q.w;
    let u = q.u;
    let translation = f.translation;
    put_number(s, at, w);
    put_vec3(s, at + 1, u);
    put_vec3(s, at + 4, translation);
}

// `count` numbers from `at` on become +0.0.
#[tactic(auto, using(crate::proofs::Slices::zero_is))]
pub fn zero_part(s: &mut [f64], at: usize, count: usize)
    requires { at + count ≤ length s.old }
    ensures { s.new ≡ zero_to s.old at count }
{
    s[at..at + count].fill(0.0);
}

// Every number becomes +0.0.
#[tactic(auto, using(crate::proofs::Slices::cleared_is))]
pub fn clear(s: &mut [f64])
    ensures { s.new ≡ cleared s.old }
{
    s.fill(0.0);
}

// The numbers of s from `at` on fill d.
#[tactic(auto, using(crate::proofs::Slices::part_is))]
pub fn copy_from(d: &mut [f64], s: &[f64], at: usize)
    requires { at + length d.old ≤ length s.now }
    ensures { d.new ≡ part_of s.now at (length d.old) }
{
    d.copy_from_slice(&s[at..at + d.len()]);
}
