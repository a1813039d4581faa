//! Gates, which connections pass.

use std::sync::Wait;

/// Where a connection passes a gate: once its request is read, and once it is answered.
#[derive(Clone, Copy, Debug, PartialEq, Eq)]
pub enum Point {
    Read,
    Answered,
}

/// What connections pass.
pub trait Gate {
    /// Lets the connection of a seat pass, now or later.
    fn pass<W: Wait>(&self, rt: &W, seat: u32, point: Point);
}

/// A gate that stands open.
#[derive(Drop)]
pub struct NoGate;

impl Gate for NoGate {
    fn pass<W: Wait>(&self, _rt: &W, _seat: u32, _point: Point) {}
}
