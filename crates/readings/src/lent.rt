// The buffers that a calculation's request is lent.
ghost use Rattle.std.specs.Prelude.{◌≡◌, length};
ghost use Rattle.readings.specs.Lent.{ones};

// Room for any output.
pub fn output_buffer() -> [f64; 2048]
    ensures { 2048 ≡ length result }
{
    [0.0; 2048]
}

// Each lent number holds 1.0 before the call.
pub fn fill(s: &mut [f64])
    ensures { s.new ≡ ones (length s.old) }
{
    s.fill(1.0);
}
