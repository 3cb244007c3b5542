// A guess at a root, made in floats. Of the guess itself nothing is claimed but its size: `rounded` tests it.
ghost use Rattle.std.specs.Prelude.{◌≤◌, ◌<◌};
ghost use Rattle.square_root.specs.Guess.{SquareOf};

// top * 2^52 + low
#[derive(Clone, Copy)]
pub struct Square {
    pub top: u64,
    pub low: u64,
}

// The square of m = h * 2^26 + l, which is h * h * 2^52 + h * l * 2^27 + l * l.
pub fn squared(m: u64) -> Square
    requires { m < 9007199254740992 }
    ensures { SquareOf m result.top result.low }
{
    let h = m / 67108864;
    let l = m % 67108864;
    let p = h * l;
    Square {
        top: h * h + p / 33554432,
        low: p % 33554432 * 134217728 + l * l,
    }
}

// y nearer 1 / root x, for h = x / 2.
fn nearer(h: f64, y: f64) -> f64 {
    1.5 * y - (h * y) * (y * y)
}

// The 53 digits of the root of the double whose pattern is b, the last of them off by one at most; those of a subnormal are further off.
// x is that double times a power of 4, from 1/2 to below 2. Halving its pattern gives the first y, off by some 3 %, and each step doubles the digits.
pub fn estimate(b: u64) -> u64
    ensures { (4503599627370496 ≤ result) × (result < 9007199254740992) }
{
    let v = b % 9007199254740992 + 4602678819172646912;
    let x = f64::from_bits(v);
    let h = x * 0.5;
    let y0 = f64::from_bits(0x5fe6eb50c7b537a9 - v / 2);
    let y = nearer(h, nearer(h, nearer(h, y0)));
    let s = x * y;
    let t = s + (0.5 * y) * (x - s * s);
    if t < 2.0 {
        return t.to_bits() % 4503599627370496 + 4503599627370496;
    }
    4503599627370496
}
