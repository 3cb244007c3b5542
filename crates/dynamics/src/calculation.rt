// A calculation and its root.
ghost use Rattle.std.specs.Prelude.{◌≡◌};
ghost use Rattle.dynamics.specs.Calculation.{is_matrix, floats};

use forward_dynamics::forward_dynamics as forward;
use mass_matrix::mass_matrix as matrix;

#[derive(Clone, Copy)]
pub enum Calculation {
    Matrix(matrix::Mode),
    Forward(forward::Mode),
}

impl Calculation {
    pub fn is_matrix(self) -> bool
        ensures { result ≡ is_matrix self }
    {
        match self {
            Calculation::Matrix(_) => true,
            Calculation::Forward(_) => false,
        }
    }

    pub fn floats(self) -> bool
        ensures { result ≡ floats self }
    {
        match self {
            Calculation::Matrix(mode) => mode.floats(),
            Calculation::Forward(mode) => mode.floats(),
        }
    }
}
