ghost use Rattle.std.specs.Prelude.{◌≡◌, [], ◌∷◌};
ghost use Rattle.code.specs.Meaning.{columns_of, data_of};

use crate::code::Code;
use crate::short::Short;

// The fresh code repeats its one data bit: column values 1 and 1, data column 0.
impl Default for Code {
    ghost is_default = { λ c. (columns_of c ≡ 1 ∷ (1 ∷ [])) × (data_of c ≡ 0 ∷ []) };

    fn default() -> Self {
        Code {
            values: Short::from_slice(&[1, 1], 0).unwrap(),
            message: Short::from_slice(&[0], 0).unwrap(),
            checks: Short::from_slice(&[1], 0).unwrap(),
        }
    }
}
