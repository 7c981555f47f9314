ghost use Rattle.std.specs.Prelude.{◌≡◌, ◌<◌, ◌≤◌, [], ◌∷◌, ◌++◌, length, MatchResult};
ghost use Rattle.code.specs.Shorts.{kept};

use crate::short::Short;

// There is no room for one value more.
#[derive(Clone, Copy, PartialEq, Eq, Debug)]
pub struct Full;

impl<T: Copy, const N: usize> Short<T, N> {
    // No values; the filler stands where they will be.
    pub fn new(filler: T) -> Self
        ensures { kept result ≡ [] }
    {
        Short {
            all: [filler; N],
            size: 0,
        }
    }

    // The values of the slice, where there is room for them.
    pub fn from_slice(values: &[T], filler: T) -> Result<Self, Full>
        ensures { MatchResult result (λ s. kept s ≡ values.now) (λ _. N < length values.now) }
    {
        if values.len() > N {
            return Err(Full);
        }
        let mut all = [filler; N];
        all[..values.len()].copy_from_slice(values);
        Ok(Short {
            all,
            size: values.len(),
        })
    }

    // The values, in the order in which they came.
    pub fn as_slice(&self) -> &[T]
        ensures value { result.now ≡ kept self.now }
        ensures room { length result.now ≤ N }
    {
        &self.all[..self.size]
    }

    // One value more, behind the others; where there is no room for it, nothing changes.
    pub fn push(&mut self, value: T) -> Result<(), Full>
        ensures { MatchResult result (λ _. kept self.new ≡ kept self.old ++ (value ∷ [])) (λ _. (length (kept self.old) ≡ N) × (self.new ≡ self.old)) }
    {
        if self.size >= N {
            return Err(Full);
        }
        self.all[self.size] = value;
        self.size += 1;
        Ok(())
    }
}
