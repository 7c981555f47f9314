ghost use Rattle.std.specs.Prelude.{◌≡◌, ℕ, List, length};
ghost use Rattle.code.specs.Search.{among};
ghost use Rattle.listings.specs.Lawful.{Lawful, pattern_at};

use code::Refusal;

// A class of errors. It means a width and a listing of patterns; what its questions answer follows from
// these two, and whoever asks may rest on them without knowing which class it is.
pub trait ErrorClass {
    ghost wide: { Self → ℕ };

    ghost patterns: { Self → List ℕ };

    // What every class shows of its width and its listing.
    ghost lawful: { (s : Self) → Lawful (wide s) (patterns s) };

    // How many columns a word has.
    fn width(&self) -> usize
        ensures { result ≡ wide self.now };

    // How many patterns are listed.
    fn count(&self) -> usize
        ensures { result ≡ length (patterns self.now) };

    // The pattern at a number, counted from 0; from the count on there is none.
    fn pattern_at(&self, i: usize) -> Result<u64, Refusal>
        ensures { result ≡ pattern_at (patterns self.now) i };

    // Whether the mask is listed. The answer is for every mask, also for one wider than the class.
    fn belongs(&self, mask: u64) -> bool
        ensures { result ≡ among (patterns self.now) mask };
}
