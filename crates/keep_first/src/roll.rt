// What a roll is to keep-first.
ghost use Rattle.std.specs.Prelude.{◌≡◌, ℕ, Bool};
ghost use Rattle.keep_first.specs.Model.{Classes, Equivalence};

/// A row of places. Some of them take part, some are the same, and some are preferred among the same.
/// The texts and the policy source that decide this are lent to each call, so that a roll never keeps them.
pub trait Roll<C, S> {
    ghost classes: { Self → C → S → Classes };

    ghost preferred: { Self → C → S → ℕ → Bool };

    // What each `impl` must prove of sameness.
    ghost alike: { (x : Self) (t : C) (s : S) → Equivalence (classes x t s).same };

    /// How many places there are.
    fn len(&self, texts: &C, source: &S) -> usize
        ensures { result ≡ (classes self.now texts.now source.now).count };

    fn takes_part(&self, texts: &C, source: &S, i: usize) -> bool
        ensures { result ≡ (classes self.now texts.now source.now).takes i };

    fn is_same(&self, texts: &C, source: &S, i: usize, j: usize) -> bool
        ensures { result ≡ (classes self.now texts.now source.now).same i j };

    fn is_preferred(&self, texts: &C, source: &S, i: usize) -> bool
        ensures { result ≡ preferred self.now texts.now source.now i };
}
