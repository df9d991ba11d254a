// Candidates for a roll of recipients.
ghost use Rattle.std.specs.Prelude.{◌+◌, ◌≤◌, length};

/// The candidates from a number on, and which of them take part. They are numbered through: the author, To, Cc, and then
/// the texts that policies add, at most 9,249.
#[derive(Clone, Copy)]
pub struct Candidates<'t> {
    pub start: usize,
    pub takes: &'t [bool],
    ghost few: { start + length takes.now ≤ 9249 },
}
