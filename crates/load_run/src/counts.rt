//! How answers are counted.
ghost use Rattle.std.specs.Prelude.{◌≡◌, ◌<◌, ◌+◌, ◌^◌};
ghost use Rattle.load_run.specs.Counting as spec;

/// How many answers there were.
#[derive(Clone, Copy, Debug, PartialEq, Eq)]
pub struct Counts {
    /// With a status 2xx.
    pub ok: u64,
    /// With any other.
    pub refused: u64,
}

/// Whether the status of an answer is 2xx.
pub(crate) fn is_good(answer: &[u8]) -> bool
    ensures value { result ≡ spec.is_good answer.now }
{
    answer.starts_with(b"HTTP/1.1 2")
}

/// Whether the answer is that of lack of memory.
pub(crate) fn is_busy_answer(answer: &[u8]) -> bool
    ensures value { result ≡ spec.is_busy_answer answer.now }
{
    answer.starts_with(b"HTTP/1.1 503")
}

impl Counts {
    /// An answer more.
    pub(crate) fn count(&mut self, answer: &[u8])
        requires room { self.old.ok + self.old.refused < 2 ^ 63 }
        ensures value { self.new ≡ spec.counted self.old answer.now }
        ensures sum { self.new.ok + self.new.refused ≡ self.old.ok + self.old.refused + 1 }
    {
        if is_good(answer) {
            self.ok += 1;
        } else {
            self.refused += 1;
        }
    }
}
