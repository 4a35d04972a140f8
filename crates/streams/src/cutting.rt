// Records cut off a stream by their marks.
ghost use Rattle.std.specs.Prelude.{◌≡◌, ◌≤◌, length};
ghost use Rattle.streams.specs.Cutting.{step_size, said_size, record_size, first_record, after_first};

// What is left of a stream, and the number of the record that comes next. (That it is at most 226 behind the rows stands
// in three contracts: as a fact of the type it would be lost with the first step.)
#[derive(Clone, Copy)]
pub(crate) struct Left<'a> {
    pub(crate) rest: &'a [u8],
    pub(crate) record: u32,
}

// How long a step is by its mark: ST has 9 bytes, MD says in its third how many follow.
fn step_size(stream: &[u8]) -> usize
    ensures { result ≡ step_size stream.now }
{
    match stream {
        [b'S', b'T', ..] => 9,
        [b'M', b'D', count, ..] => 3 + usize::from(*count),
        _ => stream.len(),
    }
}

// How long the first record is by its mark; what has no mark of a record takes all.
fn said_size(stream: &[u8]) -> usize
    ensures { result ≡ said_size stream.now }
{
    match stream {
        [b'S', b'H', ..] => 7,
        [b'L', b'B', ..] => 6,
        [b'T', b'M', ..] => 8,
        [b'C', b'N', ..] => 9,
        _ => step_size(stream),
    }
}

// How long it is: a record that is shorter than its mark says takes all.
fn record_size(stream: &[u8]) -> usize
    ensures size { result ≡ record_size stream.now }
    ensures within { result ≤ length stream.now }
{
    said_size(stream).min(stream.len())
}

// Cuts off the first record: that, and what comes after it.
// It is no iterator over records: a row is due also where the stream has ended, and is then empty.
pub(crate) fn cut_off(stream: &[u8]) -> (&[u8], &[u8])
    ensures first { result.0.now ≡ first_record stream.now }
    ensures rest { result.1.now ≡ after_first stream.now }
{
    stream.split_at(record_size(stream))
}
