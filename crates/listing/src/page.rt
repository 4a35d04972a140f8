// Text put piece after piece into a lent buffer, and what is put there.
ghost use Rattle.std.specs.Prelude.{◌≡◌, ℕ, ◌^◌, ◌<◌, ◌≤◌, ◌⊎◌, true, List, length, take, is_ok, IfOk, MatchResult};
ghost use Rattle.std.proofs.Math.Option.{some};
ghost use Rattle.records.specs.declared.refusal.Refusal.TheVariants.{BufferShort};
ghost use Rattle.meaning.specs.Text.{Line, numeral, row, text};
ghost use Rattle.meaning.specs.Reading.{read_lines};
ghost use Rattle.calls.specs.Listing.{written};
ghost use Rattle.listing.specs.Buffer.{Wrote, Listed};

use itoa::Buffer;
use records::refusal::Refusal;

// A lent buffer, and the place of the next piece. A piece that does not fit is counted, and not written. (Not
// `fmt::Write`: `write!` may answer an error, of which its contract says nothing, and by it the proof didn't close.)
#[derive(Drop)]
pub(crate) struct Page<'a> {
    out: &'a mut [u8],
    at: usize,
}

impl Page<'_> {
    fn put(&mut self, bytes: &[u8])
        ensures { Wrote self.old bytes.now self.new }
    {
        let end = self.at.saturating_add(bytes.len());
        if end <= self.out.len() {
            self.out[self.at..end].copy_from_slice(bytes);
        }
        self.at = end;
    }

    // The digits of n.
    fn put_number(&mut self, n: u64)
        ensures { Wrote self.old (numeral n) self.new }
    {
        self.put(Buffer::new().format(n).as_bytes());
    }

    // A word, the numbers with a blank before each, and the line's end.
    pub(crate) fn put_row(&mut self, word: &[u8], numbers: &[u64])
        ensures { Wrote self.old (row word.now numbers.now) self.new }
    {
        self.put(word);
        for n in numbers {
            self.put(b" ");
            self.put_number(*n);
        }
        self.put(b"\n");
    }
}

// What is put as lines, and how many bytes always suffice for them.
pub(crate) trait Listing {
    ghost lines: { Self → List Line };

    ghost most: { Self → ℕ };

    fn put(&self, page: &mut Page)
        ensures { Listed page.old (lines self.now) page.new (most self.now) };

    fn at_most(&self) -> usize
        ensures { result ≡ most self.now };
}

// How many bytes the lines have.
fn length_of<T: Listing>(listing: &T) -> usize
    requires { T.most listing.now < 2 ^ 32 }
    ensures length { result ≡ length (text (T.lines listing.now)) }
    ensures most { result ≤ T.most listing.now }
{
    let mut page = Page {
        out: &mut [],
        at: 0,
    };
    listing.put(&mut page);
    page.at
}

// Whether the lines fit into so many bytes; else the length that they need. They are counted only where what always
// suffices is not there: to count them takes about as long as to write them.
fn check_room<T: Listing>(room: usize, listing: &T) -> Result<(), Refusal>
    requires { T.most listing.now < 2 ^ 32 }
    ensures { MatchResult result
        (λ _. (T.most listing.now ≤ room) ⊎ (length (text (T.lines listing.now)) ≤ room))
        (λ e. (room < T.most listing.now) × (room < length (text (T.lines listing.now)))
        × (e ≡ BufferShort (length (text (T.lines listing.now))))) }
{
    if room >= listing.at_most() {
        return Ok(());
    }
    let needed = length_of(listing);
    if room < needed {
        return Err(Refusal::BufferShort(needed));
    }
    Ok(())
}

// The lines at the front of a buffer, and their length, or the length that they need.
pub(crate) fn fill<T: Listing>(out: &mut [u8], listing: &T) -> Result<usize, Refusal>
    requires { T.most listing.now < 2 ^ 32 }
    ensures lists { record { result = result; buffer = out.new } ≡ written out.old
        (text (T.lines listing.now)) }
    ensures within { IfOk result (λ n. n ≤ length out.old) }
    ensures heard { MatchResult result (λ n. read_lines (take n out.new) ≡ some (T.lines listing.now))
        (λ e. Unit {0}) }
    ensures fits { T.most listing.now ≤ length out.old → is_ok result ≡ true }
{
    check_room(out.len(), listing)?;
    let mut page = Page { out, at: 0 };
    listing.put(&mut page);
    Ok(page.at)
}
