// Which edges hold a lock, without walking past all others.
ghost use Rattle.std.specs.Prelude.{◌≡◌, ℕ, ◌+◌, ◌*◌, ◌/◌, ◌^◌, ◌<◌, ◌≤◌, min, true, false, ◌&&◌, ◌||◌, length, ◌==◌, bit_or, MatchOption};
ghost use Rattle.recording.specs.Enumeration.{row_at};
ghost use Rattle.recording.specs.Walks.{first_from};
ghost use Rattle.rows.specs.Edges.{is_edge};
ghost use Rattle.search.specs.Indexes.{holding, mark, Indexes};

use rows::Edge;

// The places of the rows are cut into at most 64 blocks of one size. Bit b of a lock's word says that in block b stands an edge
// that holds the lock.
#[derive(Drop)]
pub(crate) struct Index {
    size: usize,
    blocks: [u64; 64],
}

// Whether the row is an edge that holds the lock.
fn holds(edge: &Edge, lock: u8) -> bool
    ensures { result ≡ holding lock edge.now }
{
    lock == edge.held && edge.is_edge()
}

// The blocks of a word and one more. One shift, as in the sets of other crates.
fn with_block(word: u64, block: usize) -> u64
    requires { block < 64 }
    ensures { result ≡ bit_or word (2 ^ block) }
{
    word | 1 << block
}

// The first place from one place on and before another whose row is an edge that holds the lock.
fn scan(rows: &[Edge], lock: u8, from: usize, end: usize) -> Option<usize>
    requires { (from ≤ «end») × («end» ≤ length rows.now) }
    ensures { MatchOption result ((k : ℕ) → from ≤ k → k < «end» → holding lock (row_at rows.now k) ≡ false)
        (λ place. first_from (holding lock) rows.now from ≡ Some place) }
{
    (from..end).find(|place| holds(&rows[*place], lock))
}

impl Index {
    // The index of the rows.
    pub(crate) fn build(rows: &[Edge]) -> Index
        ensures { Indexes rows.now result }
    {
        let size = rows.len() / 64 + 1;
        let mut index = Index {
            size,
            blocks: [0; 64],
        };
        for (i, edge) in rows.iter().enumerate() {
            index.add(edge, i / size);
        }
        index
    }

    // Marks the block for the lock that the row holds, if it is an edge.
    fn add(&mut self, edge: &Edge, block: usize)
        requires { block < 64 }
        ensures marks { (lock b : ℕ) → mark self.new lock b ≡ ((holding lock edge.now && b == block) || mark self.old lock b) }
        ensures size { self.new.size ≡ self.old.size }
    {
        if edge.is_edge() {
            let lock = usize::from(edge.held);
            self.blocks[lock] = with_block(self.blocks[lock], block);
        }
    }

    // The first marked block from a block on.
    fn next_block(&self, lock: u8, block: usize) -> Option<usize>
        requires { (lock ≤ 63) × (block ≤ 64) }
        ensures { MatchOption result ((b : ℕ) → block ≤ b → b < 64 → mark self.now lock b ≡ false)
            (λ next. (block ≤ next) × (next < 64) × ((b : ℕ) → block ≤ b → b < next → mark self.now lock b ≡ false)) }
    {
        let later = self.blocks[usize::from(lock)].checked_shr(block as u32)?;
        let next = block + later.trailing_zeros() as usize;
        (next < 64).then_some(next)
    }

    // The first place from a place on whose row is an edge that holds the lock. `Graph` has `Indexes` as a fact of its own.
    pub(crate) fn next_holding(&self, rows: &[Edge], lock: u8, from: usize) -> Option<usize>
        requires { (lock ≤ 63) × (Indexes rows.now self.now) }
        ensures { result ≡ first_from (holding lock) rows.now from }
    {
        let mut at = from;
        // By blocks, not by places: an iterator would walk the blocks that hold nothing.
        while at < rows.len() {
            let end = self.end_of_block(at, rows.len());
            if let Some(place) = scan(rows, lock, at, end) {
                return Some(place);
            }
            at = self.next_block(lock, at / self.size + 1)? * self.size;
        }
        None
    }

    // The end of the block that the place stands in, or of all the places.
    fn end_of_block(&self, at: usize, len: usize) -> usize
        requires { (at < len) × (0 < self.now.size) }
        ensures { result ≡ min ((at / self.now.size + 1) * self.now.size) len }
    {
        at + (self.size - at % self.size).min(len - at)
    }
}
