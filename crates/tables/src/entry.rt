// An entry of a lent table: a fixed number of bytes.
ghost use Rattle.std.specs.Prelude.{◌≡◌, List, ℕ, [], ◌+◌, ◌*◌, ◌/◌, ◌<◌, ◌≤◌, length, take, drop, MatchOption};
ghost use Rattle.std.specs.Iterator.{YieldsFirst, item_count};
ghost use Rattle.tables.specs.Tables.{le64, joined, stored, kept, entry_at};
ghost use Rattle.tables.specs.Left.{entries_of, entries_left};

use std::cmp::min;
use std::marker::PhantomData;

pub trait Entry {
    const SIZE: usize;

    ghost SIZE: { ℕ };

    // The bytes of an entry, and the entry that bytes say.
    ghost encode: { Self → List ℕ };

    ghost decode: { List ℕ → Self };

    // Stores it as entry i, where there is room for it.
    fn put(self, table: &mut [u8], i: usize)
        ensures { table.new ≡ stored SIZE table.old i (encode self) };

    // Entry i, all 0 where there is no entry i: so a reader past the last token sees kind 0, which is none, without a test.
    fn at(table: &[u8], i: usize) -> Self
        ensures { result ≡ decode (entry_at SIZE table.now i) };

    // How many entries there is room for.
    fn room(table: &[u8]) -> usize
        ensures { result ≡ length table.now / SIZE }
    {
        table.len() / Self::SIZE
    }

    // All entries, in order.
    fn entries(table: &[u8]) -> Entries<'_, Self>
        ensures { entries_left SIZE decode result ≡ entries_of SIZE decode table.now }
    {
        Entries {
            rest: table,
            entry: PhantomData,
        }
    }

    // Clears all but the first k entries.
    fn keep(table: &mut [u8], k: usize)
        ensures { table.new ≡ kept SIZE k table.old }
    {
        let start = min(k, Self::room(table)) * Self::SIZE;
        table[start..].fill(0);
    }

    ghost positive: { 0 < SIZE };
}

// The entries that the rest of a table has.
#[derive(Drop)]
pub struct Entries<'a, E> {
    rest: &'a [u8],
    entry: PhantomData<E>,
}

impl<'a, E: Entry> Iterator for Entries<'a, E> {
    type Item = E;

    ghost next_gives = { YieldsFirst (entries_left E.SIZE E.decode) };

    ghost remaining = { item_count (entries_left E.SIZE E.decode) };

    #[tactic(auto, using(crate::proofs::Left::left_none, crate::proofs::Left::left_some))]
    fn next(&mut self) -> Option<E> {
        let (first, rest) = self.rest.split_at_checked(E::SIZE)?;
        self.rest = rest;
        Some(E::at(first, 0))
    }
}

// Stores entry i of these words, little-endian, where there is room for it. They are whole words, so that an entry is one or two moves.
pub(crate) fn store<const W: usize>(table: &mut [u8], i: usize, words: [u64; W])
    requires { (0 < W) × (W ≤ 2) }
    ensures { table.new ≡ stored (8 * W) table.old i (joined le64 words.entry) }
{
    if i < table.len() / (8 * W) {
        let start = i * (8 * W);
        for (k, word) in words.iter().enumerate() {
            let at = start + 8 * k;
            table[at..at + 8].copy_from_slice(&word.to_le_bytes());
        }
    }
}

// The bytes of entry i.
pub(crate) fn load<const N: usize>(table: &[u8], i: usize) -> Option<&[u8; N]>
    requires { 0 < N }
    ensures { MatchOption result (entry_at N table.now i ≡ []) (λ b. entry_at N table.now i ≡ b.now) }
{
    let (entries, _) = table.as_chunks::<N>();
    entries.get(i)
}
