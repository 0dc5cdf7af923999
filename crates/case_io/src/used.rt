// The entries of a table that an answer uses.
ghost use Rattle.std.specs.Prelude.{◌≡◌, ◌≤◌, ◌++◌, length, OnOk};
ghost use Rattle.std.specs.List.{flat_map};
ghost use Rattle.std.specs.Io.KnownBytes.{Appends};
ghost use Rattle.tables.specs.Left.{entries_of};
ghost use Rattle.case_io.specs.Used.{first};

use crate::rows::{Row, Spelled};
use std::io;
use std::io::Write;
use std::marker::PhantomData;
use tables::Entry;

// The first entries of a table, so many or as many as there are.
#[derive(Clone, Copy)]
pub struct UsedEntries<'a, E> {
    pub table: &'a [u8],
    pub count: usize,
    pub entry: PhantomData<E>,
}

impl<'a, E: Entry> UsedEntries<'a, E> {
    pub fn new(table: &'a [u8], count: usize) -> UsedEntries<'a, E>
        ensures table { result.table.now ≡ table.now }
        ensures count { result.count ≡ count }
    {
        UsedEntries {
            table,
            count,
            entry: PhantomData,
        }
    }

    // Their bytes.
    #[tactic(auto, unfolding(crate::specs::Used::first))]
    pub fn bytes(&self) -> &'a [u8]
        ensures { result.now ≡ first E.SIZE self.now.count self.now.table.now }
    {
        &self.table[..self.count.min(E::room(self.table)) * E::SIZE]
    }
}

impl<E: Spelled> UsedEntries<'_, E> {
    // How many bytes of the table are not zero though they are in no field of them.
    pub fn stray(&self) -> usize
        ensures { result ≤ length self.now.table.now }
    {
        let used = self.bytes().len();
        self.table
            .iter()
            .enumerate()
            .filter(|&(i, b)| *b != 0 && (i >= used || E::GAP.contains(&(i % E::SIZE))))
            .count()
    }

    // Writes each of them as it is spelled, after the mark.
    pub fn write<W: Write>(&self, out: &mut W, mark: &str) -> io::Result<()>
        ensures { OnOk result (Appends (W.contents out.old) (W.contents out.new) (flat_map (λ e. mark.now ++ E.spelling e) (entries_of E.SIZE E.decode (first E.SIZE self.now.count self.now.table.now)))) }
    {
        for entry in E::entries(self.bytes()) {
            write!(out, "{mark}{}", Row(entry))?;
        }
        Ok(())
    }
}
