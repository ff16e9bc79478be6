// Links and counts that are kept beside a table. Nothing is asked of the slices: past the end an entry reads as 0, and nothing is written there.
#![tactic(auto)]

ghost use Rattle.std.specs.Prelude.{ℕ, Bool, ◌≡◌, ◌<◌, ◌^◌, length, get_or, replicate};
ghost use Rattle.laws.specs.Links.{links_of, pushed, link_at, any_along, first_along, counted_at, key_among, short};
ghost use Rattle.chains.specs.Held.{links_in, SameSlices};

// How many keys the tables of versions 1 and 2 have: for their vertices, and for the faces of their base records.
pub const KEYS: usize = 8192;

pub const FACE_KEYS: usize = 32768;

// The greatest number that an entry holds.
const GREATEST: u16 = 65535;

// The key of x, one of so many.
pub fn key(x: usize, keys: usize) -> usize
    ensures { result ≡ key_among keys x }
{
    if keys == 0 {
        return 0;
    }
    x & (keys - 1)
}

// The entry at an index: a head, a link or a count; 0 past the end.
pub fn at(table: &[u16], i: usize) -> usize
    ensures { result ≡ get_or table.now i 0 }
{
    table.get(i).map_or(0, |entry| *entry as usize)
}

// One more at an index, if the table has it and one more fits an entry.
pub fn count(table: &mut [u16], i: usize)
    ensures { table.new ≡ counted_at table.old i }
{
    if table.len() <= i {
        return;
    }
    if table[i] == GREATEST {
        return;
    }
    table[i] += 1;
}

// Kept numbers: a head or a link is one more than the number that it leads to, and 0 where there is none, as the lent lists hold them.
// Links that are lent: at each key the head, and at each number its link.
#[derive(Drop)]
pub struct Links<'h, 'n> {
    pub heads: &'h mut [u16],
    pub nexts: &'n mut [u16],
}

impl Links<'_, '_> {
    // No number is linked.
    pub fn clear(&mut self)
        ensures cleared { links_in self.new ≡ links_of (replicate (length self.old.heads.now) 0) self.old.nexts.now }
        ensures same { SameSlices self.old self.new }
    {
        self.heads.fill(0);
    }

    // These links, for reading alone.
    pub fn read(&self) -> ReadLinks<'_>
        ensures heads { result.heads.now ≡ self.now.heads.now }
        ensures nexts { result.nexts.now ≡ self.now.nexts.now }
    {
        ReadLinks {
            heads: &*self.heads,
            nexts: &*self.nexts,
        }
    }

    // Whether they have no room for n numbers.
    pub fn is_short(&self, n: usize) -> bool
        ensures { result ≡ short self.now.heads.now self.now.nexts.now n }
    {
        self.read().is_short(n)
    }

    // How many keys there are.
    pub fn keys(&self) -> usize
        ensures { result ≡ length self.now.heads.now }
    {
        self.read().keys()
    }

    // The number v is put before the others with key k, where there is room.
    pub fn push(&mut self, k: usize, v: usize)
        ensures pushed { links_in self.new ≡ pushed (links_in self.old) k v }
        ensures same { SameSlices self.old self.new }
    {
        if self.heads.len() <= k {
            return;
        }
        if self.nexts.len() <= v {
            return;
        }
        if GREATEST as usize <= v {
            return;
        }
        self.nexts[v] = self.heads[k];
        self.heads[k] = (v + 1) as u16;
    }
}

// The same links, lent for reading alone. A reader that asks one of the lists leaves the other alone, which may then be empty.
#[derive(Clone, Copy)]
pub struct ReadLinks<'a> {
    pub heads: &'a [u16],
    pub nexts: &'a [u16],
}

impl ReadLinks<'_> {
    // Whether they have no room for n numbers.
    pub fn is_short(&self, n: usize) -> bool
        ensures { result ≡ short self.now.heads.now self.now.nexts.now n }
    {
        self.heads.len() == 0 || self.nexts.len() < n || (GREATEST as usize) < n
    }

    // How many keys there are.
    pub fn keys(&self) -> usize
        ensures { result ≡ length self.now.heads.now }
    {
        self.heads.len()
    }

    // Where the links of x's key begin.
    pub fn first(&self, x: usize) -> usize
        ensures { result ≡ get_or self.now.heads.now (key_among (length self.now.heads.now) x) 0 }
    {
        if self.heads.len() == 0 {
            return 0;
        }
        self.heads[x & (self.heads.len() - 1)] as usize
    }

    // Where the links of key k begin; 0 past the heads.
    pub fn head(&self, k: usize) -> usize
        ensures { result ≡ get_or self.now.heads.now k 0 }
    {
        at(self.heads, k)
    }

    // From number u on, where its link leads: one more than that number, and 0 where there is none.
    pub fn link(&self, u: usize) -> usize
        ensures { result ≡ link_at self.now.nexts.now u }
    {
        let to = at(self.nexts, u);
        if to <= u { to } else { 0 }
    }

    // Whether the test says yes at some number along the links from one on.
    pub fn any<F: Fn(usize) -> bool>(&self, from: usize, test: F) -> bool
        requires { F.IsAlwaysCallable test }
        ensures { (P : ℕ → Bool) → ((u : ℕ) (yes : Bool) → u < 2 ^ 64 → F.post test u yes → yes ≡ P u) → result ≡ any_along self.now.nexts.now P from }
    {
        // No index is counted: a turn goes where a link leads.
        let mut to = from;
        while 0 < to {
            let u = to - 1;
            if test(u) {
                return true;
            }
            to = self.link(u);
        }
        false
    }

    // The lowest number along the links from one on at which the test says yes, and otherwise where there is none.
    pub fn lowest<F: Fn(usize) -> bool>(&self, from: usize, otherwise: usize, test: F) -> usize
        requires { F.IsAlwaysCallable test }
        ensures { (P : ℕ → Bool) → ((u : ℕ) (yes : Bool) → u < 2 ^ 64 → F.post test u yes → yes ≡ P u) → result ≡ first_along self.now.nexts.now P from otherwise }
    {
        let mut found = otherwise;
        // As in `any`, no index is counted.
        let mut to = from;
        while 0 < to {
            let u = to - 1;
            if test(u) {
                found = u;
            }
            to = self.link(u);
        }
        found
    }
}
