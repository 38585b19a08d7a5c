// Chains of keys: each place has a list of numbers, and a number is in one list at most.
ghost use Rattle.std.specs.Prelude.{◌≡◌, ◌+◌, ◌^◌, ◌%◌, ◌<◌, ◌≤◌, [], ◌∷◌, length, replicate, slice_set, IfOk, MatchOption};
ghost use Rattle.vt_memory.specs.Inside.Chains.{IsFree, times, chain_at, with_key, without_key};

use std::alloc::Global;
use std::marker::Model;
use vt_base::NoMemory;

// The link that leads to no key. It is past the end of every list of links.
const END: u32 = u32::MAX;

/// For each of some places a chain of keys below a reach, linked both ways, so that a key goes out
/// with no walk. A key is in one chain at most. Which chain is for a key is told by a number, of
/// which each place takes its share. Contracts see the chains, and the reach.
#[derive(Drop)]
pub(crate) struct Chains {
    // The first key of each chain.
    heads: Vec<u32>,
    // The key after each key, and the one before it. What is before a first key is of no account.
    next: Vec<u32>,
    back: Vec<u32>,
}

impl Model for Chains {
    ghost use Rattle.std.specs.Prelude.{length};
    ghost use Rattle.vt_memory.specs.Inside.Chains.{Chained, chains_from, AreLinked};

    ghost Value = { Chained };

    ghost view = { λ c. record { chains = chains_from c.next.items c.heads.items; reach = length c.next.items } };

    ghost invariant = { λ c. AreLinked c.heads.items c.next.items c.back.items };
}

impl Chains {
    /// Empty chains.
    pub fn new(alloc: Global, places: usize, reach: usize) -> Result<Chains, NoMemory>
        requires some { 0 < places }
        requires small { reach < 2 ^ 32 }
        ensures chains { IfOk result (λ c. c.chains ≡ replicate places []) }
        ensures reach { IfOk result (λ c. c.reach ≡ reach) }
    {
        let heads = vec![in alloc; END; places]?;
        let next = vec![in alloc; END; reach]?;
        let back = vec![in alloc; END; reach]?;
        Ok(Chains { heads, next, back })
    }

    /// Puts a key into the chain of a number.
    pub fn push(&mut self, number: u64, key: usize)
        requires reach { key < self.old.reach }
        requires free { IsFree self.old.chains key }
        ensures chains { self.new.chains ≡ with_key self.old.chains number key }
        ensures reach { self.new.reach ≡ self.old.reach }
    {
        let place = place(number, self.heads.len());
        let head = self.heads[place];
        self.next[key] = head;
        link(&mut self.back, head, key as u32);
        self.heads[place] = key as u32;
    }

    /// Takes a key out of the chain of a number.
    pub fn take(&mut self, number: u64, key: usize)
        requires { 0 < times key (chain_at self.old.chains number) }
        ensures chains { self.new.chains ≡ without_key self.old.chains number key }
        ensures reach { self.new.reach ≡ self.old.reach }
    {
        let place = place(number, self.heads.len());
        let after = self.next[key];
        if self.heads[place] == key as u32 {
            self.heads[place] = after;
            return;
        }
        let before = self.back[key];
        self.next[before as usize] = after;
        link(&mut self.back, after, before);
    }

    /// The keys in the chain of a number.
    pub fn walk(&self, number: u64) -> Walk<'_>
        ensures { result ≡ chain_at self.now.chains number }
    {
        let place = place(number, self.heads.len());
        Walk {
            next: self.next.as_slice(),
            at: self.heads[place],
        }
    }
}

// Sets the link of a key. That of no key isn't kept.
fn link(links: &mut Vec<u32>, key: u32, to: u32)
    ensures { links.new.items ≡ slice_set links.old.items key to }
{
    if (key as usize) < links.len() {
        links[key as usize] = to;
    }
}

// The place that takes a number.
fn place(number: u64, places: usize) -> usize
    requires { 0 < places }
    ensures is { result ≡ number % places }
    ensures below { result < places }
{
    (number % places as u64) as usize
}

/// What is left of a walk along a chain: contracts see the list of the keys to come.
#[derive(Drop)]
pub(crate) struct Walk<'a> {
    next: &'a [u32],
    at: u32,
}

impl<'a> Model for Walk<'a> {
    ghost use Rattle.std.specs.Prelude.{List, ℕ, length};
    ghost use Rattle.vt_memory.specs.Inside.Chains.{chain, IsPath};

    ghost Value = { List ℕ };

    ghost view = { λ w. chain (length w.next.now) w.next.now w.at };

    ghost invariant = { λ w. IsPath w.next.now w.at (chain (length w.next.now) w.next.now w.at) };
}

impl<'a> Walk<'a> {
    /// The next key.
    pub fn next(&mut self) -> Option<usize>
        ensures { MatchOption result
            ((self.old ≡ []) × (self.new ≡ []))
            (λ key. self.old ≡ key ∷ self.new) }
    {
        let key = self.at as usize;
        if key >= self.next.len() {
            return None;
        }
        self.at = self.next[key];
        Some(key)
    }
}
