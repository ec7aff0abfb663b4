ghost use Rattle.std.specs.Prelude.{◌≡◌, ◌&&◌, ◌||◌, ℕ, not, nat_eq, [], true, false, None, length, OnOk, OnErr};
ghost use Rattle.av_large.specs.Index.{Pops, has, is_one, numbers_at};
ghost use Rattle.av_parts.specs.Judge.{at};

use std::alloc::{AllocError, Global};
use std::collections::{BTreeMap, BTreeSet};
use std::marker::Model;

/// The numbers of one client's contents.
#[derive(Drop)]
pub(crate) struct Numbers {
    numbers: BTreeSet<u64>,
}

impl Model for Numbers {
    ghost use Rattle.std.specs.Prelude.{ℕ, List};

    ghost Value = { List ℕ };

    ghost view = { λ n. n.numbers.keys };
}

impl Numbers {
    /// How many there are.
    pub(crate) fn len(&self) -> usize
        ensures { result ≡ length self.now }
    {
        self.numbers.len()
    }

    /// Takes the least.
    pub(crate) fn pop(&mut self) -> Option<u64>
        ensures { Pops self.old self.new result }
    {
        self.numbers.pop_first()
    }

    // One number more.
    fn add(&mut self, number: u64) -> Result<(), AllocError>
        ensures ok { OnOk result ((q : ℕ) → is_one q self.new ≡ (nat_eq q number || is_one q self.old)) }
        ensures err { OnErr result (self.new ≡ self.old) }
    {
        match self.numbers.insert(number) {
            Ok(_) => Ok(()),
            Err(_) => Err(AllocError),
        }
    }

    // One number less.
    fn forget(&mut self, number: u64)
        ensures { (q : ℕ) → is_one q self.new ≡ (is_one q self.old && not (nat_eq q number)) }
    {
        let _ = self.numbers.remove(&number);
    }
}

/// The numbers of the contents of each client that has some. Each call costs a logarithm.
#[derive(Drop)]
pub(crate) struct Index {
    alloc: Global,
    clients: BTreeMap<u64, Numbers>,
}

impl Model for Index {
    ghost use Rattle.std.specs.Prelude.{ℕ, List};

    ghost Value = { List (ℕ × List ℕ) };

    ghost view = { λ i. i.clients.entries };
}

impl Index {
    pub(crate) fn new(alloc: Global) -> Index
        ensures { result ≡ [] }
    {
        Index {
            alloc,
            clients: BTreeMap::new(alloc),
        }
    }

    /// No client has a number any more.
    pub(crate) fn clear(&mut self)
        ensures { self.new ≡ [] }
    {
        self.clients.clear();
    }

    /// A client has one number more.
    pub(crate) fn add(&mut self, client: u64, number: u64) -> Result<(), AllocError>
        ensures kept { (c q : ℕ) → has self.old c q ≡ true → has self.new c q ≡ true }
        ensures ok { OnOk result (has self.new client number ≡ true) }
    {
        match self.clients.get_mut(&client) {
            Some(numbers) => numbers.add(number),
            None => self.begin(client, number),
        }
    }

    // The first number of a client.
    fn begin(&mut self, client: u64, number: u64) -> Result<(), AllocError>
        requires { at self.old client ≡ None }
        ensures kept { (c q : ℕ) → has self.old c q ≡ true → has self.new c q ≡ true }
        ensures ok { OnOk result (has self.new client number ≡ true) }
    {
        let mut numbers = Numbers {
            numbers: BTreeSet::new(self.alloc),
        };
        numbers.add(number)?;
        match self.clients.insert(client, numbers) {
            Ok(_) => Ok(()),
            Err(_) => Err(AllocError),
        }
    }

    /// A client has one number less.
    pub(crate) fn forget(&mut self, client: u64, number: u64)
        ensures { (c q : ℕ) → nat_eq q number ≡ false → has self.old c q ≡ true → has self.new c q ≡ true }
    {
        let Some(numbers) = self.clients.get_mut(&client) else {
            return;
        };
        numbers.forget(number);
        if numbers.len() == 0 {
            let _ = self.clients.remove(&client);
        }
    }

    /// The numbers of a client, if it has some.
    pub(crate) fn len_of(&self, client: u64) -> usize
        ensures { result ≡ length (numbers_at self.now client) }
    {
        match self.clients.get(&client) {
            Some(numbers) => numbers.len(),
            None => 0,
        }
    }

    /// Takes the numbers of a client.
    pub(crate) fn take(&mut self, client: u64) -> Numbers
        ensures numbers { result ≡ numbers_at self.old client }
        ensures others { (c q : ℕ) → nat_eq c client ≡ false → has self.new c q ≡ has self.old c q }
    {
        match self.clients.remove(&client) {
            Some(numbers) => numbers,
            None => Numbers {
                numbers: BTreeSet::new(self.alloc),
            },
        }
    }
}
