ghost use Rattle.std.specs.Prelude.{◌≡◌};

use std::marker::Model;

/// A stream of one volume. A volume numbers its streams from 1 and gives no number twice; 0 is no stream.
#[derive(Clone, Copy, Debug, PartialEq, Eq, PartialOrd, Ord, Hash)]
pub struct StreamId(u64);

impl Model for StreamId {
    ghost use Rattle.std.specs.Prelude.{ℕ};

    ghost Value = { ℕ };

    ghost view = { λ x. x.0 };

    ghost inverse = { λ n. record { 0 = n } };
}

impl StreamId {
    /// The one of this number.
    pub fn new(number: u64) -> StreamId
        ensures { result ≡ number }
    {
        StreamId(number)
    }

    /// Its number.
    pub fn get(self) -> u64
        ensures { result ≡ self }
    {
        let StreamId(value) = self;
        value
    }
}

/// How often the content of a stream was set: 1 at its creation, and 1 more at each accepted write or cut.
#[derive(Clone, Copy, Debug, PartialEq, Eq, PartialOrd, Ord, Hash)]
pub struct Generation(u64);

impl Model for Generation {
    ghost use Rattle.std.specs.Prelude.{ℕ};

    ghost Value = { ℕ };

    ghost view = { λ x. x.0 };

    ghost inverse = { λ n. record { 0 = n } };
}

impl Generation {
    /// The one of this number.
    pub fn new(number: u64) -> Generation
        ensures { result ≡ number }
    {
        Generation(number)
    }

    /// Its number.
    pub fn get(self) -> u64
        ensures { result ≡ self }
    {
        let Generation(value) = self;
        value
    }
}

/// The number of a signature set, 1 and up. A version names one set for good.
#[derive(Clone, Copy, Debug, PartialEq, Eq, PartialOrd, Ord, Hash)]
pub struct Version(u64);

impl Model for Version {
    ghost use Rattle.std.specs.Prelude.{ℕ};

    ghost Value = { ℕ };

    ghost view = { λ x. x.0 };

    ghost inverse = { λ n. record { 0 = n } };
}

impl Version {
    /// The one of this number.
    pub fn new(number: u64) -> Version
        ensures { result ≡ number }
    {
        Version(number)
    }

    /// Its number.
    pub fn get(self) -> u64
        ensures { result ≡ self }
    {
        let Version(value) = self;
        value
    }
}

/// The number of one open. A volume counts its opens from 1, also over mounts.
#[derive(Clone, Copy, Debug, PartialEq, Eq, PartialOrd, Ord, Hash)]
pub struct OpenId(u64);

impl Model for OpenId {
    ghost use Rattle.std.specs.Prelude.{ℕ};

    ghost Value = { ℕ };

    ghost view = { λ x. x.0 };

    ghost inverse = { λ n. record { 0 = n } };
}

impl OpenId {
    /// The one of this number.
    pub fn new(number: u64) -> OpenId
        ensures { result ≡ number }
    {
        OpenId(number)
    }

    /// Its number.
    pub fn get(self) -> u64
        ensures { result ≡ self }
    {
        let OpenId(value) = self;
        value
    }
}

/// The number of one piece of work that a scanning service has lent out, counted from 1.
#[derive(Clone, Copy, Debug, PartialEq, Eq, PartialOrd, Ord, Hash)]
pub struct Lease(u64);

impl Model for Lease {
    ghost use Rattle.std.specs.Prelude.{ℕ};

    ghost Value = { ℕ };

    ghost view = { λ x. x.0 };

    ghost inverse = { λ n. record { 0 = n } };
}

impl Lease {
    /// The one of this number.
    pub fn new(number: u64) -> Lease
        ensures { result ≡ number }
    {
        Lease(number)
    }

    /// Its number.
    pub fn get(self) -> u64
        ensures { result ≡ self }
    {
        let Lease(value) = self;
        value
    }
}
