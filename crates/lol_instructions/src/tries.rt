//! How many nodes were tried.

ghost use Rattle.std.specs.Prelude.{◌≡◌, ◌<◌, ◌+◌};

/// How many nodes were tried for a start tag by their name tests, and how many by their attribute tests. (Not in lol_html.)
#[derive(Debug, Clone, Copy, PartialEq, Eq)]
pub struct Tries {
    names: u64,
    attributes: u64,
}

impl Tries {
    ghost use Rattle.lol_instructions.specs.Tries.{names_counted, attributes_counted};

    /// Both counts are zero.
    pub fn new() -> Self
        ensures names { names_counted result ≡ 0 }
        ensures attributes { attributes_counted result ≡ 0 }
    {
        Tries {
            names: 0,
            attributes: 0,
        }
    }

    /// The nodes that were tried by their name tests.
    pub fn names(&self) -> u64
        ensures { result ≡ names_counted self.now }
    {
        self.names
    }

    /// The nodes that were tried by their attribute tests.
    pub fn attributes(&self) -> u64
        ensures { result ≡ attributes_counted self.now }
    {
        self.attributes
    }

    /// Counts a node more by its name tests.
    #[inline(always)]
    pub(crate) fn add_name(&mut self)
        requires { names_counted self.old < u64.MAX }
        ensures names { names_counted self.new ≡ names_counted self.old + 1 }
        ensures attributes { attributes_counted self.new ≡ attributes_counted self.old }
    {
        self.names += 1;
    }

    /// Counts a node more by its attribute tests.
    #[inline(always)]
    pub(crate) fn add_attributes(&mut self)
        requires { attributes_counted self.old < u64.MAX }
        ensures names { names_counted self.new ≡ names_counted self.old }
        ensures attributes { attributes_counted self.new ≡ attributes_counted self.old + 1 }
    {
        self.attributes += 1;
    }
}
