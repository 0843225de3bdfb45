// Names as a tree keeps them.
ghost use Rattle.std.specs.Prelude.{◌≡◌, ◌<◌, ◌≤◌, ◌++◌, ◌∷◌, [], length, IfOk};
ghost use Rattle.std.proofs.Common.{rules};
ghost use Rattle.std.specs.Cmp.{partial_equiv_from_equiv};
ghost use Rattle.std.specs.Cmp.Lexicographic.{nat_list_eq_equiv};
ghost use Rattle.std.specs.Cmp.Rules.{hashing};
ghost use Rattle.std.specs.Hash as fed;
ghost use Rattle.std.specs.Str.{bytes_eq};

use plex_num::{Memory, Name};
use std::alloc::Global;
use std::hash::{Hash, Hasher};
use std::marker::Model;

/// How many bytes of a name stand in its own place.
const FEW: usize = 14;

/// A name of few bytes.
#[derive(Drop)]
struct Short {
    count: u8,
    bytes: [u8; 14],
}

impl Model for Short {
    ghost use Rattle.std.specs.Prelude.{List, ℕ, ◌≤◌, take};
    ghost use Rattle.std.specs.Coded.{coded_list, coded_ℕ};

    ghost Value = { List ℕ };

    ghost coded = { coded_list coded_ℕ };

    ghost view = { λ s. take s.count s.bytes };

    ghost invariant = { λ s. s.count ≤ 14 };
}

impl Short {
    fn new() -> Short
        ensures { result ≡ [] }
    {
        Short {
            count: 0,
            bytes: [0; 14],
        }
    }

    fn push(&mut self, byte: u8)
        requires { length self.old < 14 }
        ensures { self.new ≡ self.old ++ byte ∷ [] }
    {
        self.bytes[usize::from(self.count)] = byte;
        self.count += 1;
    }

    fn of(bytes: &[u8]) -> Short
        requires { length bytes.now ≤ 14 }
        ensures { result ≡ bytes.now }
    {
        let mut made = Short::new();
        for byte in bytes {
            made.push(*byte);
        }
        made
    }

    fn as_slice(&self) -> &[u8]
        ensures items { result.now ≡ self.now }
        ensures few { length self.now ≤ 31 }
    {
        &self.bytes[..usize::from(self.count)]
    }
}

/// Where the bytes of a name stand.
#[derive(Drop)]
enum Place {
    Here(Short),
    Away(Box<Name>),
}

/// A name as a tree keeps it, in 16 bytes: its bytes stand there where they are at most 14, else in
/// a place of their own. Contracts see it as a list of bytes.
pub struct KeptName {
    place: Place,
}

impl Drop for KeptName {
    fn drop(self) {
        let KeptName { place: _ } = self;
    }
}

impl Model for KeptName {
    ghost use Rattle.std.specs.Prelude.{List, ℕ};
    ghost use Rattle.std.specs.Coded.{coded_list, coded_ℕ};
    ghost use Rattle.token_grammar.specs.Kept.{bytes_at};

    ghost Value = { List ℕ };

    ghost coded = { coded_list coded_ℕ };

    ghost view = { λ n. bytes_at n.place };
}

impl KeptName {
    /// This name, or no memory.
    pub fn new(alloc: Global, name: Name) -> Result<KeptName, Memory>
        ensures { IfOk result (λ kept. kept ≡ name) }
    {
        if name.as_slice().len() <= FEW {
            let place = Place::Here(Short::of(name.as_slice()));
            return Ok(KeptName { place });
        }
        match Box::new(alloc, name) {
            Ok(name) => Ok(KeptName {
                place: Place::Away(name),
            }),
            Err(_) => Err(Memory),
        }
    }

    /// The bytes.
    pub fn as_slice(&self) -> &[u8]
        ensures items { result.now ≡ self.now }
        ensures room { length self.now ≤ 31 }
    {
        match &self.place {
            Place::Here(name) => name.as_slice(),
            Place::Away(name) => name.as_slice(),
        }
    }

    /// Another name of the same bytes, which takes no memory.
    pub fn copy(&self) -> Name
        ensures { result ≡ self.now }
    {
        Name::of(self.as_slice())
    }

    /// Another such name of the same bytes, or no memory.
    pub fn again(&self, alloc: Global) -> Result<KeptName, Memory>
        ensures { IfOk result (λ kept. kept ≡ self.now) }
    {
        KeptName::new(alloc, self.copy())
    }
}

impl PartialEq for KeptName {
    ghost eq = { bytes_eq };

    ghost laws = { partial_equiv_from_equiv nat_list_eq_equiv };

    fn eq(&self, other: &KeptName) -> bool {
        self.as_slice() == other.as_slice()
    }
}

impl Eq for KeptName {
    ghost laws = { nat_list_eq_equiv };
}

impl Hash for KeptName {
    ghost hash_input = { fed.slice fed.u8 };

    ghost respects_eq = { Prim.search (hashing, rules) };

    fn hash<H: Hasher>(&self, state: &mut H) {
        self.as_slice().hash(state);
    }
}
