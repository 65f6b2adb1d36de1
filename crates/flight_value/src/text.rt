ghost use Rattle.std.specs.Prelude.{◌≡◌, IfOk, nat_eq, string_bytes};
ghost use Rattle.std.specs.Cmp.Lexicographic.{pointwise, nat_list_eq_equiv};
ghost use Rattle.std.specs.Cmp.{partial_equiv_from_equiv};
ghost use Rattle.std.specs.Cmp.Rules.{hashing};
ghost use Rattle.std.specs.Fmt.{debug_str};
ghost use Rattle.std.specs.Hash as hashed;
ghost use Rattle.std.proofs.Common.{rules};

use crate::inline::Inline;
use crate::memory::Memory;
use std::alloc::{AllocError, Global};
use std::fmt;
use std::hash::{Hash, Hasher};
use std::marker::Model;

/// Where a text lies: most names and values are short, and these take no memory of their own.
#[derive(Drop)]
enum Held {
    Short(Inline),
    /// Behind a pointer, so that a text has 24 bytes.
    Long(Box<String>),
}

/// A text, which contracts see as its bytes. The bytes are UTF-8.
pub struct Text {
    held: Held,
}

impl Drop for Text {
    /// Where a text lies is no matter to who drops it.
    fn drop(self) {
        let Text { held } = self;
        drop(held);
    }
}

impl Model for Text {
    ghost use Rattle.std.specs.Prelude.{List, ℕ};
    ghost use Rattle.flight_value.specs.Held.{bytes_of};
    ghost use Rattle.std.specs.Coded.{coded_list, coded_ℕ};

    ghost Value = { List ℕ };

    ghost coded = { coded_list coded_ℕ };

    ghost view = { λ t. bytes_of t.held };
}

impl Text {
    /// A copy of a text.
    pub fn new(alloc: Global, text: &str) -> Result<Text, Memory>
        ensures { IfOk result (λ t. t ≡ text.now) }
    {
        let held = match Inline::new(text) {
            Some(short) => Held::Short(short),
            None => Held::Long(Box::new(alloc, String::from_str(alloc, text)?)?),
        };
        Ok(Text { held })
    }

    /// A text that was built already. It is not copied, unless it is short.
    pub fn from_string(text: String) -> Result<Text, Memory>
        ensures { IfOk result (λ t. t ≡ string_bytes text) }
    {
        let held = match Inline::new(text.as_str()) {
            Some(short) => Held::Short(short),
            None => {
                let alloc = *text.allocator();
                Held::Long(Box::new(alloc, text)?)
            }
        };
        Ok(Text { held })
    }

    /// The text itself.
    pub fn as_str(&self) -> &str
        ensures { result.now ≡ self.now }
    {
        match &self.held {
            Held::Short(text) => text.as_str(),
            Held::Long(text) => text.as_ref().as_str(),
        }
    }
}

impl Clone for Text {
    ghost is_clone = { λ s t. t ≡ s };

    fn clone(&self) -> Result<Text, AllocError> {
        let held = match &self.held {
            Held::Short(text) => Held::Short(text.copy()),
            Held::Long(text) => Held::Long(boxed(text.as_ref())?),
        };
        Ok(Text { held })
    }
}

/// A copy behind a pointer.
fn boxed(text: &String) -> Result<Box<String>, AllocError>
    ensures { IfOk result (λ b. string_bytes b.value ≡ string_bytes text.now) }
{
    let copy = text.clone()?;
    Ok(Box::new(*text.allocator(), copy)?)
}

impl fmt::Debug for Text {
    ghost debug_output = { debug_str };

    fn fmt<W: fmt::Write>(&self, f: &mut fmt::Formatter<W>) -> fmt::Result {
        fmt::Debug::fmt(self.as_str(), f)
    }
}

impl PartialEq for Text {
    ghost eq = { pointwise nat_eq };

    ghost laws = { partial_equiv_from_equiv nat_list_eq_equiv };

    fn eq(&self, other: &Self) -> bool {
        self.as_str() == other.as_str()
    }
}

impl Eq for Text {
    ghost laws = { nat_list_eq_equiv };
}

impl Hash for Text {
    ghost hash_input = { hashed.str };

    ghost respects_eq = { Prim.search (hashing, rules) };

    fn hash<H: Hasher>(&self, state: &mut H) {
        self.as_str().hash(state);
    }
}
