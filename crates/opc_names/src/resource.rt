//! Resources made of fixed words and names: no test, no fault, no allocation.
ghost use Rattle.std.specs.Prelude.{◌≡◌, ◌≤◌, ◌<◌, ◌+◌, ◌++◌, ◌∷◌, IsTrue, length};
ghost use Rattle.opc_names.specs.Names.{is_plain, is_resource, IsResource};

use crate::name::{Name, NameKind, Resource};
use arrayvec::ArrayString;

impl Resource {
    /// The resource with these fixed words.
    pub fn of_words(words: &str) -> Self
        requires { IsTrue (is_resource words.now) }
        ensures { result ≡ words.now }
    {
        Resource::of(words)
    }

    /// The resource with a name as one more qualifier.
    pub fn with<K: NameKind<8>>(&self, name: &Name<K, 8>) -> Self
        requires room { length self.now ≤ 30 }
        requires plain { IsTrue (is_plain K.rule.alphabet) }
        ensures value { result ≡ self.now ++ 46 ∷ name.now }
        ensures short { length result ≤ length self.now + 9 }
    {
        joined(self.text(), name.text())
    }
}

/// Two resources with a period between them.
fn joined(prefix: &str, after: &str) -> Resource
    requires prefix { IsResource prefix.now }
    requires after { IsResource after.now }
    requires room { length prefix.now + length after.now < 39 }
    ensures { result ≡ prefix.now ++ 46 ∷ after.now }
{
    let mut text = ArrayString::<39>::new();
    text.push_str(prefix);
    text.push('.');
    text.push_str(after);
    Resource::of(text.as_str())
}
