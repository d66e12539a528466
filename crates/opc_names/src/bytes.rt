//! Short lists of bytes that are kept in place.
ghost use Rattle.std.specs.Prelude.{◌≡◌, ℕ, ◌-◌, ◌≤◌, ◌<◌, List, length, take};
ghost use Rattle.std.specs.Prelude.{◌≢◌, Some, IfSome, nat_eq, refl};
ghost use Rattle.std.specs.Cmp.{partial_equiv_from_equiv};
ghost use Rattle.std.specs.Cmp.Lexicographic.{
  pointwise,
  slice_cmp,
  nat_list_eq_equiv,
  nat_list_cmp_total,
  texts_po,
  texts_ties,
};
ghost use Rattle.std.specs.Ordering.{nat_cmp};
ghost use Rattle.std.specs.declared.cmp.Ordering.TheVariants.{Equal};
ghost use Rattle.std.specs.List.{AllByRecursion};
ghost use Rattle.opc_names.specs.Padded.{number_after, IsByte};

use std::cmp::Ordering;
use std::marker::Model;

/// At most `N` bytes, kept in place.
#[derive(Clone, Copy)]
pub struct Bytes<const N: usize> {
    room: [u8; N],
    len: usize,
}

impl<const N: usize> Model for Bytes<N> {
    ghost use Rattle.std.specs.Prelude.{List, ℕ, take, length};
    ghost use Rattle.opc_names.specs.Padded.{IsPadded, padded_to, padded-take, length-padded};

    ghost Value = { List ℕ };

    ghost view = { λ b. take b.len b.room };

    ghost invariant = { λ b. IsPadded N b.len b.room };

    ghost inverse = { λ bytes. record { room = padded_to N bytes; len = length bytes } };

    ghost inverse_ok = { λ b h i. record {
      room = padded-take N b.len b.room h i;
      len = length-padded N b.len b.room h i;
    } };
}

impl<const N: usize> Bytes<N> {
    /// A copy of these bytes.
    pub fn copied(bytes: &[u8]) -> Self
        requires { length bytes.now ≤ N }
        ensures { result ≡ bytes.now }
    {
        let mut room = [0; N];
        room[..bytes.len()].copy_from_slice(bytes);
        Bytes {
            room,
            len: bytes.len(),
        }
    }

    /// The bytes.
    pub fn as_slice(&self) -> &[u8]
        ensures value { result.now ≡ self.now }
        ensures fits { length self.now ≤ N }
    {
        &self.room[..self.len]
    }
}

// Not derived: only the bytes count, not the zeros after them.
impl<const N: usize> PartialEq for Bytes<N> {
    ghost eq = { λ s t. pointwise nat_eq s t };

    ghost laws = { partial_equiv_from_equiv nat_list_eq_equiv };

    fn eq(&self, other: &Self) -> bool {
        self.as_slice() == other.as_slice()
    }
}

impl<const N: usize> Eq for Bytes<N> {
    ghost laws = { nat_list_eq_equiv };
}

impl<const N: usize> PartialOrd for Bytes<N> {
    ghost partial_cmp = { λ s t. Some (slice_cmp nat_cmp s t) };

    ghost laws = { texts_po };

    fn partial_cmp(&self, other: &Self) -> Option<Ordering> {
        Some(self.cmp(other))
    }
}

impl<const N: usize> Ord for Bytes<N> {
    ghost cmp = { slice_cmp nat_cmp };

    ghost total = { nat_list_cmp_total };

    ghost matches_partial_cmp = { λ s t. refl };

    ghost matches_eq = { texts_ties };

    fn cmp(&self, other: &Self) -> Ordering {
        match order_of_words(&self.room, &other.room) {
            Some(order) => order,
            None => self.as_slice().cmp(other.as_slice()),
        }
    }
}

/// The order of two lists of equal length, if comparing eight bytes at a time shows it, which is faster. Names and sort
/// keys are looked up in ordered maps, where most comparisons are of different ones, and the keys of one policy begin
/// alike.
fn order_of_words(ours: &[u8], theirs: &[u8]) -> Option<Ordering>
    requires { length ours.now ≡ length theirs.now }
    ensures { IfSome result (λ order. (order ≡ slice_cmp nat_cmp ours.now theirs.now) × (order ≢ Equal)) }
{
    let (mut left, mut right) = (ours, theirs);
    while left.len() >= 8 {
        let (word, other) = (prefix(left), prefix(right));
        if word != other {
            return Some(word.cmp(&other));
        }
        left = left.split_at(8).1;
        right = right.split_at(8).1;
    }
    None
}

/// The first eight bytes as a number, which is faster to compare; 0 if there are fewer.
fn prefix(room: &[u8]) -> u64
    ensures short { length room.now < 8 → result ≡ 0 }
    ensures value { 8 ≤ length room.now → result ≡ number_after 0 (take 8 room.now) }
    ensures bytes { 8 ≤ length room.now → AllByRecursion IsByte (take 8 room.now) }
{
    match room {
        [a, b, c, d, e, f, g, h, ..] => u64::from_be_bytes([*a, *b, *c, *d, *e, *f, *g, *h]),
        // Fewer bytes make no number to compare; the caller passes eight or more.
        _ => 0,
    }
}
