//! What a pattern covers.
ghost use Rattle.std.specs.Prelude.{◌≡◌, ◌+◌, ◌<◌, ◌↔◌, ◌==◌, ◌&&◌, ◌||◌, [], ◌∷◌, map, length, IsTrue, Some};
ghost use Rattle.std.specs.List.{AllByRecursion, list_any};
ghost use Rattle.std.specs.Option.{option_copied};
ghost use Rattle.opc_names.specs.Patterns.{tokens, matches, ends_in_star, covers, covers_text, CoversText};
ghost use Rattle.opc_names.specs.Walk.{StarOnlyLast, IsQualifier};
ghost use Rattle.opc_names.specs.Names.{qualifiers};
ghost use Rattle.opc_names.specs.Walk.{qualifiers_left, covered_suffixes, any_from_here};

use crate::qualifier::{is_stars, split_qualifier};

const PERCENT: u8 = b'%';

const STAR: u8 = b'*';

/// The most suffixes of a name: 39 characters hold at most 20 qualifiers, and the empty suffix follows.
const SUFFIXES: usize = 21;

fn count_qualifiers(text: &[u8]) -> usize
    ensures { result ≡ length (qualifiers text.now) }
{
    text.iter().filter(|c| **c == b'.').count() + 1
}

/// Whether a qualifier of a pattern other than `**` matches one of a name.
fn matches(qualifier: &[u8], part: &[u8]) -> bool
    requires { StarOnlyLast qualifier.now }
    ensures { result ≡ matches (tokens qualifier.now) part.now }
{
    match qualifier {
        [] => part.is_empty(),
        [STAR, ..] => true,
        [token, tokens @ ..] => match part {
            [] => false,
            [character, characters @ ..] => {
                (*token == PERCENT || token == character) && matches(tokens, characters)
            }
        },
    }
}

/// Whether the last token of a qualifier other than `**` is a `*`.
fn ends_in_star(qualifier: &[u8]) -> bool
    requires { StarOnlyLast qualifier.now }
    ensures { result ≡ ends_in_star (tokens qualifier.now) }
{
    qualifier.last() == Some(&STAR)
}

/// Puts `**` before a pattern. `covered` holds, for each suffix of a name, longest first, whether the pattern covers
/// it: `**` and the pattern cover those that have such a suffix. Returns whether there is one.
fn prepend_stars(covered: &mut [bool]) -> bool
    ensures suffixes { covered.new ≡ any_from_here covered.old }
    ensures any { result ≡ list_any (λ b. b) covered.old }
{
    if covered.is_empty() {
        return false;
    }
    let any_shorter = prepend_stars(&mut covered[1..]);
    let any = covered[0] || any_shorter;
    covered[0] = any;
    any
}

/// Whether a qualifier other than `**` covers a part of a name, and the rest of the name is covered: the qualifier is
/// the last one and ends in `*`, or those after it cover the rest.
fn covers_from(qualifier: &[u8], part: &[u8], is_last: bool, covers_rest: bool) -> bool
    requires { StarOnlyLast qualifier.now }
    ensures { result
        ≡ (matches (tokens qualifier.now) part.now && (is_last && ends_in_star (tokens qualifier.now) || covers_rest)) }
{
    matches(qualifier, part) && (is_last && ends_in_star(qualifier) || covers_rest)
}

/// Puts a qualifier other than `**` before the others of a pattern. `covered` holds, for each suffix of a name, longest
/// first, whether the others cover it, and afterwards, whether all of them do.
fn prepend_qualifier(
    qualifier: &[u8],
    others: Option<&[u8]>,
    name: Option<&[u8]>,
    covered: &mut [bool],
)
    requires plain { StarOnlyLast qualifier.now }
    requires others { covered.old
        ≡ covered_suffixes (map tokens (qualifiers_left (option_copied others)))
        (qualifiers_left (option_copied name)) }
    ensures { covered.new
        ≡ covered_suffixes (tokens qualifier.now ∷ map tokens (qualifiers_left (option_copied others.entry)))
        (qualifiers_left (option_copied name.entry)) }
{
    let Some(name) = name else {
        covered[0] = false;
        return;
    };
    let (part, rest) = split_qualifier(name);
    let covers_rest = covered[1];
    prepend_qualifier(qualifier, others, rest, &mut covered[1..]);
    covered[0] = covers_from(qualifier, part, others.is_none(), covers_rest);
}

/// Puts what is left of a pattern before nothing, from its last qualifier to its first. So each
/// qualifier is compared at most once with each of the name.
fn cover_suffixes(pattern: Option<&[u8]>, name: &[u8], covered: &mut [bool])
    requires qualifiers { AllByRecursion IsQualifier (qualifiers_left (option_copied pattern)) }
    requires nothing { covered.old ≡ covered_suffixes [] (qualifiers name.now) }
    ensures { covered.new
        ≡ covered_suffixes (map tokens (qualifiers_left (option_copied pattern.entry))) (qualifiers name.now) }
{
    let Some(pattern) = pattern else {
        return;
    };
    let (qualifier, others) = split_qualifier(pattern);
    cover_suffixes(others, name, covered);
    if is_stars(qualifier) {
        prepend_stars(covered);
    } else {
        prepend_qualifier(qualifier, others, Some(name), covered);
    }
}

/// Whether the pattern with a text covers the resource with another.
pub(crate) fn covers(pattern: &str, name: &str) -> bool
    requires qualifiers { AllByRecursion IsQualifier (qualifiers pattern.now) }
    requires few { length (qualifiers name.now) < SUFFIXES }
    ensures computes { result ≡ covers_text pattern.now name.now }
    ensures covers { IsTrue result ↔ CoversText pattern.now name.now }
{
    let name = name.as_bytes();
    let count = count_qualifiers(name);
    // From the last qualifier to the first, this keeps which suffixes of the name the rest of the pattern covers. A
    // walk that tries each split of a `**` is exponential.
    let mut covered = [false; SUFFIXES];

    // Without qualifiers, only the empty suffix is covered, which is the last one.
    covered[count] = true;
    cover_suffixes(Some(pattern.as_bytes()), name, &mut covered[..=count]);
    covered[0]
}
