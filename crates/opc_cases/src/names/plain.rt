//! What patterns cover and their order, written from the definitions alone and as slow as they are.
use std::alloc::{AllocError, Global};

/// The ranks of `*` and `**`: after all characters and `%`.
const STAR: u16 = 1001;

const STARS: u16 = 1002;

/// Whether a qualifier matches a part of a name.
fn matches(qualifier: &[u8], part: &[u8]) -> bool {
    let [token, tokens @ ..] = qualifier else {
        return part.is_empty();
    };
    if *token == b'*' {
        return true;
    }
    let [character, characters @ ..] = part else {
        return false;
    };
    (*token == b'%' || token == character) && matches(tokens, characters)
}

/// Whether the qualifiers of a pattern cover those of a name, one after the other.
pub fn covers(pattern: &[&str], name: &[&str]) -> bool {
    let [qualifier, others @ ..] = pattern else {
        return name.is_empty();
    };
    if *qualifier == "**" {
        // It stands for no part, or for one and then for some.
        return covers(others, name) || !name.is_empty() && covers(pattern, &name[1..]);
    }
    let [part, rest @ ..] = name else {
        return false;
    };
    matches(qualifier.as_bytes(), part.as_bytes())
        && (others.is_empty() && qualifier.ends_with('*') || covers(others, rest))
}

fn rank(byte: u8) -> u16 {
    match byte {
        b'%' => 1000,
        b'*' => STAR,
        literal => u16::from(literal),
    }
}

/// The rank of each token of a pattern's text: literals by their code, then `%`, `*` and `**`.
pub fn ranks(alloc: Global, text: &str) -> Result<Vec<u16>, AllocError> {
    let mut ranks = Vec::new(alloc);
    for byte in text.bytes() {
        if byte == b'*' && ranks.last() == Some(&STAR) {
            ranks.pop();
            ranks.push(STARS)?;
        } else {
            ranks.push(rank(byte))?;
        }
    }
    Ok(ranks)
}

/// The first token that differs decides; if one pattern ends first, it comes last if the common part ends in `*` or
/// `**`, and otherwise first.
pub fn before(ours: &[u16], theirs: &[u16]) -> bool {
    let common = ours.iter().zip(theirs).take_while(|(a, b)| a == b).count();
    match (ours.get(common), theirs.get(common)) {
        (Some(a), Some(b)) => a < b,
        (None, None) => false,
        (ends, _) => {
            let is_open = common > 0 && ours.get(common - 1).is_some_and(|rank| *rank >= STAR);
            ends.is_none() != is_open
        }
    }
}
