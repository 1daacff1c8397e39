//! Texts of ballots: which texts they are, what they prefer, and how they are printed.

use super::{check_voters, read, same, tally};
use gr_count::{BadRanks, MAX_OPTIONS, MIN_OPTIONS, Ranks};
use std::alloc::{AllocError, Global};
use std::process::Abort;
use std::test::Fail;

/// The characters of ranks, each preferred to those after it, and after them that of no rank.
const CHARACTERS: [u8; 36] = *b"123456789abcdefghijklmnopqrstuvwxyz-";

#[test]
fn ballots_of_three_options(rt: HostRuntime) {
    for text in [
        "12", "1234", "0--", "1A-", "Z--", "--:", "-`1", "{--", "", "1 2",
    ] {
        let found = Ranks::read(text.as_bytes(), 3).err();
        same(&rt, &found, &Some(BadRanks), &text);
    }
    let pairs = tally(
        &rt,
        3,
        &[(1, b"1--"), (1, b"9-5"), (1, b"---"), (1, b"111")],
    );
    check_voters(&rt, &pairs, &[(0, 1, 2, 0), (0, 2, 1, 1), (1, 2, 0, 1)]);
}

/// A letter is a rank after each digit, and before an option with no rank.
#[test]
fn letters_are_ranks(rt: HostRuntime) {
    let pairs = tally(&rt, 3, &[(1, b"1a-")]);
    check_voters(&rt, &pairs, &[(0, 1, 1, 0), (0, 2, 1, 0), (1, 2, 1, 0)]);
    for (text, first, second) in [(b"z-", 1, 0), (b"az", 1, 0), (b"z9", 0, 1)] {
        let pairs = tally(&rt, 2, &[(1, text)]);
        check_voters(&rt, &pairs, &[(0, 1, first, second)]);
    }
}

#[test]
fn no_other_byte_is_a_character(rt: HostRuntime) {
    for byte in 0..=255u8 {
        let is_character = CHARACTERS.contains(&byte);
        let is_read = Ranks::read(&[byte, b'-'], 2).is_ok();
        same(&rt, &is_read, &is_character, &byte);
    }
}

#[test]
fn characters_are_in_falling_preference(rt: HostRuntime) {
    for (place, first) in CHARACTERS.iter().enumerate() {
        for (other_place, second) in CHARACTERS.iter().enumerate() {
            let pairs = tally(&rt, 2, &[(1, &[*first, *second])]);
            let voters = u32::from(place < other_place);
            let others = u32::from(other_place < place);
            check_voters(&rt, &pairs, &[(0, 1, voters, others)]);
        }
    }
}

#[test]
fn ranks_print_the_text_of_their_ballot(rt: HostRuntime) -> Result<(), Fail> {
    for text in [
        "12",
        "--",
        "9-5",
        "123456789",
        "---------",
        "1a-",
        "z9a",
        "123456789abcdefghijklmnopqrstuvwxyz",
        "-zyxwvutsrqponmlkjihgfedcba98765432",
    ] {
        prints(&rt, rt.alloc(), text)?;
    }
    Ok(())
}

/// Wants the ranks of the text to print it.
fn prints(rt: &impl Abort, alloc: Global, text: &str) -> Result<(), AllocError> {
    let options = text.len();
    assert!(rt; MIN_OPTIONS <= options && options <= MAX_OPTIONS);
    let ranks = read(rt, options, text.as_bytes());
    let printed = format!(in alloc; "{ranks}")?;
    same(rt, &printed.as_str(), &text, &"as it prints");
    Ok(())
}

#[test]
fn bad_ranks_say_so(rt: HostRuntime) -> Result<(), Fail> {
    let text = format!(in rt.alloc(); "{BadRanks}")?;
    same(
        &rt,
        &text.as_str(),
        &"not the ranks of a ballot",
        &"bad ranks",
    );
    Ok(())
}
