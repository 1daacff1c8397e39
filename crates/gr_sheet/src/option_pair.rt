//! Pairs of options.
ghost use Rattle.std.specs.Prelude.{◌≡◌, ◌++◌, IfOk, OnOk};
ghost use Rattle.gr_sheet.specs.ResultSheet.{pairs_below, pairs_from};

use std::alloc::{AllocError, Global};

/// Two options of a ballot, numbered from 0, the default option last.
#[derive(Clone, Copy, Debug)]
pub(crate) struct OptionPair {
    pub(crate) first: usize,
    pub(crate) second: usize,
}

/// The pairs of so many options, by the first one and then by the second.
pub(crate) fn option_pairs(alloc: Global, options: usize) -> Result<Vec<OptionPair>, AllocError>
    ensures { IfOk result (λ pairs. pairs.items ≡ pairs_below options) }
{
    let mut pairs = Vec::new(alloc);
    for first in 0..options {
        add_pairs_from(&mut pairs, options, first)?;
    }
    Ok(pairs)
}

/// Adds the pairs of an option with each of so many.
fn add_pairs_from(
    pairs: &mut Vec<OptionPair>,
    options: usize,
    first: usize,
) -> Result<(), AllocError>
    ensures { OnOk result (pairs.new.items ≡ pairs.old.items ++ pairs_from options first) }
{
    for second in 0..options {
        pairs.push(OptionPair { first, second })?;
    }
    Ok(())
}
