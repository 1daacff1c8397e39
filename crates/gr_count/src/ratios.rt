//! The majority ratios of the options.

ghost use Rattle.std.specs.Prelude.{◌≡◌, ◌≢◌, ℕ, ◌<◌, ◌≤◌};
ghost use Rattle.gr_count.specs.declared.limits.TheConstants.{MAX_OPTIONS, MAX_RATIO, MIN_OPTIONS};
ghost use Rattle.gr_count.specs.Options.{number_of};

use crate::limits::{MAX_OPTIONS, MAX_RATIO, MIN_OPTIONS};
use crate::numbers::OptionNumbers;

/// The majority ratio that each option needs (Constitution, A.5.3.3). Options are numbers from 0,
/// the default option last; its ratio is not looked at.
#[derive(Debug, Drop)]
pub struct Ratios {
    options: usize,
    ratios: OptionNumbers,
    ghost few: { options ≤ MAX_OPTIONS },
    ghost enough: { MIN_OPTIONS ≤ options },
    ghost positive: { (a : ℕ) → a < options → 1 ≤ number_of ratios a },
    ghost small: { (a : ℕ) → number_of ratios a ≤ MAX_RATIO },
}

impl Ratios {
    ghost use Rattle.gr_count.specs.Shown.{options_of_ratios, ratio_at};

    /// The ratio 1 for each of so many options, the default one counted (Constitution, A.4.1):
    /// from `MIN_OPTIONS` to `MAX_OPTIONS`.
    pub fn new(options: usize) -> Ratios
        requires few { options ≤ MAX_OPTIONS }
        requires enough { MIN_OPTIONS ≤ options }
        ensures options { options_of_ratios result ≡ options }
        ensures ratios { (a : ℕ) → a < options → ratio_at result a ≡ 1 }
        ensures beyond { (a : ℕ) → options ≤ a → ratio_at result a ≡ 0 }
    {
        let ratios = OptionNumbers::of(options, |_| 1);
        Ratios { options, ratios }
    }

    /// How many options the ratios are for, the default one counted.
    pub fn options(&self) -> usize
        ensures value { result ≡ options_of_ratios self.now }
        ensures enough { MIN_OPTIONS ≤ result }
        ensures few { result ≤ MAX_OPTIONS }
    {
        self.options
    }

    /// Sets the ratio of an option, from 1 to `MAX_RATIO`, and changes no other.
    pub fn set(&mut self, option: usize, ratio: u32)
        requires option { option < options_of_ratios self.old }
        requires positive { 1 ≤ ratio }
        requires small { ratio ≤ MAX_RATIO }
        ensures options { options_of_ratios self.new ≡ options_of_ratios self.old }
        ensures changed { ratio_at self.new option ≡ ratio }
        ensures others { (a : ℕ) → a ≢ option → ratio_at self.new a ≡ ratio_at self.old a }
    {
        self.ratios.put(option, ratio);
    }

    /// The ratio of an option.
    pub(crate) fn at(&self, option: usize) -> u32
        requires { option < options_of_ratios self.now }
        ensures value { result ≡ ratio_at self.now option }
        ensures positive { 1 ≤ result }
        ensures small { result ≤ MAX_RATIO }
    {
        self.ratios.at(option)
    }
}
