//! Receipts: what voters get for their ballots.
ghost use Rattle.std.specs.Prelude.{◌≡◌, ◌≢◌, ◌↔◌, ◌<◌, ℕ, List, IfOk, IsErr, IsTrue, Some};
ghost use Rattle.std.specs.Str.{IsAscii};
ghost use Rattle.hex.specs.Hex.{encode_lower, hex_digit_value};
ghost use Rattle.gr_core.specs.Parts.Receipt.{receipt_of, IsReceipt};

use crate::memory::Memory;
use crate::unfit::Damaged;
use sha2::{Digest, Sha256};
use std::alloc::Global;
use std::marker::Model;
use std::{array, fmt, str};

/// The receipt of a ballot, by which its voter can confirm that it is among those cast
/// (Constitution, 4.2.3). It is the SHA-256 (FIPS 180-4) of three lines, each ended by a line feed:
/// the number of the resolution in decimal, the login, and the voter's token (this project's
/// profile). The token itself is kept nowhere.
#[derive(Clone, Copy, Debug, PartialEq, Eq)]
pub struct Receipt {
    /// The bytes of the digest. Its 64 digits are made where they are shown.
    pub digest: [u8; 32],
}

impl Receipt {
    /// The receipt of this voter for this token on this resolution.
    pub(crate) fn of(
        alloc: Global,
        resolution: u32,
        login: &str,
        token: &str,
    ) -> Result<Receipt, Memory>
        ensures { IfOk result (λ receipt. receipt ≡ receipt_of resolution login.now token.now) }
    {
        let lines = format!(in alloc; "{resolution}\n{login}\n{token}\n")?;
        Ok(Receipt {
            digest: Sha256::digest(lines.as_str()),
        })
    }

    /// The digits of the digest. Takes no memory: a reply is written after its commit and must need
    /// none, so `hex` writes them into an array on the stack.
    pub fn digits(&self) -> ReceiptDigits
        ensures { result ≡ encode_lower self.now.digest }
    {
        let mut digits = [0; 64];
        let Ok(()) = hex::encode_to_slice(self.digest, &mut digits) else {
            unreachable!()
        };
        ReceiptDigits { digits }
    }

    /// The receipt whose digest has these 64 digits, `0`..`9` and `a`..`f`.
    ///
    /// [`Damaged`]: the text is something else. Takes no memory.
    pub(crate) fn read(text: &str) -> Result<Receipt, Damaged>
        ensures ok { IfOk result (λ receipt. encode_lower receipt.digest ≡ text.now) }
        ensures whole { IfOk result IsReceipt }
        ensures err { IsErr result → (receipt : Receipt) → IsReceipt receipt
            → encode_lower receipt.digest ≢ text.now }
    {
        let Some(digits) = text.as_bytes().first_chunk() else {
            return Err(Damaged);
        };
        let receipt = Receipt {
            digest: digest_of(digits),
        };
        // Does nothing: its clause says that the digest has 32 bytes, whatever the text.
        receipts_are_digests(receipt);
        if receipt.has_digits(text) {
            Ok(receipt)
        } else {
            Err(Damaged)
        }
    }

    /// Whether the text is the digits of the digest.
    fn has_digits(&self, text: &str) -> bool
        ensures { IsTrue result ↔ (encode_lower self.now.digest ≡ text.now) }
    {
        self.digits().as_str() == text
    }
}

/// The digest that has these digits, if a digest has them. `hex` would take a branch to tell a
/// letter, which a processor can hardly foresee: with 400,000 ballots that was a fifth of a load.
/// There is no branch here.
fn digest_of(digits: &[u8; 64]) -> [u8; 32]
    ensures { (receipt : Receipt) → IsReceipt receipt
        → encode_lower receipt.digest ≡ digits.now → result ≡ receipt.digest }
{
    array::from_fn(|byte| 16 * value_of(digits[2 * byte]) + value_of(digits[2 * byte + 1]))
}

/// The value of a digit, and some number below 16 for any other character. The digits `0`..`9` are
/// the codes 48 to 57, and `a`..`f` are 97 to 102.
fn value_of(digit: u8) -> u8
    ensures value { (value : ℕ) → hex_digit_value digit ≡ Some value → result ≡ value }
    ensures small { result < 16 }
{
    (digit % 16 + 9 * (digit / 64)) % 16
}

/// The digits of the digest.
impl fmt::Display for Receipt {
    ghost output = { λ receipt. Some (encode_lower receipt.digest) };

    fn fmt<W: fmt::Write>(&self, f: &mut fmt::Formatter<W>) -> fmt::Result {
        let digits = self.digits();
        f.write_str(digits.as_str())
    }
}

/// The 64 digits of a receipt, `0`..`9` and `a`..`f`.
#[derive(Clone, Copy, Debug)]
pub struct ReceiptDigits {
    digits: [u8; 64],
}

impl Model for ReceiptDigits {
    ghost Value = { List ℕ };

    ghost view = { λ digits. digits.digits };

    ghost invariant = { λ digits. IsAscii digits.digits };

    ghost inverse = { λ digits. record { digits = digits } };
}

impl ReceiptDigits {
    /// The digits as text.
    pub fn as_str(&self) -> &str
        ensures { result.now ≡ self.now }
    {
        let Ok(text) = str::from_utf8(&self.digits) else {
            unreachable!()
        };
        text
    }
}

/// Does nothing: its clause says that a receipt has the 32 bytes of a digest, by its type.
pub(crate) fn receipts_are_digests(receipt: Receipt)
    ensures { IsReceipt receipt }
{}
