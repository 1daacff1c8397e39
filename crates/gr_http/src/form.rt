//! Forms, and what their fields say.
ghost use Rattle.std.specs.Prelude.{◌≡◌, [], ◌∷◌, IfOk, option_map, string_bytes};
ghost use Rattle.gr_core.specs.Parts.Choice.{proposer_of};
ghost use Rattle.gr_http.specs.Field.{field_name};
ghost use Rattle.gr_http.specs.SentField.{found_values, sent};
ghost use Rattle.gr_http.specs.Form.{values_in, field_of, text_of, text_in, standing_in, number_in, signed_number_in, amendment_in, amendment_said, proposer_in, proposer_said};
ghost use Rattle.gr_http.specs.Problem.{Understands};

use crate::field::Field;
use crate::number::{number_said, signed_number_said};
use crate::problem::{NoDemand, Problem};
use form_urlencoded::{decode, raw_pairs};
use gr_core::{Amendment, Memory, Proposer, Standing};
use std::alloc::{AllocError, Global};
use std::marker::Model;

/// A field of a form, which the desk knows.
#[derive(Clone, Copy, Debug)]
struct SentField<'a> {
    field: Field,

    /// As it was sent.
    value: &'a [u8],
}

impl<'a> SentField<'a> {
    /// The value, if it is of this field.
    fn value_of(&self, field: Field) -> Option<&'a [u8]>
        ensures { found_values result ≡ values_in (sent self.now ∷ []) field }
    {
        (self.field == field).then_some(self.value)
    }
}

/// A form (URL Standard, section 5). It is read once: each name is decoded, and the fields that the
/// desk knows are kept, in their order. A value is decoded where it is asked for. A contract sees
/// the bytes of the form.
#[derive(Drop)]
pub struct Form<'a> {
    alloc: Global,

    /// As it was sent.
    bytes: &'a [u8],

    fields: Vec<SentField<'a>>,
}

impl<'a> Model for Form<'a> {
    ghost use Rattle.std.specs.Prelude.{ℕ, List, map};

    ghost Value = { List ℕ };

    ghost view = { λ form. form.bytes.now };

    ghost use Rattle.gr_http.specs.SentField.{sent};
    ghost use Rattle.gr_http.specs.Form.{AreFieldsOf};

    ghost invariant = { λ form.
        AreFieldsOf (map sent form.fields.items) form.bytes.now };
}

impl<'a> Form<'a> {
    /// The form of these bytes. Bytes of a name that are no UTF-8 become U+FFFD, and a field that
    /// the desk does not know is passed over.
    ///
    /// [`Memory`]: the memory for a name or for the fields was refused.
    pub fn read(alloc: Global, bytes: &'a [u8]) -> Result<Form<'a>, Memory>
        ensures { IfOk result (λ form. form ≡ bytes.now) }
    {
        let mut fields = Vec::new(alloc);
        for (name, value) in raw_pairs(bytes) {
            let name = decode(alloc, name)?;
            if let Some(field) = Field::named(name.as_str()) {
                fields.push(SentField { field, value })?;
            }
        }
        Ok(Form {
            alloc,
            bytes,
            fields,
        })
    }

    /// The text of a field.
    pub fn text(&self, field: Field) -> Result<String, NoDemand>
        ensures { Understands string_bytes (text_in self.now field) result }
    {
        let value = self.only_value(field).ok_or(Problem::BadField(field))?;
        Ok(decoded(self.alloc, value)?)
    }

    /// The standing of a field: `current` or `retired`.
    pub fn standing(&self, field: Field) -> Result<Standing, NoDemand>
        ensures { Understands (λ standing. standing) (standing_in self.now field) result }
    {
        let text = self.text(field)?;
        Ok(Standing::of_word(text.as_str()).ok_or(Problem::BadField(field))?)
    }

    /// The number of a field.
    pub fn number(&self, field: Field) -> Result<u32, NoDemand>
        ensures { Understands (λ number. number) (number_in self.now field) result }
    {
        let text = self.text(field)?;
        Ok(number_said(text.as_str()).ok_or(Problem::BadField(field))?)
    }

    /// The number of a field, which may be below 0.
    pub fn signed_number(&self, field: Field) -> Result<i32, NoDemand>
        ensures { Understands (λ number. number) (signed_number_in self.now field) result }
    {
        let text = self.text(field)?;
        Ok(signed_number_said(text.as_str()).ok_or(Problem::BadField(field))?)
    }

    /// Whether an amendment is minor, by a field: `0` or `1`.
    pub fn amendment(&self, field: Field) -> Result<Amendment, NoDemand>
        ensures { Understands (λ amendment. amendment) (amendment_in self.now field) result }
    {
        let text = self.text(field)?;
        Ok(amendment_said(text.as_str()).ok_or(Problem::BadField(field))?)
    }

    /// The proposer of a field: `@leader`, `@committee`, or the developer with this login, which
    /// the desk judges.
    pub fn proposer(&self, field: Field) -> Result<Proposer, NoDemand>
        ensures { Understands proposer_of (proposer_in self.now field) result }
    {
        Ok(proposer_said(self.text(field)?))
    }

    /// The value of the field as it was sent, where the form has just one such field.
    fn only_value(&self, field: Field) -> Option<&'a [u8]>
        ensures { option_map (λ value. text_of value.now) result
            ≡ field_of (field_name field) self.now }
    {
        let mut found = None;
        for sent in &self.fields {
            if let Some(value) = sent.value_of(field) {
                if found.is_some() {
                    return None;
                }
                found = Some(value);
            }
        }
        found
    }
}

/// The text of a value. Bytes that are no UTF-8 become U+FFFD.
fn decoded(alloc: Global, value: &[u8]) -> Result<String, AllocError>
    ensures { IfOk result (λ text. string_bytes text ≡ text_of value.now) }
{
    decode(alloc, value)?.into_owned(alloc)
}

fn amendment_said(text: &str) -> Option<Amendment>
    ensures { result ≡ amendment_said text.now }
{
    if text == "0" {
        Some(Amendment::Substantial)
    } else if text == "1" {
        Some(Amendment::Minor)
    } else {
        None
    }
}

fn proposer_said(text: String) -> Proposer
    ensures { proposer_of result ≡ proposer_said (string_bytes text) }
{
    match text.as_str() {
        "@leader" => Proposer::Leader,
        "@committee" => Proposer::Committee,
        _ => Proposer::Developer(text),
    }
}
